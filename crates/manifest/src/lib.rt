//! Reads a manifest, which says what a client is made of and which resources it needs: its keys,
//! names and ranges, and keys that it doesn't know. It is a TOML text.
#![tactic(auto)]

mod events;
mod hardware;
mod key;
mod key_text;
mod manifest;
mod manifest_fault;
mod named_manifest;
mod needs;
mod params;
mod platform_name;
mod read;
mod stage;
mod typed_value;
mod unknown_key;
mod work;

pub use key::{Key, NeedKey};
pub use key_text::KeyText;
pub use manifest::Manifest;
pub use manifest_fault::{ManifestError, ManifestFault};
pub use named_manifest::NamedManifest;
pub use needs::Needs;
pub use platform_name::PlatformName;
pub use read::{MOST_BYTES, read_manifest, read_named_manifest, read_strict_manifest};
pub use unknown_key::{KeyTable, UnknownKey};
