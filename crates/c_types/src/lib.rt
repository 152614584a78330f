//! The structs that C and a proved library pass to each other: profiles, events, samples, elements,
//! headers, frames, manifests, faults and texts. Conversions say which value a struct stands for.
#![tactic(auto)]

mod cycle;
mod det_manifest;
mod frame;
mod profile;
mod record;
mod text;

pub use cycle::{DetElement, DetRefusal, DetSample, DetTime};
pub use det_manifest::{DetManifest, DetManifestFault, DetNeeds};
pub use frame::{DetFrame, DetPlace, DetRecordFault};
pub use profile::{DetEvent, DetHeader, DetProfile};
pub use record::{DetRecord, format_from_number, format_number};
pub use text::DetText;
