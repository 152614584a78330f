//! Hints on manifests.
ghost use Rattle.std.specs.Prelude.{◌≡◌, ◌≤◌, true, IfSome};
ghost use Rattle.hints_on_files.specs.Kinds.{is_of_manifest};

use crate::hint::Hint;
use crate::parameters::parameter_hint;
use cli_answers::BadManifest;
use det_io::{Shelf, Stopped, read_limited};
use manifest::{Key, MOST_BYTES, ManifestFault, read_manifest};
use run_setup::read_setup;
use std::alloc::Global;
use toml_line::toml_fault_line;

/// The hint on the manifest under a name, which is refused for this cause. Its text is read again
/// where the cause doesn't have the place.
fn refusal_hint<S: Shelf>(
    alloc: Global,
    name: &str,
    why: BadManifest,
    shelf: &mut S,
) -> Option<Hint>
    ensures { IfSome result (λ hint. is_of_manifest hint ≡ true) }
{
    let slot = shelf.open_input(name).ok()?;
    match why {
        BadManifest::Fault(ManifestFault::TooLong) => Some(Hint::LongManifest),
        BadManifest::Fault(ManifestFault::NotToml) => {
            let text = read_limited(alloc, shelf, slot, MOST_BYTES).ok()?;
            Some(Hint::Toml(toml_fault_line(alloc, &text)?))
        }
        BadManifest::Fault(
            ManifestFault::Missing(key)
            | ManifestFault::WrongKind(key)
            | ManifestFault::OutOfRange(key),
        ) => Some(Hint::Key(key)),
        BadManifest::Fault(ManifestFault::UnknownJob) => Some(Hint::Key(Key::Job)),
        BadManifest::Fault(_) => None,
        BadManifest::Parameter(_) => {
            let text = read_limited(alloc, shelf, slot, MOST_BYTES).ok()?;
            let manifest = read_manifest(alloc, &text).ok()?;
            parameter_hint(manifest.kind(), manifest.params(), manifest.events())
        }
    }
}

/// What is wrong with the first of these manifests that is refused.
pub fn manifest_hint<S: Shelf>(
    alloc: Global,
    names: &[&str],
    strict: bool,
    shelf: &mut S,
) -> Option<Hint>
    ensures { IfSome result (λ hint. is_of_manifest hint ≡ true) }
{
    for name in names {
        match read_setup(alloc, *name, strict, shelf) {
            Ok(_) => {}
            Err(Stopped::Refused(why)) => return refusal_hint(alloc, *name, why, shelf),
            Err(Stopped::Failed(_)) => return None,
        }
    }
    None
}

/// The number of events in the manifest under a name. None if it is refused or can't be read.
pub fn manifest_events<S: Shelf>(alloc: Global, name: &str, shelf: &mut S) -> Option<u16>
    ensures { IfSome result (λ events. events ≤ 256) }
{
    let manifest = read_setup(alloc, name, false, shelf).ok()?;
    Some(manifest.events().len() as u16)
}
