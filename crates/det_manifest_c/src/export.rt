//! The exports.
ghost use Rattle.std.specs.Prelude.{◌≡◌, ◌≢◌, ◌≤◌, ◌<◌, ◌+◌, ◌↔◌, length, IsTrue, false};
ghost use Rattle.std.specs.Prelude.{Bool, Err};
ghost use Rattle.manifest.specs.declared.manifest_fault.ManifestFault.TheVariants.{NotToml};
ghost use Rattle.manifest.specs.Meaning.{named_manifest_of};
ghost use Rattle.manifest.specs.Values.{NamedValue};
ghost use Rattle.det_manifest_c.specs.Manifests.{StandsFor, IsManifest, IsFault};

use crate::fault::fault_struct;
use crate::fill::fill;
use c_types::{DetManifest, DetManifestFault};
use manifest::{ManifestError, read_named_manifest};
use std::alloc::Global;
use toml_line::toml_fault_line;

/// Reads a manifest. Returns 0 if `manifest` is what the text says, 1 if `fault` is its first fault,
/// and 2 for too little memory. Strictly, an unknown key is a fault.
#[unsafe(no_mangle)]
pub extern "C" fn det_manifest_read(
    alloc: Global,
    manifest: &mut DetManifest,
    fault: &mut DetManifestFault,
    bytes: &[u8],
    strict: bool,
) -> u8
    ensures range { result ≤ 2 }
    ensures read { result ≡ 0 → IsManifest manifest.new (named_manifest_of strict bytes.now) }
    ensures fault { result ≡ 1 → IsFault fault.new (named_manifest_of strict bytes.now) }
    ensures kept_manifest { result ≢ 0 → manifest.new ≡ manifest.old }
    ensures kept_fault { result ≢ 1 → fault.new ≡ fault.old }
{
    match read_named_manifest(alloc, bytes, strict) {
        Ok(read) => {
            fill(manifest, &read);
            0
        }
        Err(ManifestError::Fault(first)) => {
            *fault = fault_struct(first);
            1
        }
        Err(ManifestError::OutOfMemory) => 2,
    }
}

/// The line, counted from 1, at which a text stops being TOML. Returns 0 if the text is TOML, or if
/// there is too little memory to find the line.
#[tactic(auto, using(crate::proofs::Texts::no_toml))]
#[unsafe(no_mangle)]
pub extern "C" fn det_manifest_toml_line(alloc: Global, bytes: &[u8]) -> usize
    ensures last { result ≤ 1 + length bytes.now }
    ensures not_toml { 0 < result → length bytes.now ≤ 65536
        → (strict : Bool) → named_manifest_of strict bytes.now ≡ Err NotToml }
{
    match toml_fault_line(alloc, bytes) {
        Some(line) => line,
        None => 0,
    }
}

/// Whether the manifest's job has this name. No job has a name of more than 64 bytes.
#[unsafe(no_mangle)]
pub extern "C" fn det_manifest_is_job(manifest: &DetManifest, name: &[u8]) -> bool
    ensures name { (m : NamedValue) → StandsFor manifest.now m → length name.now ≤ 64
        → (IsTrue result ↔ (m.job ≡ name.now)) }
    ensures long { 64 < length name.now → result ≡ false }
{
    let len = usize::from(manifest.job_len);
    len <= manifest.job.len() && &manifest.job[..len] == name
}
