//! Reads a manifest from its text: first the document, then the keys.
ghost use Rattle.std.specs.Prelude.{◌≡◌, true, false, Ok, Err, Some, None, IfOk, IfErr, ◌≤◌};
ghost use Rattle.toml.specs.View.{view};
ghost use Rattle.manifest.specs.declared.key.Key.{Key};
ghost use Rattle.manifest.specs.Keys.{found};
ghost use Rattle.manifest.specs.KeyReaders.{IsParsed, IsDocument, Agrees};
ghost use Rattle.manifest.specs.Tree.{count_of, text_of};
ghost use Rattle.manifest.specs.Meaning.{named_manifest_of, manifest_of, named_in, document_of};
ghost use Rattle.manifest.specs.Meaning.{IfFault, unknown_fault};

use crate::events::{duplicate_event, read_events};
use crate::hardware::Hardware;
use crate::params::read_params;
use crate::unknown_key::first_unknown;
use crate::work::Work;
use crate::{Manifest, ManifestError, ManifestFault, NamedManifest};
use std::alloc::{AllocError, Global};
use toml::Value;

/// The greatest length of a manifest in bytes.
pub const MOST_BYTES: usize = 65_536;

/// Refuses an unknown key, if that is a fault.
fn refuse_unknown(tree: &Value, count: usize, strict: bool) -> Result<(), ManifestFault>
    requires count { count ≡ count_of (found (view tree.now) Key.Event) }
    requires few { count ≤ 256 }
    ensures fault { IfErr result (λ f. unknown_fault strict (view tree.now) ≡ Some f) }
    ensures fits { IfOk result (λ _. unknown_fault strict (view tree.now) ≡ None) }
{
    if !strict {
        return Ok(());
    }
    match first_unknown(tree, count as u16) {
        Some(key) => Err(ManifestFault::UnknownKey(key)),
        None => Ok(()),
    }
}

/// The text of the job's key, or an empty one.
fn job_name(alloc: Global, tree: &Value) -> Result<String, AllocError>
    ensures { IfOk result (λ name. name.bytes.items ≡ text_of (found (view tree.now) Key.Job)) }
{
    let mut name = String::new(alloc);
    if let Some(value) = tree.get("job") {
        if let Some(text) = value.as_str() {
            name.push_str(text)?;
        }
    }
    Ok(name)
}

fn read_tree(alloc: Global, tree: &Value, strict: bool) -> Result<NamedManifest, ManifestError>
    ensures { Agrees result (named_in strict (view tree.now)) }
{
    let work = Work::read(tree)?;
    let params = read_params(alloc, tree)?;
    let events = read_events(alloc, tree)?;
    let hardware = Hardware::read(tree)?;
    refuse_unknown(tree, events.len(), strict)?;
    if let Some(number) = duplicate_event(events.as_slice()) {
        return Err(ManifestError::Fault(ManifestFault::DuplicateEvent(number)));
    }
    let job = job_name(alloc, tree)?;
    Ok(NamedManifest {
        job,
        cycle_time: work.cycle_time,
        workers: work.workers,
        params,
        events,
        platform: hardware.platform,
        init_needs: hardware.init_needs,
        run_needs: hardware.run_needs,
    })
}

#[tactic(auto, using(crate::proofs::Texts::of_table))]
fn parse(alloc: Global, text: &str) -> Result<Value, ManifestError>
    ensures { IsParsed result (document_of text.now) }
{
    match toml::table_from_str(alloc, text) {
        Ok(table) => Ok(Value::Table(table)),
        Err(error) if error.is_memory() => Err(ManifestError::OutOfMemory),
        Err(_) => Err(ManifestError::Fault(ManifestFault::NotToml)),
    }
}

#[tactic(auto, using(crate::proofs::Texts::is_text, crate::proofs::Texts::no_text))]
fn document(alloc: Global, bytes: &[u8]) -> Result<Value, ManifestError>
    ensures { IsDocument result bytes.now }
{
    if bytes.len() > MOST_BYTES {
        return Err(ManifestError::Fault(ManifestFault::TooLong));
    }
    let text = match std::str::from_utf8(bytes) {
        Ok(text) => text,
        Err(_) => return Err(ManifestError::Fault(ManifestFault::NotToml)),
    };
    parse(alloc, text)
}

/// The manifest in a text of at most 65,536 bytes up to the name of its job, or its first fault.
/// Strictly, an unknown key is a fault.
pub fn read_named_manifest(
    alloc: Global,
    bytes: &[u8],
    strict: bool,
) -> Result<NamedManifest, ManifestError>
    ensures { Agrees result (named_manifest_of strict bytes.now) }
{
    let tree = document(alloc, bytes)?;
    read_tree(alloc, &tree, strict)
}

/// The manifest in a text of at most 65,536 bytes, or its first fault. Unknown keys are ignored.
#[tactic(auto, using(crate::proofs::ByJob::is_by_job))]
pub fn read_manifest(alloc: Global, bytes: &[u8]) -> Result<Manifest, ManifestError>
    ensures manifest { IfOk result (λ m. manifest_of false bytes.now ≡ Ok m) }
    ensures fault { IfErr result (λ e. IfFault e (λ f. manifest_of false bytes.now ≡ Err f)) }
{
    Ok(read_named_manifest(alloc, bytes, false)?.with_kind()?)
}

/// The manifest in a text of at most 65,536 bytes, or its first fault. An unknown key is a fault.
#[tactic(auto, using(crate::proofs::ByJob::is_by_job))]
pub fn read_strict_manifest(alloc: Global, bytes: &[u8]) -> Result<Manifest, ManifestError>
    ensures manifest { IfOk result (λ m. manifest_of true bytes.now ≡ Ok m) }
    ensures fault { IfErr result (λ e. IfFault e (λ f. manifest_of true bytes.now ≡ Err f)) }
{
    Ok(read_named_manifest(alloc, bytes, true)?.with_kind()?)
}
