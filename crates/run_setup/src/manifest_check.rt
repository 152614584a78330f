//! Decodes the text of a manifest, and checks its parameters by its job. `read_setup` reads the
//! text.
ghost use Rattle.std.specs.Prelude.{◌≡◌, IfOk, IfErr, Ok, Err};
ghost use Rattle.run_setup.specs.Setup.{check_manifest_params, setup_of};
ghost use Rattle.det_io.specs.Traffic.{failure_in, IfRefused};
ghost use Rattle.run_setup.specs.Setup.{IsCalm, IsGood};
ghost use Rattle.manifest.specs.Meaning.{IfFault, manifest_of};

use cli_answers::BadManifest;
use det_io::{Failure, Stopped};
use jobs::bad_param;
use manifest::{Manifest, ManifestError, read_manifest, read_strict_manifest};
use std::alloc::Global;

/// The manifest, if its job takes its parameters. Otherwise `Refused` has the least bad parameter.
fn check_manifest_params(manifest: Manifest) -> Result<Manifest, Stopped<BadManifest>>
    ensures manifest { IfOk result (λ m. check_manifest_params manifest ≡ Ok m) }
    ensures good { IfOk result IsGood }
    ensures refused { IfErr result (λ e. IfRefused e (λ why.
        check_manifest_params manifest ≡ Err why)) }
    ensures calm { IsCalm (failure_in result) }
{
    let events = manifest.events().len() as u16;
    match bad_param(manifest.kind(), manifest.params(), events) {
        None => Ok(manifest),
        Some(index) => Err(Stopped::Refused(BadManifest::Parameter(index))),
    }
}

fn manifest_by(alloc: Global, text: &[u8], strict: bool) -> Result<Manifest, ManifestError>
    ensures manifest { IfOk result (λ m. manifest_of strict text.now ≡ Ok m) }
    ensures fault { IfErr result (λ e. IfFault e (λ f. manifest_of strict text.now ≡ Err f)) }
{
    if strict {
        read_strict_manifest(alloc, text)
    } else {
        read_manifest(alloc, text)
    }
}

/// The manifest in a text, if its job takes its parameters. If `strict` is set, a key that no table
/// of a manifest knows is a fault.
pub(crate) fn setup_of(
    alloc: Global,
    text: &[u8],
    strict: bool,
) -> Result<Manifest, Stopped<BadManifest>>
    ensures manifest { IfOk result (λ m. setup_of strict text.now ≡ Ok m) }
    ensures good { IfOk result IsGood }
    ensures refused { IfErr result (λ e. IfRefused e (λ why. setup_of strict text.now ≡ Err why)) }
    ensures calm { IsCalm (failure_in result) }
{
    match manifest_by(alloc, text, strict) {
        Ok(manifest) => check_manifest_params(manifest),
        Err(ManifestError::Fault(fault)) => { Err(Stopped::Refused(BadManifest::Fault(fault))) }
        Err(ManifestError::OutOfMemory) => Err(Stopped::Failed(Failure::OutOfMemory)),
    }
}
