//! The lines of a manifest as text. `needs` reads the manifest and prints them.
ghost use Rattle.std.specs.Prelude.{◌≡◌, ◌≤◌, length, option_map, IfSome};
ghost use Rattle.needs_text.specs.Lines.{needs_lines};
ghost use Rattle.cmd_run.specs.needs_command.Needs.{job_name};

use det_values::JobKind;
use manifest::{Manifest, Needs};
use needs_text::{ShortText, manifest_text};

fn job_name(kind: JobKind) -> &'static str
    ensures name { result.now ≡ job_name kind }
    ensures short { length result.now ≤ 5 }
{
    match kind {
        JobKind::Bank => "bank",
        JobKind::Cloud => "cloud",
        JobKind::Guard => "guard",
    }
}

fn platform_name(manifest: &Manifest) -> Option<&[u8]>
    ensures name { option_map (λ bytes. bytes.now) result ≡ manifest.now.platform }
    ensures short { IfSome result (λ bytes. length bytes.now ≤ 64) }
{
    match manifest.platform() {
        Some(name) => Some(name.as_slice()),
        None => None,
    }
}

fn copied_needs(needs: Option<&Needs>) -> Option<Needs>
    ensures { result ≡ option_map (λ n. n.now) needs.entry }
{
    match needs {
        Some(needs) => Some(*needs),
        None => None,
    }
}

/// The lines of a manifest.
pub(crate) fn needs_lines(manifest: &Manifest) -> ShortText
    ensures { result ≡ needs_lines (job_name manifest.now.kind) manifest.now.cycle_time
        manifest.now.workers manifest.now.platform manifest.now.init_needs manifest.now.run_needs }
{
    manifest_text(
        job_name(manifest.kind()).as_bytes(),
        manifest.cycle_time(),
        manifest.workers(),
        platform_name(manifest),
        copied_needs(manifest.init_needs()),
        copied_needs(manifest.run_needs()),
    )
}
