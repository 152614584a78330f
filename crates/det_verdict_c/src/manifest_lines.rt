//! The lines that `needs` prints of a manifest.
ghost use Rattle.std.specs.Prelude.{◌≡◌, ◌≤◌, length, option_map, IfSome};
ghost use Rattle.c_types.specs.CValues.{text_of};
ghost use Rattle.det_verdict_c.specs.ManifestLines.{job_of, platform_of, manifest_lines};

use c_types::{DetManifest, DetText};
use needs_text::manifest_text;

fn job(manifest: &DetManifest) -> &[u8]
    ensures bytes { result.now ≡ job_of manifest.now }
    ensures short { length result.now ≤ 64 }
{
    &manifest.job[..usize::from(manifest.job_len).min(64)]
}

fn platform(manifest: &DetManifest) -> Option<&[u8]>
    ensures bytes { option_map (λ bytes. bytes.now) result ≡ platform_of manifest.now }
    ensures short { IfSome result (λ bytes. length bytes.now ≤ 64) }
{
    if manifest.platform_len == 0 {
        return None;
    }
    Some(&manifest.platform[..usize::from(manifest.platform_len).min(64)])
}

/// The lines that `needs` prints of a manifest.
#[unsafe(no_mangle)]
pub extern "C" fn det_text_needs(manifest: &DetManifest, text: &mut DetText)
    ensures { text_of text.new ≡ manifest_lines manifest.now }
{
    let lines = manifest_text(
        job(manifest),
        manifest.cycle_time,
        manifest.workers,
        platform(manifest),
        manifest.init_needs.needs(),
        manifest.run_needs.needs(),
    );
    text.set(lines.as_slice());
}
