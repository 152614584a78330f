//! Fills the struct of a manifest.
ghost use Rattle.std.specs.Prelude.{◌≡◌, ◌≤◌, length, map, take, option_map};
ghost use Rattle.c_types.specs.CValues.{event_of};
ghost use Rattle.c_types.specs.ManifestFaults.{needs_of};
ghost use Rattle.det_manifest_c.specs.Manifests.{StandsFor, HasText, platform_in};

use c_types::{DetEvent, DetManifest, DetNeeds};
use det_values::EventSpec;
use manifest::{NamedManifest, Needs, PlatformName};

/// No name of a job and no platform's name is longer.
const MAX_TEXT: usize = 64;

/// Copies a text, and returns its length. A text that is too long is left, and its length is 65.
fn fill_text(room: &mut [u8], text: &[u8]) -> u8
    requires { length room.old ≡ 64 }
    ensures { HasText result room.new text.now }
{
    if text.len() > MAX_TEXT {
        return 65;
    }
    room[..text.len()].copy_from_slice(text);
    text.len() as u8
}

fn fill_platform(room: &mut [u8], platform: Option<&PlatformName>) -> u8
    requires { length room.old ≡ 64 }
    ensures { platform_in result room.new ≡ option_map (λ p. p.now) platform.entry }
{
    match platform {
        None => 0,
        Some(name) => {
            let text = name.as_slice();
            room[..text.len()].copy_from_slice(text);
            text.len() as u8
        }
    }
}

fn fill_params(room: &mut [i64], params: &[i64]) -> u16
    requires room { length room.old ≡ 16 }
    requires few { length params.now ≤ 16 }
    ensures { take result room.new ≡ params.now }
{
    room[..params.len()].copy_from_slice(params);
    params.len() as u16
}

fn fill_events(room: &mut [DetEvent], events: &[EventSpec]) -> u16
    requires room { length room.old ≡ 256 }
    requires few { length events.now ≤ 256 }
    ensures { map event_of (take result room.new) ≡ events.now }
{
    'each_event: for index in 0..events.len() {
        room[index] = DetEvent::from_spec(&events[index]);
    }
    events.len() as u16
}

/// The struct of needs.
fn needs_struct(needs: Option<&Needs>) -> DetNeeds
    ensures { needs_of result ≡ option_map (λ n. n.now) needs.entry }
{
    match needs {
        None => DetNeeds {
            instructions: 0,
            sequential_begin: 0,
            sequential_end: 0,
            speedup: 0,
            there: false,
        },
        Some(needs) => DetNeeds {
            instructions: needs.instructions,
            sequential_begin: needs.sequential_begin,
            sequential_end: needs.sequential_end,
            speedup: needs.speedup,
            there: true,
        },
    }
}

/// Makes the struct stand for a manifest that was read.
pub(crate) fn fill(manifest: &mut DetManifest, read: &NamedManifest)
    ensures { StandsFor manifest.new read.now }
{
    manifest.cycle_time = read.cycle_time();
    manifest.workers = read.workers();
    manifest.init_needs = needs_struct(read.init_needs());
    manifest.run_needs = needs_struct(read.run_needs());
    manifest.job_len = fill_text(&mut manifest.job, read.job());
    manifest.platform_len = fill_platform(&mut manifest.platform, read.platform());
    manifest.param_count = fill_params(&mut manifest.params, read.params().as_slice());
    manifest.event_count = fill_events(&mut manifest.events, read.events().as_slice());
}
