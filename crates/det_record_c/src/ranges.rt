//! Checks that C's values are in their ranges.
ghost use Rattle.std.specs.Prelude.{◌↔◌, ◌≡◌, ◌≤◌, length, IsTrue};
ghost use Rattle.std.specs.List.{All};
ghost use Rattle.det_values.specs.declared.event.Policy.TheVariants.{Last};
ghost use Rattle.record_grammar.specs.Grammar.{policy_of};
ghost use Rattle.c_types.specs.Places.{format_of};
ghost use Rattle.c_types.specs.Ranges.{AreSoundSamples, AreSoundElements, IsSoundEvent};
ghost use Rattle.c_types.specs.Ranges.{IsSoundFinish, IsSoundRefusal};
ghost use Rattle.det_record_c.specs.Parts.{IsSound, IsSoundIn, HasPolicies};
ghost use Rattle.det_record_c.specs.Runs.{IsSoundOpening};

use crate::part::Part;
use c_types::{DetElement, DetEvent, DetProfile, DetRecord, DetRefusal, DetSample};

const MAX_PARAMS: usize = 16;

const MAX_EVENTS: usize = 256;

const MAX_SAMPLES: usize = 4_096;

const MAX_ELEMENTS: usize = 65_536;

const MAX_OUTPUT: usize = 1_048_576;

fn are_sound_events(given: &[DetEvent]) -> bool
    ensures { IsTrue result ↔ All IsSoundEvent given.now }
{
    given.iter().all(|event| event.spec().is_some())
}

/// Whether the policies of all events are 0.
fn are_last(given: &[DetEvent]) -> bool
    ensures { IsTrue result ↔ All (λ e. policy_of e.policy ≡ Last) given.now }
{
    given.iter().all(|event| event.policy == 0)
}

/// Whether a format has the policies of all events.
fn has_policies(format: u8, events: &[DetEvent]) -> bool
    ensures { IsTrue result ↔ HasPolicies (format_of format) events.now }
{
    match format {
        1 => are_last(events),
        _ => true,
    }
}

fn are_sound_samples(events: u16, given: &[DetSample]) -> bool
    ensures { IsTrue result ↔ AreSoundSamples events given.now }
{
    given.len() <= MAX_SAMPLES && given.iter().all(|sample| sample.is_sample_of(events))
}

fn are_sound_elements(given: &[DetElement]) -> bool
    ensures { IsTrue result ↔ AreSoundElements given.now }
{
    given.len() <= MAX_ELEMENTS && given.iter().all(|element| element.len <= 64)
}

fn is_sound_header(format: u8, profile: &DetProfile, params: &[i64], events: &[DetEvent]) -> bool
    ensures { IsTrue result ↔ IsSoundIn (format_of format) profile.now params.now events.now }
{
    profile.cycle_time >= 1
        && profile.cycle_time <= i64::MAX as u64
        && params.len() <= MAX_PARAMS
        && events.len() <= MAX_EVENTS
        && are_sound_events(events)
        && has_policies(format, events)
}

/// Whether a cycle with these samples and this number of elements can be opened.
pub(crate) fn is_sound_opening(events: u16, samples: &[DetSample], count: u32) -> bool
    ensures { IsTrue result ↔ IsSoundOpening events samples.now count }
{
    are_sound_samples(events, samples) && count <= 65_536
}

pub(crate) fn is_sound_output(output: &[u8]) -> bool
    ensures { IsTrue result ↔ (length output.now ≤ 1048576) }
{
    output.len() <= MAX_OUTPUT
}

fn is_sound_finish(
    events: u16,
    samples: &[DetSample],
    elements: &[DetElement],
    output: &[u8],
) -> bool
    ensures { IsTrue result ↔ IsSoundFinish events samples.now elements.now output.now }
{
    are_sound_samples(events, samples) && are_sound_elements(elements) && is_sound_output(output)
}

fn is_sound_refusal(events: u16, samples: &[DetSample], refusal: &DetRefusal) -> bool
    ensures { IsTrue result ↔ IsSoundRefusal events samples.now refusal.now }
{
    are_sound_samples(events, samples) && refusal.place().is_some()
}

/// Whether the values of a part are in their ranges.
pub(crate) fn is_sound(state: &DetRecord, part: &Part<'_>) -> bool
    ensures { IsTrue result ↔ IsSound state.now part.now }
{
    match *part {
        Part::Header {
            profile,
            params,
            events,
        } => is_sound_header(state.format, profile, params, events),
        Part::Register => true,
        Part::Discover => true,
        Part::Init { elements } => are_sound_elements(elements),
        Part::Finished {
            samples,
            elements,
            output,
            ..
        } => is_sound_finish(state.events, samples, elements, output),
        Part::Refused {
            samples,
            refusal,
            ..
        } => is_sound_refusal(state.events, samples, refusal),
        Part::Terminate => true,
    }
}
