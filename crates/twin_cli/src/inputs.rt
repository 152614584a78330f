//! Reads a stimulus into memory, and its inputs from there.
ghost use Rattle.std.specs.Prelude.{◌≡◌, ℕ, ◌≤◌, ◌<◌, List, length, IfOk, IfErr, IsSome, Some};
ghost use Rattle.std.specs.Prelude.{◌∷◌, []};
ghost use Rattle.std.specs.List.{All};
ghost use Rattle.det_io.specs.Shelf.{Asks};
ghost use Rattle.det_io.specs.Traffic.{ShelfTraffic, shelf_run, failure_in, IfRefused};
ghost use Rattle.stimulus.specs.Reading.{Terminated, BadLine, blocks, ending};
ghost use Rattle.cli_answers.specs.Outcome.{known_bytes};
ghost use Rattle.cli_answers.specs.Slots.{KeepsSlots};
ghost use Rattle.run_setup.specs.Setup.{IsCalm};

use crate::text_inputs::TextInputs;
use det_io::{Failure, Shelf, Stopped, TooLong, read_limited};
use det_values::Bytes;
use std::alloc::Global;
use stimulus::StimulusFault;
use stimulus::stimulus_laws::limits;
use twins::Inputs;

/// The greatest length of a stimulus, in bytes. It is read whole before a copy runs, so that each
/// copy has all inputs.
const MOST_BYTES: usize = 1_048_576;

/// The text under a name. A longer text is refused after at most one piece of 4,096 bytes beyond
/// the greatest length.
pub(crate) fn read_text<S: Shelf>(
    alloc: Global,
    name: &str,
    shelf: &mut S,
) -> Result<Bytes, Stopped<TooLong>>
    ensures text { IfOk result (λ text. IsSome ((S.sees shelf.old).holds name.now)
        → text ≡ known_bytes (S.sees shelf.old) name.now) }
    ensures few { IfOk result (λ text. length text ≤ 1048576) }
    ensures long { IfErr result (λ e. IfRefused e (λ _.
        IsSome ((S.sees shelf.old).holds name.now)
        → 1048576 < length (known_bytes (S.sees shelf.old) name.now))) }
    ensures traffic { ShelfTraffic (shelf_run S.sees S.stays shelf.old shelf.new)
        (failure_in result) }
    ensures writes_nothing { failure_in result ≡ Some Failure.Write → ⊥ }
    ensures asked { Asks (S.sees shelf.old) (S.sees shelf.new) (name.now ∷ []) }
    ensures earlier { KeepsSlots (S.sees shelf.old) (S.sees shelf.new) }
{
    let slot = shelf.open_input(name)?;
    let text = read_limited(alloc, shelf, slot, MOST_BYTES)?;
    Ok(Bytes::from_vec(text))
}

/// The inputs of a whole stimulus. `events` is the number of the profile's events. `Refused` has
/// the bad line.
pub(crate) fn inputs_of(
    alloc: Global,
    text: Bytes,
    events: u16,
) -> Result<Inputs, Stopped<StimulusFault>>
    ensures inputs { IfOk result (λ inputs. inputs ≡ blocks events text) }
    ensures whole { IfOk result (λ inputs. ending events text ≡ Terminated) }
    ensures known { IfOk result (λ inputs.
        All (λ input. All (λ s. s.event < events) input.samples) inputs) }
    ensures refused { IfErr result (λ e. IfRefused e (λ fault.
        ending events text ≡ BadLine fault.line)) }
    ensures calm { IsCalm (failure_in result) }
{
    limits();
    let mut source = TextInputs::new(alloc, text, events);
    let mut inputs = Inputs::new(alloc);
    'inputs: while let Some(input) = source.next()? {
        inputs.push(input)?;
    }
    Ok(inputs)
}
