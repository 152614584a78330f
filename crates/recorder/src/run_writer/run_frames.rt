//! What is counted of a run, and which runs are written in parts.
ghost use Rattle.std.specs.Prelude.{◌≡◌, ◌≤◌, [], ◌∷◌, length, IfSome};
ghost use Rattle.std.specs.List.{count_by};
ghost use Rattle.det_values.specs.declared.frames.Frame.TheVariants.{Run};
ghost use Rattle.det_values.specs.declared.format.Format.TheVariants.{Two};
ghost use Rattle.record_codec.specs.FinishedRun.{finished_run};
ghost use Rattle.probes.specs.Shipped.{is_refused};

use det_values::{CycleInput, DrawnElements, Format, Outcome, RunFrame};

/// 1 for a run that was refused, else 0.
pub(crate) fn refusals(run: &RunFrame) -> u32
    ensures refusals { result ≡ count_by is_refused (run.now ∷ []) }
    ensures few { result ≤ 1 }
{
    match &run.outcome {
        Outcome::Finished { .. } => 0,
        Outcome::Refused(_) => 1,
    }
}

/// The least length, in bytes, of an element block that is written without a copy.
const LONG_BYTES: usize = 4_096;

/// The input, the elements and the output of a run that is written in parts: a finished run in
/// format Two whose first block of elements has 4,096 bytes or more. None for every other run.
/// Each block of such a run gets a write of its own.
pub(crate) fn long_run(
    format: Format,
    run: &RunFrame,
) -> Option<(&CycleInput, &DrawnElements, &[u8])>
    ensures run { IfSome result (λ parts.
        Run run.now ≡ finished_run parts.0.now parts.1.now parts.2.now) }
    ensures two { IfSome result (λ parts. format ≡ Two) }
    ensures short { IfSome result (λ parts. length parts.2.now ≤ 1048576) }
{
    let Format::Two = format else {
        return None;
    };
    match &run.outcome {
        Outcome::Finished { elements, output } => {
            match elements.blocks() {
                [first, ..] if first.spelled().len() >= LONG_BYTES => {
                    Some((&run.input, elements, output.as_slice()))
                }
                _ => None,
            }
        }
        Outcome::Refused(_) => None,
    }
}
