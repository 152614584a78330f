//! Encoders: they append the spelling of a header, of a frame or of a part of one.
ghost use Rattle.std.specs.Prelude.{◌≡◌, ◌≤◌, ◌<◌, ℕ, List, ◌++◌, length, take, drop};
ghost use Rattle.std.specs.Prelude.{OnOk, OnErr, IfOk};
ghost use Rattle.std.specs.List.{flat_map, All};
ghost use Rattle.det_values.specs.declared.format.Format.{Format as AnyFormat};
ghost use Rattle.record_grammar.specs.Spelling.{spelled_header, IsHeader, spelled_frame, CanSpell};
ghost use Rattle.record_grammar.specs.Spelling.{IsFrame, spelled_element};
ghost use Rattle.det_values.specs.Spelling.{spelled_all};
ghost use Rattle.det_values.specs.declared.format.Format.TheVariants.{Two};
ghost use Rattle.det_values.specs.declared.frames.DrawnElement.{DrawnElement};
ghost use Rattle.record_codec.specs.FinishedRun.{finished_run};

use crate::put_frame::{put_frame, put_init_head, put_output, put_run, put_run_head};
use crate::put_header::put_header;
use det_values::{CycleInput, Format, Frame, Profile, RunFrame};
use std::alloc::AllocError;

/// Appends the spelling of a header, in the profile's own format. On `AllocError`, `out` is as
/// before.
pub fn encode_header(profile: &Profile, out: &mut Vec<u8>) -> Result<(), AllocError>
    ensures ok { OnOk result (out.new.items ≡ out.old.items ++ spelled_header profile.now) }
    ensures fields { OnOk result (IsHeader profile.now) }
    ensures err { OnErr result (out.new.items ≡ out.old.items) }
{
    let len = out.len();
    match put_header(out, profile) {
        Ok(()) => Ok(()),
        Err(refused) => {
            out.truncate(len);
            Err(refused)
        }
    }
}

/// Appends the spelling of a frame of a run with this number of events. On `AllocError`, `out` is
/// as before.
pub fn encode_frame(
    format: Format,
    events: u16,
    frame: &Frame,
    out: &mut Vec<u8>,
) -> Result<(), AllocError>
    requires { CanSpell format events frame.now }
    ensures ok { OnOk result (out.new.items ≡ out.old.items ++ spelled_frame format frame.now) }
    ensures fields { OnOk result (IsFrame format events frame.now) }
    ensures err { OnErr result (out.new.items ≡ out.old.items) }
{
    let len = out.len();
    match put_frame(out, format, events, frame) {
        Ok(()) => Ok(()),
        Err(refused) => {
            out.truncate(len);
            Err(refused)
        }
    }
}

/// Appends the spelling of the frame of a run, as `encode_frame` does. On `AllocError`, `out` is as
/// before.
pub fn encode_run(
    format: Format,
    events: u16,
    run: &RunFrame,
    out: &mut Vec<u8>,
) -> Result<(), AllocError>
    requires { CanSpell format events (Frame.Run run.now) }
    ensures ok { OnOk result (out.new.items
        ≡ out.old.items ++ spelled_frame format (Frame.Run run.now)) }
    ensures fields { OnOk result (IsFrame format events (Frame.Run run.now)) }
    ensures err { OnErr result (out.new.items ≡ out.old.items) }
{
    let len = out.len();
    match put_run(out, format, events, run) {
        Ok(()) => Ok(()),
        Err(refused) => {
            out.truncate(len);
            Err(refused)
        }
    }
}

/// Appends what comes before the elements of an Init frame with `count` elements. On `AllocError`,
/// `out` may have a part of it.
#[tactic(auto, unfolding(record_grammar::specs::Spelling::spelled_frame))]
pub fn encode_init_head(count: u32, out: &mut Vec<u8>) -> Result<(), AllocError>
    ensures { OnOk result ((format : AnyFormat) (elements : List (List ℕ))
        → length elements ≡ count → out.new.items ++ flat_map spelled_element elements
        ≡ out.old.items ++ spelled_frame format (Frame.Init elements)) }
{
    put_init_head(out, count)?;
    Ok(())
}

/// Appends what comes before and after the elements of a finished Run frame in format 2 with
/// `count` elements. Returns the offset in `out` at which the elements belong. On `AllocError`,
/// `out` may have a part of it.
pub fn encode_run_ends(
    events: u16,
    input: &CycleInput,
    count: u32,
    output: &[u8],
    out: &mut Vec<u8>,
) -> Result<usize, AllocError>
    requires known { All (λ s. s.event < events) input.now.samples }
    requires short { length output.now ≤ 1048576 }
    ensures within { IfOk result (λ at. at ≤ length out.new.items) }
    ensures around { IfOk result (λ at. (elements : List DrawnElement)
        → length elements ≡ count → take at out.new.items
        ++ (spelled_all elements ++ drop at out.new.items)
        ≡ out.old.items ++ spelled_frame Two (finished_run input.now elements output.now)) }
{
    put_run_head(out, events, input, count)?;
    let at = out.len();
    put_output(out, output)?;
    Ok(at)
}
