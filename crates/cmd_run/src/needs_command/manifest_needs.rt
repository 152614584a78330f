//! The command `needs`: reads the manifest and prints its lines.
ghost use Rattle.std.specs.Prelude.{◌≡◌, ◌∷◌, [], true, IsSome};
ghost use Rattle.det_io.specs.Count.{Rose};
ghost use Rattle.det_io.specs.Shelf.{Asks};
ghost use Rattle.det_io.specs.Traffic.{sink_run};
ghost use Rattle.cli_answers.specs.Ends.{can_end};
ghost use Rattle.cli_answers.specs.Outcome.{Meets, known_bytes};
ghost use Rattle.cli_answers.specs.Slots.{KeepsSlots};
ghost use Rattle.cmd_run.specs.needs_command.Needs.{needs_outcome, needs_work};

use crate::needs_command::lines::needs_lines;
use cli_answers::Answer;
use det_io::{Shelf, Sink, write_all};
use run_setup::read_setup;
use std::alloc::Global;

/// Prints the lines of the manifest under this name: its job, its cycle time in nanoseconds, its
/// workers, its platform, and what an initialisation and a run need. If `strict` is set, a key that
/// no table of a manifest knows is a fault.
pub fn needs<S: Shelf, K: Sink>(
    alloc: Global,
    name: &str,
    strict: bool,
    shelf: &mut S,
    out: &mut K,
) -> Answer
    ensures meets { Meets (needs_outcome strict (known_bytes (S.sees shelf.old) name.now))
        (IsSome ((S.sees shelf.old).holds name.now))
        (Rose (S.sees shelf.old).faults (S.sees shelf.new).faults)
        (sink_run K.took K.faults out.old out.new) result }
    ensures ends { can_end needs_work result ≡ true }
    ensures asked { Asks (S.sees shelf.old) (S.sees shelf.new) (name.now ∷ []) }
    ensures earlier { KeepsSlots (S.sees shelf.old) (S.sees shelf.new) }
{
    let manifest = match read_setup(alloc, name, strict, shelf) {
        Ok(manifest) => manifest,
        Err(end) => return Answer::from(end),
    };
    let lines = needs_lines(&manifest);
    match write_all(out, lines.as_slice()) {
        Ok(()) => Answer::Done,
        Err(_) => Answer::WriteFault,
    }
}
