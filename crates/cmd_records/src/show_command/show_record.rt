//! The command `show` over names, around `show_run` over slots.
ghost use Rattle.std.specs.Prelude.{◌≡◌, ◌≢◌, ◌∷◌, [], true};
ghost use Rattle.det_io.specs.Shelf.{AsksPrefix};
ghost use Rattle.det_io.specs.Traffic.{sink_run};
ghost use Rattle.record_grammar.specs.Record.{items as items_in};
ghost use Rattle.cli_answers.specs.BreaksOff.{BreaksOff};
ghost use Rattle.cli_answers.specs.Ends.{can_end, reads_records};
ghost use Rattle.cli_answers.specs.Outcome.{KnowsBytes, known_bytes};
ghost use Rattle.cli_answers.specs.Slots.{KeepsSlots};
ghost use Rattle.probes.specs.Shows.{seen};
ghost use Rattle.cmd_records.specs.command_ends.Meeting.{MeetsRecord};
ghost use Rattle.cmd_records.specs.record_show.Text.{lines_of};
ghost use Rattle.cmd_records.specs.record_show.PrintedItems.{Kept};
ghost use Rattle.cmd_records.specs.record_show.ShowEnds.{IsGone, SawFirst};
ghost use Rattle.cmd_records.specs.show_command.Show.{show_outcome};

use crate::command_ends::record_answer;
use crate::open_names::open_record;
use crate::record_show::{ShowForm, show_run};
use cli_answers::Answer;
use det_io::{Shelf, Sink};
use probes::{Audience, Probe};
use record_reader::item_reader::ItemReader;
use std::alloc::Global;

/// Prints a part of the record under this name, item by item, and shows its runs to the audience.
///
/// After a whole record the audience's reports are printed, and all probes have left then. If only
/// one run is printed, the audience takes no part and stays as it is.
pub fn show<S: Shelf, K: Sink>(
    alloc: Global,
    recorded: &str,
    form: ShowForm,
    shelf: &mut S,
    out: &mut K,
    audience: &mut Audience,
) -> Answer
    ensures meets { MeetsRecord
        (show_outcome form (seen (λ b. life (b.vtable, b.value)) audience.old))
        (S.sees shelf.old) (S.sees shelf.new) recorded.now
        (sink_run K.took K.faults out.old out.new) result }
    // If a read fails, the lines of all items that were read are written.
    ensures broken { result ≡ Answer.ReadFault → KnowsBytes (S.sees shelf.old) (recorded.now ∷ [])
        → BreaksOff (S.sees shelf.old) (S.sees shelf.new) recorded.now
        (λ read. lines_of form (items_in read)) (sink_run K.took K.faults out.old out.new) }
    ensures ends { can_end reads_records result ≡ true }
    ensures asked { AsksPrefix (S.sees shelf.old) (S.sees shelf.new) (recorded.now ∷ []) }
    ensures earlier { KeepsSlots (S.sees shelf.old) (S.sees shelf.new) }
    // Whatever the answer, except "out of memory", the audience has seen first runs whose lines
    // `out` took.
    ensures saw { result ≢ Answer.OutOfMemory → KnowsBytes (S.sees shelf.old) (recorded.now ∷ [])
        → SawFirst form (seen (λ b. life (b.vtable, b.value)) audience.old)
        (seen (λ b. life (b.vtable, b.value)) audience.new)
        (known_bytes (S.sees shelf.old) recorded.now)
        (sink_run K.took K.faults out.old out.new) }
    ensures gone { result ≡ Answer.Done
        → IsGone form.part (seen (λ b. life (b.vtable, b.value)) audience.new) }
    ensures kept { Kept form.part (seen (λ b. life (b.vtable, b.value)) audience.old)
        (seen (λ b. life (b.vtable, b.value)) audience.new) }
{
    let slot = match open_record(recorded, shelf) {
        Ok(slot) => slot,
        Err(failure) => return Answer::from(failure),
    };
    let mut reader = ItemReader::new(alloc, slot);
    let shown = show_run(alloc, form, &mut reader, shelf, out, audience);
    record_answer(shown)
}
