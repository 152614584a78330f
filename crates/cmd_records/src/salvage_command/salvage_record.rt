//! The commands `salvage` and `salvage --reports` over names.
ghost use Rattle.std.specs.Prelude.{◌≡◌, ◌≢◌, ◌∷◌, [], true};
ghost use Rattle.det_io.specs.Shelf.{AsksPrefix};
ghost use Rattle.det_io.specs.Sink.{Grew};
ghost use Rattle.det_io.specs.Traffic.{sink_run};
ghost use Rattle.probes.specs.Shows.{seen};
ghost use Rattle.cli_answers.specs.BreaksOff.{BreaksOff};
ghost use Rattle.cli_answers.specs.Ends.{can_end, reads_records};
ghost use Rattle.cli_answers.specs.Outcome.{KnowsBytes, known_bytes};
ghost use Rattle.cli_answers.specs.Slots.{KeepsSlots};
ghost use Rattle.record_reader.specs.Salvaged.{saved_of};
ghost use Rattle.cmd_records.specs.command_ends.Meeting.{MeetsRecord};
ghost use Rattle.cmd_records.specs.salvage_command.Salvage.{salvage_outcome};
ghost use Rattle.cmd_records.specs.salvage_command.Salvage.{salvage_reports_outcome};
ghost use Rattle.cmd_records.specs.salvage_command.ReportEnds.{SawFirst};

use crate::command_ends::record_answer;
use crate::open_names::open_record;
use crate::salvage_command::report_salvage::report_salvage;
use cli_answers::Answer;
use det_io::{Shelf, Sink};
use probes::{Audience, Probe};
use record_reader::item_reader::ItemReader;
use record_reader::salvage_record;
use std::alloc::Global;

/// Writes the record under this name, made whole up to its last whole frame. A record without Init
/// before its fault is refused, and nothing is written.
pub fn salvage<S: Shelf, K: Sink>(
    alloc: Global,
    recorded: &str,
    shelf: &mut S,
    out: &mut K,
) -> Answer
    ensures meets { MeetsRecord salvage_outcome (S.sees shelf.old) (S.sees shelf.new) recorded.now
        (sink_run K.took K.faults out.old out.new) result }
    ensures ends { can_end reads_records result ≡ true }
    ensures asked { AsksPrefix (S.sees shelf.old) (S.sees shelf.new) (recorded.now ∷ []) }
    ensures earlier { KeepsSlots (S.sees shelf.old) (S.sees shelf.new) }
    // If a read fails, all that is saved of what was read is written.
    ensures broken { result ≡ Answer.ReadFault → KnowsBytes (S.sees shelf.old) (recorded.now ∷ [])
        → BreaksOff (S.sees shelf.old) (S.sees shelf.new) recorded.now saved_of
        (sink_run K.took K.faults out.old out.new) }
{
    let slot = match open_record(recorded, shelf) {
        Ok(slot) => slot,
        Err(failure) => return Answer::from(failure),
    };
    let mut reader = ItemReader::new(alloc, slot);
    let saved = salvage_record(alloc, &mut reader, shelf, out);
    record_answer(saved)
}

/// Prints `salvaged C` and what the audience reports of the C runs that can be saved of the record
/// under this name. All probes have left then. A record without Init before its fault is refused,
/// and nothing is printed.
pub fn salvage_reports<S: Shelf, K: Sink>(
    alloc: Global,
    recorded: &str,
    shelf: &mut S,
    out: &mut K,
    audience: &mut Audience,
) -> Answer
    ensures meets { MeetsRecord
        (salvage_reports_outcome (seen (λ b. life (b.vtable, b.value)) audience.old))
        (S.sees shelf.old) (S.sees shelf.new) recorded.now
        (sink_run K.took K.faults out.old out.new) result }
    ensures ends { can_end reads_records result ≡ true }
    ensures asked { AsksPrefix (S.sees shelf.old) (S.sees shelf.new) (recorded.now ∷ []) }
    ensures earlier { KeepsSlots (S.sees shelf.old) (S.sees shelf.new) }
    // Whatever the answer, except "out of memory", the audience has seen first runs of the record.
    ensures saw { result ≢ Answer.OutOfMemory → KnowsBytes (S.sees shelf.old) (recorded.now ∷ [])
        → SawFirst (seen (λ b. life (b.vtable, b.value)) audience.old)
        (seen (λ b. life (b.vtable, b.value)) audience.new)
        (known_bytes (S.sees shelf.old) recorded.now) }
    ensures gone { result ≡ Answer.Done
        → (seen (λ b. life (b.vtable, b.value)) audience.new).seeing ≡ [] }
    // Nothing is printed before the end, so if a read fails nothing is printed.
    ensures broken { result ≡ Answer.ReadFault → Grew (K.took out.old) (K.took out.new) [] }
{
    let slot = match open_record(recorded, shelf) {
        Ok(slot) => slot,
        Err(failure) => return Answer::from(failure),
    };
    let mut reader = ItemReader::new(alloc, slot);
    let reported = report_salvage(alloc, &mut reader, shelf, out, audience);
    record_answer(reported)
}
