//! `report_salvage`, which shows a truncated record to an audience as it is read.
ghost use Rattle.std.specs.Prelude.{◌≡◌, ℕ, ◌<◌, List, [], ◌++◌, IfOk, codes};
ghost use Rattle.det_io.specs.Traffic.{ShelfTraffic, SinkTraffic, shelf_run, sink_run};
ghost use Rattle.det_io.specs.Traffic.{failure_in};
ghost use Rattle.probes.specs.Shows.{seen};
ghost use Rattle.record_text.specs.Words.{number_line};
ghost use Rattle.record_reader.specs.item_reader.StandsFor.{StandsFor, slot_of};
ghost use Rattle.record_reader.specs.ItemTaker.{Wrote};
ghost use Rattle.cmd_records.specs.record_show.PrintedItems.{IsFailed};
ghost use Rattle.cmd_records.specs.salvage_command.ReportEnds.{Ended};

use crate::record_show::{Notation, Printer, ShowForm, show_items};
use det_io::{Discard, Sink, Slots, Stopped, write_all};
use probes::{Audience, Probe};
use record_grammar::RecordFault;
use record_reader::item_reader::ItemReader;
use record_reader::settle_fault;
use record_text::{ShowPart, put_salvaged_line};
use std::alloc::{AllocError, Global};

/// No items are printed, so the notation doesn't matter.
const REPORTS: ShowForm = ShowForm {
    part: ShowPart::Reports,
    notation: Notation::Lines,
};

/// Shows the runs of a record to the audience, and then prints how many there are and what is
/// reported of them.
///
/// `Refused` has the fault of a record without Init before it. Nothing is printed then.
pub(crate) fn report_salvage<S: Slots, K: Sink>(
    alloc: Global,
    reader: &mut ItemReader,
    shelf: &mut S,
    sink: &mut K,
    audience: &mut Audience,
) -> Result<(), Stopped<RecordFault>>
    requires slot { slot_of reader.old < (S.sees shelf.old).slots }
    // The reader is new.
    requires new { StandsFor reader.old [] [] }
    // For the bytes that were read, and every record that begins with them.
    ensures run { (read : List ℕ)
        × Ended result (seen (λ b. life (b.vtable, b.value)) audience.old)
        (seen (λ b. life (b.vtable, b.value)) audience.new)
        read (shelf_run S.sees S.stays shelf.old shelf.new) (slot_of reader.old)
        (sink_run K.took K.faults sink.old sink.new) }
    ensures shelf_traffic { ShelfTraffic (shelf_run S.sees S.stays shelf.old shelf.new)
        (failure_in result) }
    ensures sink_traffic { SinkTraffic (sink_run K.took K.faults sink.old sink.new)
        (failure_in result) }
{
    let mut printer = Printer::new(alloc, REPORTS);
    let read = show_items(reader, shelf, &mut printer, &mut Discard, audience);
    settle_fault(read, printer.has_begun)?;
    audience.finish(alloc)?;
    print_reports(alloc, printer.cycles, audience.reports(), sink)
}

/// Prints the line with the number of salvaged runs, then the reports.
fn print_reports<K: Sink>(
    alloc: Global,
    cycles: u32,
    reports: &[u8],
    sink: &mut K,
) -> Result<(), Stopped<RecordFault>>
    ensures wrote { Wrote result [] (number_line (codes "salvaged") cycles ++ reports.now)
        (sink_run K.took K.faults sink.old sink.new) }
    ensures fails { IsFailed result }
    ensures traffic { SinkTraffic (sink_run K.took K.faults sink.old sink.new)
        (failure_in result) }
{
    let lines = report_lines(alloc, cycles, reports)?;
    write_all(sink, &lines)?;
    Ok(())
}

/// The line with the number of salvaged runs, then the reports.
fn report_lines(alloc: Global, cycles: u32, reports: &[u8]) -> Result<Vec<u8>, AllocError>
    ensures { IfOk result (λ lines.
        lines.items ≡ number_line (codes "salvaged") cycles ++ reports.now) }
{
    let mut lines = Vec::new(alloc);
    put_salvaged_line(&mut lines, cycles)?;
    lines.extend_from_slice(reports)?;
    Ok(lines)
}
