//! `show_run`, which prints a record and shows it to an audience as it is read.
ghost use Rattle.std.specs.Prelude.{◌≡◌, ℕ, ◌<◌, List, []};
ghost use Rattle.det_io.specs.Traffic.{ShelfTraffic, SinkTraffic, shelf_run, sink_run};
ghost use Rattle.det_io.specs.Traffic.{failure_in};
ghost use Rattle.probes.specs.Reports.{AudienceState};
ghost use Rattle.probes.specs.Shows.{seen};
ghost use Rattle.record_reader.specs.item_reader.StandsFor.{StandsFor, slot_of};
ghost use Rattle.record_reader.specs.ItemTaker.{ItemsRead, Wrote};
ghost use Rattle.cmd_records.specs.record_show.PrintedItems.{AreShown, IsFailed, Kept, showing};
ghost use Rattle.cmd_records.specs.record_show.Text.{reports_text};
ghost use Rattle.cmd_records.specs.record_show.ShowEnds.{Ended};

use crate::record_show::printer::Printer;
use crate::record_show::show_form::{Notation, ShowForm};
use crate::record_show::shown::Shown;
use det_io::{Sink, Slots, Stopped, write_all};
use probes::{Audience, Probe};
use record_grammar::RecordFault;
use record_json::put_json_reports;
use record_reader::item_reader::ItemReader;
use record_text::ShowPart;
use std::alloc::Global;

/// Prints a part of the record that a reader reads, item by item.
///
/// Each Run frame is printed and then shown to the audience. After a whole record all reports are
/// printed. If only one run is printed, the audience takes no part and stays as it is. The whole
/// record is read, whatever the part.
///
/// `Refused` has the record's fault. The lines of all whole items before it are written then, and
/// no reports. After a failed read, the lines of all items that were read are written.
pub fn show_run<S: Slots, K: Sink>(
    alloc: Global,
    form: ShowForm,
    reader: &mut ItemReader,
    shelf: &mut S,
    sink: &mut K,
    audience: &mut Audience,
) -> Result<Shown, Stopped<RecordFault>>
    requires slot { slot_of reader.old < (S.sees shelf.old).slots }
    // The reader is new.
    requires new { StandsFor reader.old [] [] }
    // For the bytes that were read, and every record that begins with them.
    ensures run { (read : List ℕ)
        × Ended result form (seen (λ b. life (b.vtable, b.value)) audience.old)
        (seen (λ b. life (b.vtable, b.value)) audience.new)
        read (shelf_run S.sees S.stays shelf.old shelf.new) (slot_of reader.old)
        (sink_run K.took K.faults sink.old sink.new) }
    ensures shelf_traffic { ShelfTraffic (shelf_run S.sees S.stays shelf.old shelf.new)
        (failure_in result) }
    ensures sink_traffic { SinkTraffic (sink_run K.took K.faults sink.old sink.new)
        (failure_in result) }
{
    let mut printer = Printer::new(alloc, form);
    show_items(reader, shelf, &mut printer, sink, audience)?;
    let shown = Shown {
        cycles: printer.cycles,
    };
    if let ShowPart::Cycle(_) = form.part {
        return Ok(shown);
    }
    audience.finish(alloc)?;
    write_reports(alloc, form.notation, audience.reports(), sink)?;
    Ok(shown)
}

/// Writes reports in a notation.
fn write_reports<K: Sink>(
    alloc: Global,
    notation: Notation,
    reports: &[u8],
    sink: &mut K,
) -> Result<(), Stopped<RecordFault>>
    ensures wrote { Wrote result [] (reports_text notation reports.now)
        (sink_run K.took K.faults sink.old sink.new) }
    ensures fails { IsFailed result }
    ensures traffic { SinkTraffic (sink_run K.took K.faults sink.old sink.new)
        (failure_in result) }
{
    match notation {
        Notation::Lines => write_all(sink, reports)?,
        Notation::Json => {
            let mut line = Vec::new(alloc);
            put_json_reports(&mut line, reports)?;
            write_all(sink, &line)?;
        }
    }
    Ok(())
}

/// Passes all items to a printer and an audience.
pub(crate) fn show_items<S: Slots, K: Sink>(
    reader: &mut ItemReader,
    shelf: &mut S,
    printer: &mut Printer,
    sink: &mut K,
    audience: &mut Audience,
) -> Result<(), Stopped<RecordFault>>
    requires slot { slot_of reader.old < (S.sees shelf.old).slots }
    requires new { StandsFor reader.old [] [] }
    requires fresh { (first : AudienceState)
        → AreShown printer.old.form first first printer.old [] }
    ensures items { ItemsRead result
        (showing printer.old.form (seen (λ b. life (b.vtable, b.value)) audience.old)
        (seen (λ b. life (b.vtable, b.value)) audience.new) printer.new)
        (shelf_run S.sees S.stays shelf.old shelf.new) (slot_of reader.old)
        (sink_run K.took K.faults sink.old sink.new) }
    ensures form { printer.new.form ≡ printer.old.form }
    ensures kept { Kept printer.old.form.part (seen (λ b. life (b.vtable, b.value)) audience.old)
        (seen (λ b. life (b.vtable, b.value)) audience.new) }
    ensures shelf_traffic { ShelfTraffic (shelf_run S.sees S.stays shelf.old shelf.new)
        (failure_in result) }
    ensures sink_traffic { SinkTraffic (sink_run K.took K.faults sink.old sink.new)
        (failure_in result) }
{
    'items: loop {
        let Some(view) = reader.next(shelf)? else {
            return Ok(());
        };
        printer.take(view, reader.bytes(view), sink, audience)?;
    }
}
