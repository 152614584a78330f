//! Salvages a record that breaks off.
ghost use Rattle.std.specs.Prelude.{◌≡◌, ℕ, ◌<◌, List, [], IfOk, IfSome, IsErrOf};
ghost use Rattle.det_io.specs.Traffic.{ShelfTraffic, SinkTraffic, shelf_run, sink_run};
ghost use Rattle.det_io.specs.Traffic.{failure_in};
ghost use Rattle.record_grammar.specs.declared.record_fault.RecordFault.{RecordFault};
ghost use Rattle.record_reader.specs.item_reader.StandsFor.{StandsFor, slot_of};
ghost use Rattle.record_reader.specs.ItemTaker.{ItemsRead};
ghost use Rattle.record_reader.specs.SalvageState.{Keeps, salvaging};
ghost use Rattle.record_reader.specs.Salvages.{Salvages, HasNothing, Begins, Ended, settled_by};

use crate::item_reader::ItemReader;
use crate::salvage::{Salvage, Salvaged};
use det_io::{Sink, Slots, Stopped};
use record_grammar::RecordFault;
use std::alloc::Global;

/// Writes the record of a reader, cut after its last whole frame and completed by Terminate. Each
/// item is written as it was read. Nothing is written of a record that breaks off before its Init,
/// and `Refused` has the fault of such a record. Besides the reader, this code keeps only what comes
/// before Init in memory, and it writes an item once it is whole (neither is a clause).
pub fn salvage_record<S: Slots, K: Sink>(
    alloc: Global,
    reader: &mut ItemReader,
    shelf: &mut S,
    sink: &mut K,
) -> Result<Salvaged, Stopped<RecordFault>>
    requires slot { slot_of reader.old < (S.sees shelf.old).slots }
    // The reader has returned nothing yet.
    requires new { StandsFor reader.old [] [] }
    ensures ok { IfSome ((S.sees shelf.old).left (slot_of reader.old)) (λ record_bytes.
        IfOk result (λ counts. Salvages record_bytes counts
        (sink_run K.took K.faults sink.old sink.new))) }
    ensures nothing { IfSome ((S.sees shelf.old).left (slot_of reader.old)) (λ record_bytes.
        (fault : RecordFault) → IsErrOf result (Stopped.Refused fault)
        → HasNothing record_bytes fault (sink_run K.took K.faults sink.old sink.new)) }
    ensures part { IfSome ((S.sees shelf.old).left (slot_of reader.old)) (λ record_bytes.
        Begins record_bytes (sink_run K.took K.faults sink.old sink.new)) }
    // The same by the bytes that were read, even if the shelf doesn't say what the slot has left.
    // After a failed read, all that was read is written.
    ensures run { (read : List ℕ)
        × Ended result read (shelf_run S.sees S.stays shelf.old shelf.new) (slot_of reader.old)
        (sink_run K.took K.faults sink.old sink.new) }
    ensures shelf_traffic { ShelfTraffic (shelf_run S.sees S.stays shelf.old shelf.new)
        (failure_in result) }
    ensures sink_traffic { SinkTraffic (sink_run K.took K.faults sink.old sink.new)
        (failure_in result) }
{
    let mut salvage = Salvage::new(alloc);
    let read = salvage_items(reader, shelf, &mut salvage, sink);
    settle_fault(read, salvage.has_begun)?;
    salvage.finish(sink)
}

/// Passes all items to a salvage.
fn salvage_items<S: Slots, K: Sink>(
    reader: &mut ItemReader,
    shelf: &mut S,
    salvage: &mut Salvage,
    sink: &mut K,
) -> Result<(), Stopped<RecordFault>>
    requires slot { slot_of reader.old < (S.sees shelf.old).slots }
    requires new { StandsFor reader.old [] [] }
    requires fresh { Keeps salvage.old [] }
    ensures items { ItemsRead result (salvaging salvage.new)
        (shelf_run S.sees S.stays shelf.old shelf.new) (slot_of reader.old)
        (sink_run K.took K.faults sink.old sink.new) }
    ensures shelf_traffic { ShelfTraffic (shelf_run S.sees S.stays shelf.old shelf.new)
        (failure_in result) }
    ensures sink_traffic { SinkTraffic (sink_run K.took K.faults sink.old sink.new)
        (failure_in result) }
{
    'items: loop {
        let Some(view) = reader.next(shelf)? else {
            return Ok(());
        };
        salvage.take(view, reader.bytes(view), sink)?;
    }
}

/// Drops a fault that comes after Init: it doesn't stop a salvage.
pub fn settle_fault(
    read: Result<(), Stopped<RecordFault>>,
    has_begun: bool,
) -> Result<(), Stopped<RecordFault>>
    ensures { result ≡ settled_by has_begun read }
{
    match read {
        Err(Stopped::Refused(_)) if has_begun => Ok(()),
        read => read,
    }
}
