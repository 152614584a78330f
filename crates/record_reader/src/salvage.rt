//! The state of a salvage: the items that were taken, on their way to a sink.
ghost use Rattle.std.specs.Prelude.{◌≡◌, ◌<◌, ◌≤◌, ◌++◌};
ghost use Rattle.record_grammar.specs.Spelling.{AreBytes};
ghost use Rattle.record_reader.specs.Kinds.{kept_bytes};

use crate::kind_counts::{begins_runs, kind_refusals, runs_of};
use det_io::{Sink, Stopped, write_all};
use det_values::{Format, Frame};
use record_codec::encode_frame;
use record_grammar::RecordFault;
use record_view::{FrameKind, ItemKind, ItemView, events_at};
use std::alloc::Global;

/// The number of cycles of a salvaged record, and how many of them were refused.
#[derive(Clone, Copy, Debug, PartialEq, Eq, Drop)]
pub struct Salvaged {
    pub cycles: u32,
    pub refused: u32,
}

/// What a salvage keeps of the items that it took.
#[derive(Drop)]
pub struct Salvage {
    /// The bytes before Init. They are written together with it.
    pub out: Vec<u8>,
    /// Whether Init was taken.
    pub has_begun: bool,
    pub cycles: u32,
    pub refused: u32,
}

impl Salvage {
    ghost use Rattle.std.specs.Prelude.{List, [], ◌∷◌};
    ghost use Rattle.det_io.specs.Traffic.{SinkTraffic, sink_run, failure_in};
    ghost use Rattle.record_grammar.specs.declared.item.Item.{Item};
    ghost use Rattle.record_reader.specs.ItemTaker.{IsNext, Takes};
    ghost use Rattle.record_reader.specs.SalvageState.{Keeps, salvaging, Counted, Puts, FinishIs};

    /// A salvage that has taken no item. It takes no memory.
    pub fn new(alloc: Global) -> Salvage
        ensures { Keeps result [] }
    {
        Salvage {
            out: Vec::new(alloc),
            has_begun: false,
            cycles: 0,
            refused: 0,
        }
    }

    /// Takes an item by its bytes. Before Init they are kept, and from Init on they are written.
    /// Terminate is left out here, since `finish` writes it.
    pub fn take<K: Sink>(
        &mut self,
        view: ItemView,
        bytes: &[u8],
        sink: &mut K,
    ) -> Result<(), Stopped<RecordFault>>
        requires { (given : List Item) × (item : Item) × Keeps self.old given
            × IsNext given item view bytes.now }
        ensures takes { (given : List Item) (item : Item) → Keeps self.old given
            → IsNext given item view bytes.now → Takes result (salvaging self.new) given item []
            (sink_run K.took K.faults sink.old sink.new) }
        ensures traffic { SinkTraffic (sink_run K.took K.faults sink.old sink.new)
            (failure_in result) }
    {
        let _events = events_at(view.place);
        let kind = view.span.kind;
        self.count(kind);
        self.put(kept_bytes(kind, bytes), sink)
    }

    /// Writes Terminate after all that is kept.
    pub fn finish<K: Sink>(&mut self, sink: &mut K) -> Result<Salvaged, Stopped<RecordFault>>
        ensures finish { FinishIs result self.old (sink_run K.took K.faults sink.old sink.new) }
        ensures traffic { SinkTraffic (sink_run K.took K.faults sink.old sink.new)
            (failure_in result) }
    {
        // Terminate has the same spelling in both formats.
        encode_frame(Format::One, 0, &Frame::Terminate, &mut self.out)?;
        write_all(sink, &self.out)?;
        Ok(Salvaged {
            cycles: self.cycles,
            refused: self.refused,
        })
    }

    fn count(&mut self, kind: ItemKind)
        requires few { self.old.cycles < 4294967295 }
        requires refused { self.old.refused ≤ self.old.cycles }
        ensures { Counted kind self.old self.new }
    {
        self.has_begun = begins_runs(kind) || self.has_begun;
        self.cycles += runs_of(kind);
        self.refused += kind_refusals(kind);
    }

    /// Keeps bytes before Init. From Init on, writes them after those that were kept.
    fn put<K: Sink>(&mut self, bytes: &[u8], sink: &mut K) -> Result<(), Stopped<RecordFault>>
        ensures puts { Puts result self.old.has_begun (self.old.out.items ++ bytes.now)
            self.new.out.items (sink_run K.took K.faults sink.old sink.new) }
        ensures same { self.new ≡ record self.old { out = self.new.out } }
        ensures traffic { SinkTraffic (sink_run K.took K.faults sink.old sink.new)
            (failure_in result) }
    {
        if !self.has_begun {
            self.out.extend_from_slice(bytes)?;
            return Ok(());
        }
        write_all(sink, &self.out)?;
        self.out.clear();
        write_all(sink, bytes)?;
        Ok(())
    }
}

/// The bytes of an item of this kind, but none for Terminate. The clause `bytes` says that the
/// elements are bytes, which the caller's proof needs.
fn kept_bytes(kind: ItemKind, bytes: &[u8]) -> &[u8]
    ensures value { result.now ≡ kept_bytes kind bytes.now }
    ensures bytes { AreBytes bytes.now }
{
    match kind {
        ItemKind::Header(_) => bytes,
        ItemKind::Frame(frame) => match frame {
            FrameKind::Register
            | FrameKind::Discover
            | FrameKind::Init { .. }
            | FrameKind::Run { .. } => bytes,
            FrameKind::Terminate => &[],
        },
    }
}
