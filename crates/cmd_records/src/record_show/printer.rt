//! `Printer`, which prints items one after another and shows them to an audience.
ghost use Rattle.std.specs.Prelude.{◌≡◌, ◌<◌, [], ℕ, List, OnOk};
ghost use Rattle.record_grammar.specs.declared.place.Place.{Place};
ghost use Rattle.record_grammar.specs.declared.item.Item.{Item};
ghost use Rattle.record_grammar.specs.Places.{format_of};
ghost use Rattle.record_view.specs.Shows.{ShowsParts, IsSpelling};
ghost use Rattle.det_io.specs.Traffic.{SinkTraffic, sink_run, failure_in};
ghost use Rattle.probes.specs.Reports.{AudienceState};
ghost use Rattle.probes.specs.Shows.{seen};
ghost use Rattle.record_reader.specs.InItems.{run_in};
ghost use Rattle.cmd_records.specs.record_show.PrintedItems.{Kept, Watched, is_printed};

use crate::record_show::presenter::Presenter;
use crate::record_show::show_form::{Notation, ShowForm};
use det_io::{Sink, Stopped, write_all};
use probes::{Audience, Probe};
use record_codec::decode_profile;
use record_grammar::RecordFault;
use record_json::{ElementLayout, put_json_frame, put_json_header};
use record_reader::{begins_runs, runs_of};
use record_text::{ShowPart, put_frame_lines, put_header_lines};
use record_view::{FrameKind, ItemKind, ItemView};
use std::alloc::{AllocError, Global};

/// Prints the items of one part of a record.
#[derive(Drop)]
pub struct Printer {
    alloc: Global,
    pub form: ShowForm,
    /// The numbers in the elements of the job in the header.
    layout: ElementLayout,
    /// The lines of the last item that was printed. The buffer is used again.
    lines: Vec<u8>,
    presenter: Presenter,
    /// Whether Init was read.
    pub has_begun: bool,
    /// The number of Run frames so far.
    pub cycles: u32,
}

/// Whether the lines of an item of this kind are printed. A Run frame is that of cycle `number`,
/// counted from 1.
fn prints_item(part: ShowPart, number: u32, kind: ItemKind) -> bool
    ensures { (place : Place) (len : ℕ) (bytes : List ℕ) (item : Item)
        → ShowsParts place kind len bytes item → result ≡ is_printed part number item }
{
    match part {
        ShowPart::All => true,
        ShowPart::Reports => false,
        ShowPart::Cycle(wanted) => match kind {
            ItemKind::Header(_) => false,
            ItemKind::Frame(frame) => match frame {
                FrameKind::Run { .. } => number == wanted,
                FrameKind::Register
                | FrameKind::Discover
                | FrameKind::Init { .. }
                | FrameKind::Terminate => false,
            },
        },
    }
}

impl Printer {
    ghost use Rattle.record_reader.specs.ItemTaker.{IsNext, Wrote, Takes};
    ghost use Rattle.cmd_records.specs.record_show.PrintedItems.{AreShown, IsFailed, Noted, showing};
    ghost use Rattle.cmd_records.specs.record_show.PrintedItems.{layout_by, lines_at, printed_of};

    /// A printer that has printed nothing. It allocates nothing.
    pub fn new(alloc: Global, form: ShowForm) -> Printer
        ensures new { (audience : AudienceState)
            → AreShown result.form audience audience result [] }
        ensures form { result.form ≡ form }
    {
        Printer {
            alloc,
            form,
            layout: ElementLayout::Unknown,
            lines: Vec::new(alloc),
            presenter: Presenter::new(alloc),
            has_begun: false,
            cycles: 0,
        }
    }

    /// Prints the lines of an item, if the part has them, and then shows it to the audience, if it
    /// is a Run frame.
    pub fn take<K: Sink>(
        &mut self,
        view: ItemView,
        bytes: &[u8],
        sink: &mut K,
        audience: &mut Audience,
    ) -> Result<(), Stopped<RecordFault>>
        requires few { self.old.cycles < 4294967295 }
        requires spelled { (item : Item) × IsSpelling view item bytes.now }
        ensures takes { (first : AudienceState) (given : List Item) (item : Item)
            → AreShown self.old.form first
            (seen (λ b. life (b.vtable, b.value)) audience.old) self.old given
            → IsNext given item view bytes.now
            → Takes result
            (showing self.old.form first
            (seen (λ b. life (b.vtable, b.value)) audience.new) self.new) given item []
            (sink_run K.took K.faults sink.old sink.new) }
        ensures traffic { SinkTraffic (sink_run K.took K.faults sink.old sink.new)
            (failure_in result) }
        ensures form { self.new.form ≡ self.old.form }
        ensures kept { Kept self.old.form.part (seen (λ b. life (b.vtable, b.value)) audience.old)
            (seen (λ b. life (b.vtable, b.value)) audience.new) }
    {
        self.count(view.span.kind);
        self.note_layout(view, bytes)?;
        self.print_item(view, bytes, sink)?;
        self.present_item(view, bytes, audience)?;
        Ok(())
    }

    /// Counts an item of this kind.
    fn count(&mut self, kind: ItemKind)
        requires { self.old.cycles < 4294967295 }
        ensures { Noted kind self.old self.new }
    {
        self.has_begun = begins_runs(kind) || self.has_begun;
        self.cycles += runs_of(kind);
    }

    /// Notes the layout of the elements in frames after a header.
    fn note_layout(&mut self, view: ItemView, bytes: &[u8]) -> Result<(), AllocError>
        requires { (item : Item) × IsSpelling view item bytes.now }
        ensures layout { OnOk result ((item : Item) → IsSpelling view item bytes.now
            → self.new.layout ≡ layout_by self.old.layout item) }
        ensures same { self.new ≡ record self.old { layout = self.new.layout } }
    {
        if view.as_frame().is_none() {
            self.layout = ElementLayout::of(&decode_profile(self.alloc, view, bytes)?);
        }
        Ok(())
    }

    /// Prints the lines of an item that is counted already, if the part has them.
    fn print_item<K: Sink>(
        &mut self,
        view: ItemView,
        bytes: &[u8],
        sink: &mut K,
    ) -> Result<(), Stopped<RecordFault>>
        requires { (item : Item) × IsSpelling view item bytes.now }
        ensures wrote { (item : Item) → IsSpelling view item bytes.now → Wrote result []
            (printed_of self.old.form (format_of view.place) self.old.layout self.old.cycles item)
            (sink_run K.took K.faults sink.old sink.new) }
        ensures fails { IsFailed result }
        ensures traffic { SinkTraffic (sink_run K.took K.faults sink.old sink.new)
            (failure_in result) }
        ensures same { self.new ≡ record self.old { lines = self.new.lines } }
    {
        if !prints_item(self.form.part, self.cycles, view.span.kind) {
            return Ok(());
        }
        self.put(view, bytes)?;
        write_all(sink, &self.lines)?;
        Ok(())
    }

    /// Replaces the buffer by the lines of an item.
    fn put(&mut self, view: ItemView, bytes: &[u8]) -> Result<(), AllocError>
        requires { (item : Item) × IsSpelling view item bytes.now }
        ensures lines { OnOk result ((item : Item) → IsSpelling view item bytes.now
            → self.new.lines.items ≡ lines_at self.old.form.notation (format_of view.place)
            self.old.layout self.old.cycles item) }
        ensures same { self.new ≡ record self.old { lines = self.new.lines } }
    {
        self.lines.clear();
        let lines = &mut self.lines;
        match (view.as_frame(), self.form.notation) {
            (Some(frame), Notation::Lines) => put_frame_lines(lines, self.cycles, frame, bytes),
            (Some(frame), Notation::Json) => {
                put_json_frame(lines, self.layout, self.cycles, frame, bytes)
            }
            (None, Notation::Lines) => {
                put_header_lines(lines, &decode_profile(self.alloc, view, bytes)?)
            }
            (None, Notation::Json) => {
                put_json_header(lines, &decode_profile(self.alloc, view, bytes)?)
            }
        }
    }

    /// Shows an item to the audience, unless only one run is printed.
    fn present_item(
        &mut self,
        view: ItemView,
        bytes: &[u8],
        audience: &mut Audience,
    ) -> Result<(), AllocError>
        requires { (item : Item) × IsSpelling view item bytes.now }
        ensures shown { (item : Item) → IsSpelling view item bytes.now
            → OnOk result (Watched self.old.form.part
            (seen (λ b. life (b.vtable, b.value)) audience.old)
            (seen (λ b. life (b.vtable, b.value)) audience.new) (run_in item)) }
        ensures kept { Kept self.old.form.part (seen (λ b. life (b.vtable, b.value)) audience.old)
            (seen (λ b. life (b.vtable, b.value)) audience.new) }
        ensures same { self.new ≡ record self.old { presenter = self.new.presenter } }
    {
        match self.form.part {
            ShowPart::All | ShowPart::Reports => self.presenter.show(view, bytes, audience),
            ShowPart::Cycle(_) => Ok(()),
        }
    }
}
