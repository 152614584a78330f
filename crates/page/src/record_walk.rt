//! Reads the items of a record whose bytes are all there, one after another, without a copy.
//! `record_reader` reads records that come in pieces.
ghost use Rattle.std.specs.Prelude.{◌≡◌, ◌<◌, [], ◌∷◌, IfSome, IfNone, length};
ghost use Rattle.det_values.specs.declared.frames.RunFrame.{RunFrame};
ghost use Rattle.record_grammar.specs.declared.item.Item.{Item};
ghost use Rattle.record_grammar.specs.Record.{decoded_all, fault_from};
ghost use Rattle.record_reader.specs.InItems.{run_in};
ghost use Rattle.record_view.specs.declared.partial.Partial.TheVariants as partials;
ghost use Rattle.record_view.specs.Shows.{Shows};
ghost use Rattle.page.specs.Walks.{left, runs_left, IsItemNext, IsRunOf, IsRunItem, IsOutcomeOf};

use crate::lent_bytes::bytes_after;
use det_values::RefusedAt;
use record_grammar::{Place, Reason, RecordFault};
use record_view::{
    ElementWalk, FrameKind, InputView, ItemKind, ItemView, OutcomeView, Partial, Scan, Step, Stop,
    format_at, place_after, view_elements, view_item, view_output, view_refusal,
};

/// An item, and bytes that begin with it.
#[derive(Clone, Copy, Drop)]
pub(crate) struct LentItem<'a> {
    view: ItemView,
    bytes: &'a [u8],
}

/// A Run frame, and bytes that begin with it.
#[derive(Clone, Copy, Drop)]
pub(crate) struct LentRun<'a> {
    pub(crate) place: Place,
    pub(crate) input: InputView,
    outcome: OutcomeView,
    len: usize,
    pub(crate) bytes: &'a [u8],
}

/// How a cycle ended.
#[derive(Drop)]
pub(crate) enum LentOutcome<'a> {
    Finished {
        count: u32,
        elements: ElementWalk<'a>,
        output: &'a [u8],
    },
    Refused(RefusedAt),
}

/// How far a record was read: the place of the next item, and the bytes from it on.
#[derive(Drop)]
pub(crate) struct RecordWalk<'a> {
    place: Place,
    rest: &'a [u8],
}

fn no_scan() -> Scan
    ensures { result ≡ record { partial = partials.Nothing; read = 0 } }
{
    Scan {
        partial: Partial::Nothing,
        read: 0,
    }
}

impl<'a> LentItem<'a> {
    /// The item as a Run frame. None if it isn't one.
    fn as_run(self) -> Option<LentRun<'a>>
        ensures some { (item : Item) → Shows self.entry.view.place self.entry.view.span
            self.entry.bytes.now item
            → IfSome result (λ run. IsRunItem run item) }
        ensures none { (item : Item) → Shows self.entry.view.place self.entry.view.span
            self.entry.bytes.now item
            → IfNone result (run_in item ≡ []) }
    {
        match self.view.span.kind {
            ItemKind::Header(_) => None,
            ItemKind::Frame(kind) => match kind {
                FrameKind::Run { input, outcome } => Some(LentRun {
                    place: self.view.place,
                    input,
                    outcome,
                    len: self.view.span.len,
                    bytes: self.bytes,
                }),
                FrameKind::Register
                | FrameKind::Discover
                | FrameKind::Init { .. }
                | FrameKind::Terminate => None,
            },
        }
    }
}

impl<'a> LentRun<'a> {
    pub(crate) fn outcome(self) -> LentOutcome<'a>
        requires { (run : RunFrame) × IsRunOf self run }
        ensures { (run : RunFrame) → IsRunOf self.entry run → IsOutcomeOf result run.outcome }
    {
        match self.outcome {
            OutcomeView::Finished {
                elements,
                elements_at,
                output_at,
            } => LentOutcome::Finished {
                count: elements,
                elements: view_elements(format_at(self.place), elements, elements_at, self.bytes),
                output: view_output(output_at, self.bytes),
            },
            OutcomeView::Refused { at } => LentOutcome::Refused(view_refusal(at, self.bytes)),
        }
    }
}

impl<'a> RecordWalk<'a> {
    pub(crate) fn new(bytes: &'a [u8]) -> RecordWalk<'a>
        ensures left { left result ≡ decoded_all bytes.now }
        ensures rest { result.rest.now ≡ bytes.now }
    {
        RecordWalk {
            place: Place::Header,
            rest: bytes,
        }
    }

    /// The next item. None where the record ends, or breaks off, or has a fault.
    fn next_item(&mut self) -> Option<LentItem<'a>>
        ensures some { IfSome result (λ x. IsItemNext x (left self.old) (left self.new)) }
        ensures none { IfNone result (((left self.old).items ≡ []) × (self.new ≡ self.old)) }
        ensures shorter { IfSome result
            (λ x. length self.new.rest.now < length self.old.rest.now) }
    {
        let place = self.place;
        let bytes = self.rest;
        let Step { answer, .. } = view_item(place, no_scan(), bytes);
        match answer {
            Ok(span) => {
                self.place = place_after(place, span.kind);
                self.rest = bytes_after(bytes, span.len);
                Some(LentItem {
                    view: ItemView { place, span },
                    bytes,
                })
            }
            Err(_) => None,
        }
    }

    /// The next Run frame. After None no item is left.
    pub(crate) fn next_run(&mut self) -> Option<LentRun<'a>>
        ensures some { IfSome result (λ x. (run : RunFrame) × IsRunOf x run
            × (runs_left self.old ≡ run ∷ runs_left self.new)) }
        ensures none { IfNone result ((runs_left self.old ≡ [])
            × ((left self.new).items ≡ [])) }
        ensures ending { (left self.new).ending ≡ (left self.old).ending }
        ensures shorter { IfSome result
            (λ x. length self.new.rest.now < length self.old.rest.now) }
    {
        'items: loop {
            let Some(item) = self.next_item() else {
                return None;
            };
            if let Some(run) = item.as_run() {
                return Some(run);
            }
        }
    }

    /// The fault of the record, which has `count` bytes, once no item is left.
    pub(crate) fn fault(&self, count: usize) -> Option<RecordFault>
        ensures { (left self.now).items ≡ []
            → result ≡ fault_from count (left self.now).ending }
    {
        let Step { answer, .. } = view_item(self.place, no_scan(), self.rest);
        match answer {
            Ok(_) => None,
            Err(Stop::Bad { reason, left }) => Some(RecordFault {
                offset: count.saturating_sub(left) as u64,
                reason,
            }),
            Err(Stop::More) => match self.place {
                Place::End => None,
                _ => Some(RecordFault {
                    offset: count as u64,
                    reason: Reason::Truncated,
                }),
            },
        }
    }
}
