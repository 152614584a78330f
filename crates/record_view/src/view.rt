//! Views: the offsets of an item's parts. Offsets count from the item's first byte.
ghost use Rattle.std.specs.Prelude.{◌≡◌, IfSome, IfNone};
ghost use Rattle.record_grammar.specs.declared.place.Layout.{Layout};

use record_grammar::{Layout, Place};

/// A cycle's input. Its samples are at `samples_at..outcome_at`, ten bytes each.
#[derive(Clone, Copy, Drop)]
pub struct InputView {
    pub time: Option<u64>,
    pub samples: u32,
    pub samples_at: usize,
    pub outcome_at: usize,
}

/// A cycle's outcome.
#[derive(Clone, Copy, Drop)]
pub enum OutcomeView {
    /// The elements are at `elements_at..output_at`. The output's length comes after them in four
    /// bytes, and then the output up to the item's end.
    Finished {
        elements: u32,
        elements_at: usize,
        output_at: usize,
    },
    /// Phase, pass, element and code are at `at`, up to the item's end.
    Refused {
        at: usize,
    },
}

/// A frame's kind, and the offsets of its parts.
#[derive(Clone, Copy, Drop)]
pub enum FrameKind {
    Register,
    Discover,
    /// The elements are from byte 5 to the frame's end.
    Init {
        elements: u32,
    },
    Run {
        input: InputView,
        outcome: OutcomeView,
    },
    Terminate,
}

/// An item's kind, and the offsets of its parts.
#[derive(Clone, Copy, Drop)]
pub enum ItemKind {
    Header(Layout),
    Frame(FrameKind),
}

/// A whole item.
#[derive(Clone, Copy, Drop)]
pub struct ItemSpan {
    pub kind: ItemKind,
    /// Its length in bytes.
    pub len: usize,
}

/// An item and its place in the record, which gives the format and the number of events.
#[derive(Clone, Copy, Drop)]
pub struct ItemView {
    pub place: Place,
    pub span: ItemSpan,
}

/// A frame and its place in the record.
#[derive(Clone, Copy, Drop)]
pub struct FrameView {
    pub place: Place,
    pub kind: FrameKind,
    /// Its length in bytes.
    pub len: usize,
}

impl ItemView {
    ghost use Rattle.record_view.specs.Shows.{item_view};
    ghost use Rattle.record_view.specs.declared.view.ItemKind.TheVariants as kinds;

    /// The item as a frame. None for a header.
    pub fn as_frame(self) -> Option<FrameView>
        ensures some { IfSome result (λ view. item_view view ≡ self) }
        ensures none { IfNone result ((layout : Layout) × (self.span.kind ≡ kinds.Header layout)) }
    {
        match self.span.kind {
            ItemKind::Header(_) => None,
            ItemKind::Frame(kind) => Some(FrameView {
                place: self.place,
                kind,
                len: self.span.len,
            }),
        }
    }
}

impl FrameView {
    ghost use Rattle.record_view.specs.Shows.{item_view};

    /// The frame as an item of its record.
    pub fn as_item(self) -> ItemView
        ensures { result ≡ item_view self }
    {
        ItemView {
            place: self.place,
            span: ItemSpan {
                kind: ItemKind::Frame(self.kind),
                len: self.len,
            },
        }
    }
}
