//! What an item adds to the counts of a record, by its kind.
ghost use Rattle.std.specs.Prelude.{◌≡◌, ◌≤◌};
ghost use Rattle.record_reader.specs.Kinds.{begins_runs, runs_of, kind_refusals};

use record_view::{FrameKind, ItemKind, OutcomeView};

/// Whether an item of this kind is Init, which comes before the cycles.
pub fn begins_runs(kind: ItemKind) -> bool
    ensures { result ≡ begins_runs kind }
{
    match kind {
        ItemKind::Header(_) => false,
        ItemKind::Frame(frame) => match frame {
            FrameKind::Init { .. } => true,
            FrameKind::Register
            | FrameKind::Discover
            | FrameKind::Run { .. }
            | FrameKind::Terminate => false,
        },
    }
}

/// 1 for the frame of a cycle, and 0 for any other item.
pub fn runs_of(kind: ItemKind) -> u32
    ensures value { result ≡ runs_of kind }
    ensures most { result ≤ 1 }
{
    match kind {
        ItemKind::Header(_) => 0,
        ItemKind::Frame(frame) => match frame {
            FrameKind::Run { .. } => 1,
            FrameKind::Register
            | FrameKind::Discover
            | FrameKind::Init { .. }
            | FrameKind::Terminate => 0,
        },
    }
}

/// 1 for the frame of a refused cycle, and 0 for any other item.
pub fn kind_refusals(kind: ItemKind) -> u32
    ensures value { result ≡ kind_refusals kind }
    ensures most { result ≤ runs_of kind }
{
    match kind {
        ItemKind::Header(_) => 0,
        ItemKind::Frame(frame) => match frame {
            FrameKind::Run { outcome, .. } => match outcome {
                OutcomeView::Finished { .. } => 0,
                OutcomeView::Refused { .. } => 1,
            },
            FrameKind::Register
            | FrameKind::Discover
            | FrameKind::Init { .. }
            | FrameKind::Terminate => 0,
        },
    }
}
