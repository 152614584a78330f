//! Owned values of headers and frames, decoded from views.
ghost use Rattle.std.specs.Prelude.{◌≡◌, ℕ, List, IfOk};
ghost use Rattle.det_values.specs.Values.{ProfileValue};
ghost use Rattle.det_values.specs.declared.frames.Frame.{Frame as FrameValue};
ghost use Rattle.record_grammar.specs.Read.{Got};
ghost use Rattle.record_grammar.specs.Grammar.{profile_at};
ghost use Rattle.record_grammar.specs.declared.item.Item.TheVariants as items;
ghost use Rattle.record_view.specs.Shows.{IsSpelling, IsFrameSpelling};

use crate::elements::decode_elements;
use crate::fill_run::decode_run;
use crate::header_stop::HeaderStop;
use crate::read_header::profile;
use det_values::{Frame, Profile};
use record_view::{FrameKind, FrameView, ItemView, events_at, view_init_elements};
use std::alloc::{AllocError, Global};

/// The profile of a header, from the header's view and its bytes.
pub fn decode_profile(alloc: Global, view: ItemView, bytes: &[u8]) -> Result<Profile, AllocError>
    requires { (p : ProfileValue) × IsSpelling view (items.Header p) bytes.now }
    ensures { IfOk result (λ made. (p : ProfileValue)
        → IsSpelling view (items.Header p) bytes.now → made ≡ p) }
{
    decode_header(alloc, bytes)
}

fn decode_header(alloc: Global, bytes: &[u8]) -> Result<Profile, AllocError>
    requires { (p : ProfileValue) × (rest : List ℕ) × (profile_at bytes.now ≡ Got (p, rest)) }
    ensures { IfOk result (λ made. (p : ProfileValue) (rest : List ℕ)
        → profile_at bytes.now ≡ Got (p, rest) → made ≡ p) }
{
    match profile(alloc, bytes) {
        Ok((profile, _)) => Ok(profile),
        Err(HeaderStop::Memory) => Err(AllocError),
        Err(HeaderStop::Bytes(_)) => unreachable!(),
    }
}

/// The frame of a view, as an owned value. The elements of a finished cycle in format 2 are copied
/// as one block.
pub fn frame_of(alloc: Global, view: FrameView, bytes: &[u8]) -> Result<Frame, AllocError>
    requires { (frame : FrameValue) × IsFrameSpelling view frame bytes.now }
    ensures { IfOk result (λ made. (frame : FrameValue) → IsFrameSpelling view frame bytes.now
        → made ≡ frame) }
{
    let _events = events_at(view.place);
    match view.kind {
        FrameKind::Register => Ok(Frame::Register),
        FrameKind::Discover => Ok(Frame::Discover),
        FrameKind::Init { elements } => {
            let elements = decode_elements(alloc, view_init_elements(elements, bytes))?;
            Ok(Frame::Init(elements))
        }
        FrameKind::Run { input, outcome } => {
            let run = decode_run(alloc, view.place, input, outcome, bytes)?;
            Ok(Frame::Run(run))
        }
        FrameKind::Terminate => Ok(Frame::Terminate),
    }
}
