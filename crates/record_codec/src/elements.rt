//! Lists of elements, decoded from views.
ghost use Rattle.std.specs.Prelude.{◌≡◌, ℕ, ◌+◌, ◌-◌, ◌≤◌, ◌++◌, length, take, drop, map};
ghost use Rattle.std.specs.Prelude.{IfOk, OnOk};
ghost use Rattle.det_values.specs.declared.frames.Outcome.{Outcome};
ghost use Rattle.record_view.specs.Parts.{ElementsOf};
ghost use Rattle.record_codec.specs.Parts.{bytes_of, IsFinishedView, ShowsFinishedView};

use crate::fill_run::FinishedView;
use det_values::{Bytes64, DrawnElements, Elements, Format, Limited};
use record_view::{ElementWalk, view_elements};
use std::alloc::{AllocError, Global};

/// The bytes of the elements that a walk gives.
pub fn decode_elements(alloc: Global, walk: ElementWalk<'_>) -> Result<Elements, AllocError>
    requires { length walk ≤ 65536 }
    ensures { IfOk result (λ made. made ≡ map bytes_of walk.entry) }
{
    let mut walk = walk;
    let mut elements = Limited::new(alloc);
    'elements: loop {
        match walk.next() {
            Some((bytes, _)) => elements.push(Bytes64::from_slice(bytes))?,
            None => return Ok(elements),
        }
    }
}

/// Replaces `elements` by those of a finished cycle, and reuses their memory. In format 2 they are
/// copied as one block, since a container holds elements as they are spelled there.
pub fn fill_elements(
    elements: &mut DrawnElements,
    view: FinishedView,
    bytes: &[u8],
) -> Result<(), AllocError>
    requires { IsFinishedView view bytes.now }
    ensures { OnOk result ((len : ℕ) (outcome : Outcome)
        → ShowsFinishedView view len bytes.now outcome → ElementsOf elements.new outcome) }
{
    let FinishedView {
        format,
        elements: count,
        elements_at,
        output_at,
    } = view;
    elements.clear();
    match format {
        Format::One => push_elements(elements, view_elements(format, count, elements_at, bytes)),
        Format::Two => elements.extend_spelled(element_span(bytes, elements_at, output_at), count),
    }
}

/// The bytes from offset `from` up to offset `to`.
fn element_span(bytes: &[u8], from: usize, to: usize) -> &[u8]
    requires order { from ≤ to }
    requires within { to ≤ length bytes.now }
    ensures { result.now ≡ take (to - from) (drop from bytes.now) }
{
    let (_, rest) = bytes.split_at(from);
    &rest[..to - from]
}

/// Appends the elements that a walk gives, one by one.
fn push_elements(elements: &mut DrawnElements, walk: ElementWalk<'_>) -> Result<(), AllocError>
    requires { length elements.old + length walk ≤ 65536 }
    ensures { OnOk result (elements.new ≡ elements.old ++ walk.entry) }
{
    let mut walk = walk;
    'elements: loop {
        match walk.next() {
            Some((bytes, draws)) => elements.push(bytes, draws)?,
            None => return Ok(()),
        }
    }
}
