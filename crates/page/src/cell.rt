//! The bytes of an element or of an output, cycle by cycle.
ghost use Rattle.std.specs.Prelude.{◌≡◌, IfSome, IfNone, Some, None, length, slice_get};
ghost use Rattle.det_values.specs.Spelling.{an_element};
ghost use Rattle.det_values.specs.declared.frames.RunFrame.{RunFrame};
ghost use Rattle.record_grammar.specs.Record.{fault as fault_in};
ghost use Rattle.page.specs.Walks.{IsRunOf};
ghost use Rattle.page.specs.Rows.{overlay};
ghost use Rattle.page.specs.Cells.{cells_of, cell_in};

use crate::lent_bytes::fill_front;
use crate::record_walk::{LentOutcome, LentRun, RecordWalk};
use crate::row_table::put_row;
use record_grammar::RecordFault;
use record_view::ElementWalk;

/// The first 64 bytes of an element or of an output, filled up with zeros.
#[repr(C)]
#[derive(Drop)]
pub struct PageCell {
    pub bytes: [u8; 64],
    /// How many bytes there are, also if they are more than 64.
    pub length: u64,
    /// How many random numbers an element drew.
    pub draws: u32,
    /// 1, or 0 if the cycle has no such element or was refused.
    pub present: u32,
}

/// What is shown of each cycle.
#[derive(Clone, Copy, Drop)]
pub(crate) enum Part {
    /// The element of this number.
    Element(u32),
    Output,
}

fn present_cell(bytes: &[u8], draws: u32) -> PageCell
    ensures { result ≡ Rattle.page.specs.Cells.present_cell bytes.now draws }
{
    let mut first = [0; 64];
    fill_front(bytes, &mut first);
    PageCell {
        bytes: first,
        length: bytes.len() as u64,
        draws,
        present: 1,
    }
}

fn absent_cell() -> PageCell
    ensures { result ≡ Rattle.page.specs.Cells.absent_cell }
{
    PageCell {
        bytes: [0; 64],
        length: 0,
        draws: 0,
        present: 0,
    }
}

/// The element of this number, counted from 0.
fn element_of(number: u32, elements: ElementWalk<'_>) -> Option<(&[u8], u32)>
    ensures some { IfSome result (λ x. slice_get elements.entry number
        ≡ Some (an_element x.0.now x.1)) }
    ensures none { IfNone result (slice_get elements.entry number ≡ None) }
{
    let mut elements = elements;
    'elements: for _ in 0..number {
        if elements.next().is_none() {
            return None;
        }
    }
    elements.next()
}

fn run_cell(part: Part, run: LentRun<'_>) -> PageCell
    requires { (frame : RunFrame) × IsRunOf run frame }
    ensures { (frame : RunFrame) → IsRunOf run.entry frame → result ≡ cell_in part frame }
{
    match run.outcome() {
        LentOutcome::Refused(_) => absent_cell(),
        LentOutcome::Finished {
            elements,
            output,
            ..
        } => match part {
            Part::Output => present_cell(output, 0),
            Part::Element(number) => match element_of(number, elements) {
                Some((bytes, draws)) => present_cell(bytes, draws),
                None => absent_cell(),
            },
        },
    }
}

/// Puts the cells of as many cycles as there is room for. Returns the fault of the record, if it
/// has one.
pub(crate) fn put_cells(part: Part, bytes: &[u8], cells: &mut [PageCell]) -> Option<RecordFault>
    ensures fault { result ≡ fault_in bytes.now }
    ensures cells { cells.new ≡ overlay (cells_of part bytes.now) cells.old }
{
    let mut walk = RecordWalk::new(bytes);
    let mut count = 0;
    'runs: loop {
        let Some(run) = walk.next_run() else {
            return walk.fault(bytes.len());
        };
        put_row(run_cell(part, run), cells, count);
        count += 1;
    }
}
