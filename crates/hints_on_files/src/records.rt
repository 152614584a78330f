//! Hints on records.
ghost use Rattle.std.specs.Prelude.{◌≡◌, ◌<◌, length, true, IfSome};
ghost use Rattle.hints_on_files.specs.Kinds.{is_of_record};

use crate::hint::Hint;
use crate::parameters::parameter_hint;
use det_io::{Shelf, Stopped};
use det_values::JobKind;
use record_grammar::Place;
use record_reader::item_reader::ItemReader;
use record_reader::open_record;
use std::alloc::Global;

/// More items than any record has: a header, four frames and 1,000,000 runs.
const MOST_ITEMS: u32 = 1_000_006;

/// The hint on a fault at a place of a record, after so many items. `begins` is set if the fault is
/// at the first byte of the next one.
fn place_hint(items: u32, place: Place, begins: bool) -> Hint
    ensures { is_of_record result ≡ true }
{
    let frame = items.saturating_sub(1);
    match place {
        Place::Header => Hint::Header,
        Place::Register(_) => Hint::FrameBegin(frame, "Register"),
        Place::Discover(_) => Hint::FrameBegin(frame, "Discover"),
        Place::Init(_) if begins => Hint::FrameBegin(frame, "Init"),
        Place::Init(_) => Hint::Init,
        Place::Runs(_, _) if begins => Hint::FrameBegin(frame, "a run or Terminate"),
        Place::Runs(_, _) => Hint::Run(frame, frame.saturating_sub(2)),
        Place::End => Hint::AfterEnd(frame.saturating_sub(1)),
    }
}

/// The hint on the fault of the record under a name, and the number of items before the fault. None
/// if there is none, or the record can't be read.
fn fault_hint<S: Shelf>(alloc: Global, name: &str, shelf: &mut S) -> Option<(u32, Hint)>
    ensures { IfSome result (λ fault. is_of_record fault.1 ≡ true) }
{
    let slot = shelf.open_input(name).ok()?;
    let mut reader = ItemReader::new(alloc, slot);
    let mut bytes: u64 = 0;
    for items in 0..MOST_ITEMS {
        match reader.next(shelf) {
            Ok(Some(view)) => bytes = bytes.saturating_add(view.span.len as u64),
            Ok(None) | Err(Stopped::Failed(_)) => return None,
            Err(Stopped::Refused(fault)) => {
                let begins = fault.offset <= bytes;
                return Some((items, place_hint(items, reader.place(), begins)));
            }
        }
    }
    None
}

/// The hint on the fault with the fewest items before it, and which of the records has it, counted
/// from 0. Of equal ones, the first record's counts.
pub fn copies_hint<S: Shelf>(alloc: Global, names: &[&str], shelf: &mut S) -> Option<(usize, Hint)>
    ensures kind { IfSome result (λ found. is_of_record found.1 ≡ true) }
    ensures copy { IfSome result (λ found. found.0 < length names.now) }
{
    let mut least = MOST_ITEMS;
    let mut first = None;
    for copy in 0..names.len() {
        if let Some((items, hint)) = fault_hint(alloc, names[copy], shelf) {
            if items < least {
                least = items;
                first = Some((copy, hint));
            }
        }
    }
    first
}

/// The hint on a record that is run again. The job in its header is checked first.
pub fn run_hint<S: Shelf>(alloc: Global, name: &str, shelf: &mut S) -> Option<Hint>
    ensures { IfSome result (λ hint. is_of_record hint ≡ true) }
{
    match header_hint(alloc, name, shelf) {
        None => Some(fault_hint(alloc, name, shelf)?.1),
        hint => hint,
    }
}

/// What is wrong with the job and the parameters in the header of the record under a name.
fn header_hint<S: Shelf>(alloc: Global, name: &str, shelf: &mut S) -> Option<Hint>
    ensures { IfSome result (λ hint. is_of_record hint ≡ true) }
{
    let slot = shelf.open_input(name).ok()?;
    let opened = open_record(alloc, slot, shelf).ok()?;
    let profile = &opened.profile;
    match JobKind::from_number(profile.job) {
        Some(job) => parameter_hint(job, &profile.params, &profile.events),
        None => Some(Hint::NoJob(profile.job)),
    }
}
