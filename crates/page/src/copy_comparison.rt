//! Compares copies that lie one after another in one block of memory.
ghost use Rattle.std.specs.Prelude.{◌≡◌, ◌≤◌, length};
ghost use Rattle.copies.specs.Verdict.{verdict};
ghost use Rattle.page.specs.Shelves.{records_in};
ghost use Rattle.page.specs.Answers.{IsVerdict};

use crate::lent_shelf::LentShelf;
use copies::{BadCopy, Verdict};
use det_io::Stopped;
use std::alloc::Global;

/// The numbers of at most eight slots.
fn first_slots(all: &[u32; 8], count: usize) -> &[u32]
    requires { count ≤ 8 }
    ensures { result.now ≡ Rattle.std.specs.Prelude.take count all.now }
{
    &all[..count]
}

/// The verdict on copies that lie one after another.
pub(crate) fn compare_copies(
    alloc: Global,
    bytes: &[u8],
    lengths: &[usize],
) -> Result<Verdict, Stopped<BadCopy>>
    requires some { 2 ≤ length lengths.now }
    requires few { length lengths.now ≤ 8 }
    ensures { IsVerdict result (verdict (records_in bytes.now lengths.now)) }
{
    let mut shelf = LentShelf::new(alloc, bytes, lengths)?;
    let all = [0, 1, 2, 3, 4, 5, 6, 7];
    copies::compare(alloc, &mut shelf, first_slots(&all, lengths.len()))
}
