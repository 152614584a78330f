//! Records that lie one after another in one block of memory, as the slots of a shelf.
use crate::lent_bytes::{bytes_after, fill_front, first_bytes};
use det_io::{ShelfFailed, Slots};
use std::alloc::{AllocError, Global};

/// A slot for each record. Its reads never fail and take no memory.
#[derive(Drop)]
pub(crate) struct LentShelf<'a> {
    rests: Vec<&'a [u8]>,
}

impl<'a> LentShelf<'a> {
    ghost use Rattle.std.specs.Prelude.{◌≡◌, ◌∷◌, [], IfOk};
    ghost use Rattle.page.specs.Shelves.{records_in, rests_of};

    /// The records of these lengths. If there are too few bytes, the last records are shorter.
    pub(crate) fn new(
        alloc: Global,
        bytes: &'a [u8],
        lengths: &[usize],
    ) -> Result<LentShelf<'a>, AllocError>
        ensures { IfOk result (λ shelf. rests_of shelf ≡ records_in bytes.now lengths.now) }
    {
        let mut rests = Vec::new(alloc);
        let mut rest = bytes;
        'lengths: for length in lengths {
            rests.push(first_bytes(rest, *length))?;
            rest = bytes_after(rest, *length);
        }
        Ok(LentShelf { rests })
    }

    /// This one record.
    pub(crate) fn with_record(alloc: Global, bytes: &'a [u8]) -> Result<LentShelf<'a>, AllocError>
        ensures { IfOk result (λ shelf. rests_of shelf ≡ bytes.now ∷ []) }
    {
        let mut rests = Vec::new(alloc);
        rests.push(bytes)?;
        Ok(LentShelf { rests })
    }
}

impl<'a> Slots for LentShelf<'a> {
    ghost use Rattle.std.specs.Prelude.{◌≡◌, ◌<◌, ◌≤◌, length, IsOk, IfOk, OnErr};
    ghost use Rattle.det_io.specs.Count.{Rose};
    ghost use Rattle.det_io.specs.Shelf.{Reads, moved, IsAtEnd};
    ghost use Rattle.page.specs.Shelves.{lent_state, rests_of};

    ghost sees = { λ shelf. lent_state (rests_of shelf) };

    ghost stays = { λ _ _. Unit {0} };

    ghost stays_same = { λ _. tt };

    ghost stays_on = { λ _ _ _ _ _. tt };

    fn read(&mut self, slot: u32, buf: &mut [u8]) -> Result<usize, ShelfFailed>
        requires { slot < (lent_state (rests_of self.old)).slots }
        ensures within { IfOk result (λ n. n ≤ length buf.old) }
        ensures reads { Reads (lent_state (rests_of self.old)) (lent_state (rests_of self.new)) slot
            (moved result buf.new) }
        ensures end { IfOk result (λ n. n ≡ 0 → 0 < length buf.old
            → IsAtEnd (lent_state (rests_of self.new)) slot) }
        ensures cause { OnErr result (Rose (lent_state (rests_of self.old)).faults
            (lent_state (rests_of self.new)).faults) }
        ensures counted { (lent_state (rests_of self.old)).faults
            ≤ (lent_state (rests_of self.new)).faults }
        ensures stays { Unit {0} }
        ensures never_fails { IsOk result }
    {
        let rest = self.rests[slot as usize];
        let count = fill_front(rest, buf);
        self.rests[slot as usize] = bytes_after(rest, count);
        Ok(count)
    }
}
