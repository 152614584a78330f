//! One text in memory as slot 0, for readers that take slots.
ghost use Rattle.std.specs.Prelude.{◌≤◌, length};

use crate::read_memory::read_memory;
use crate::{ShelfFailed, Slots};
use det_values::Bytes;

/// A text in memory, read from slot 0. Its reads never fail and allocate nothing.
#[derive(Drop)]
pub struct TextShelf {
    bytes: Bytes,
    at: usize,
    ghost within: { at ≤ length bytes },
}

impl TextShelf {
    ghost use Rattle.std.specs.Prelude.{◌≡◌};
    ghost use Rattle.det_io.specs.TextShelf.{text_shelf_state, one_slot};

    /// Slots with one slot, slot 0, which has these bytes.
    pub fn new(bytes: Bytes) -> TextShelf
        ensures { text_shelf_state result ≡ one_slot bytes }
    {
        TextShelf { bytes, at: 0 }
    }
}

impl Slots for TextShelf {
    ghost use Rattle.std.specs.Prelude.{◌≡◌, ◌<◌, ◌≤◌, length, min, unwrap_or, [], IsOk, IfOk};
    ghost use Rattle.std.specs.Prelude.{OnErr};
    ghost use Rattle.det_io.specs.Count.{Rose};
    ghost use Rattle.det_io.specs.Shelf.{Reads, moved, IsAtEnd};
    ghost use Rattle.det_io.specs.TextShelf.{text_shelf_state};

    ghost sees = { text_shelf_state };

    ghost stays = { λ _ _. Unit {0} };

    ghost stays_same = { λ _. tt };

    ghost stays_on = { λ _ _ _ _ _. tt };

    fn read(&mut self, slot: u32, buf: &mut [u8]) -> Result<usize, ShelfFailed>
        requires { slot < (text_shelf_state self.old).slots }
        ensures within { IfOk result (λ n. n ≤ length buf.old) }
        ensures reads { Reads (text_shelf_state self.old) (text_shelf_state self.new) slot
            (moved result buf.new) }
        ensures end { IfOk result (λ n. n ≡ 0 → 0 < length buf.old
            → IsAtEnd (text_shelf_state self.new) slot) }
        ensures cause { OnErr result
            (Rose (text_shelf_state self.old).faults (text_shelf_state self.new).faults) }
        ensures counted { (text_shelf_state self.old).faults ≤ (text_shelf_state self.new).faults }
        ensures stays { Unit {0} }

        ensures never_fails { IsOk result }
        ensures amount { IfOk result (λ n.
            n ≡ min (length buf.old)
            (length (unwrap_or ((text_shelf_state self.old).left slot) []))) }
    {
        let _ = slot;
        let rest = &self.bytes.as_slice()[self.at..];
        let n = read_memory(rest, buf, usize::MAX);
        self.at += n;
        Ok(n)
    }
}
