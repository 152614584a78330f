//! A shelf in memory for tests, which fails at chosen calls.
ghost use Rattle.std.specs.Prelude.{◌≡◌, ◌<◌, ◌≤◌, vec_len, vec_capacity};

mod lookup;
mod place;

use crate::planned_calls::PlannedCalls;
use crate::reserved_push::push_within;
use crate::{FailList, Failure, Shelf, ShelfFailed, Slots};
use det_values::Limited;
use place::FilePlace;
use std::alloc::{AllocError, Global};

/// A file in memory: a name and bytes.
#[derive(Drop)]
pub struct MemFile {
    pub name: String,
    pub bytes: Vec<u8>,
}

impl MemFile {
    /// A file with this name and these bytes.
    pub fn new(name: String, bytes: Vec<u8>) -> MemFile
        ensures { result ≡ record { name = name; bytes = bytes } }
    {
        MemFile { name, bytes }
    }
}

/// Files. If two have the same name, the first is opened.
pub type MemFiles = Limited<MemFile, 1048576>;

/// A shelf over files in memory, for tests. Its contracts show all bytes. They show the names that
/// it was asked for, until a name is unknown or there is no room for it. `open_input` and `read`
/// allocate nothing: all room is taken at the start.
#[derive(Drop)]
pub struct MemShelf {
    files: MemFiles,
    calls: PlannedCalls,
    opens: u32,
    most: usize,
    faults: u64,
    // The number of calls of `open_input` that took room.
    opened: u32,
    names_known: bool,
    // The names that it was asked for, each as the index of its file.
    asked: Vec<usize>,
    slots: Vec<FilePlace>,
    ghost moves: { 0 < most },
    ghost opens_within: { opens ≤ 1024 },
    ghost opened_within: { opened ≤ opens },
    ghost asked_within: { vec_len asked ≤ opened },
    ghost slots_within: { vec_len slots ≤ opened },
    ghost asked_room: { opens ≤ vec_capacity asked },
    ghost slots_room: { opens ≤ vec_capacity slots },
}

impl MemShelf {
    ghost use Rattle.std.specs.Prelude.{◌≡◌, ◌≤◌, ◌<◌, ◌^◌, ◌-◌, IfOk};
    ghost use Rattle.det_io.specs.MemShelf.{IsNewMemShelf};

    /// A shelf over these files with room for `opens` calls of `open_input`. Calls of `open_input`
    /// and `read` are counted together from 1, and fail if `fails` lists their number.
    pub fn new(
        alloc: Global,
        files: MemFiles,
        fails: FailList,
        opens: u32,
    ) -> Result<MemShelf, AllocError>
        requires { opens ≤ 1024 }
        ensures { IfOk result (λ shelf. IsNewMemShelf shelf
            (record { files = files; fails = fails; opens = opens; most = 2 ^ 64 - 1 })) }
    {
        MemShelf::limited(alloc, files, fails, opens, usize::MAX)
    }

    /// The same shelf, but each read moves at most `most` bytes.
    pub fn limited(
        alloc: Global,
        files: MemFiles,
        fails: FailList,
        opens: u32,
        most: usize,
    ) -> Result<MemShelf, AllocError>
        requires opens { opens ≤ 1024 }
        requires most { 0 < most }
        ensures { IfOk result (λ shelf. IsNewMemShelf shelf
            (record { files = files; fails = fails; opens = opens; most = most })) }
    {
        let asked = Vec::with_capacity(alloc, opens as usize)?;
        let slots = Vec::with_capacity(alloc, opens as usize)?;
        Ok(MemShelf {
            files,
            calls: PlannedCalls { fails, made: 0 },
            opens,
            most,
            faults: 0,
            opened: 0,
            names_known: true,
            asked,
            slots,
        })
    }
}

impl Slots for MemShelf {
    ghost use Rattle.std.specs.Prelude.{◌≡◌, ◌<◌, ◌≤◌, ◌+◌, length, min, IfOk, OnErr};
    ghost use Rattle.std.specs.Result.{is_err};
    ghost use Rattle.det_io.specs.Count.{Rose, next_count};
    ghost use Rattle.det_io.specs.Shelf.{Reads, moved, IsAtEnd};
    ghost use Rattle.det_io.specs.PlannedCalls.{is_listed};
    ghost use Rattle.det_io.specs.MemShelf.{mem_shelf_state, setup_of, calls_of, opened_of};
    ghost use Rattle.det_io.specs.MemShelf.{rest_in};

    ghost sees = { mem_shelf_state };

    ghost stays = { λ _ _. Unit {0} };

    ghost stays_same = { λ _. tt };

    ghost stays_on = { λ _ _ _ _ _. tt };

    fn read(&mut self, slot: u32, buf: &mut [u8]) -> Result<usize, ShelfFailed>
        requires { slot < (mem_shelf_state self.old).slots }
        ensures within { IfOk result (λ n. n ≤ length buf.old) }
        ensures reads { Reads (mem_shelf_state self.old) (mem_shelf_state self.new) slot
            (moved result buf.new) }
        ensures end { IfOk result (λ n. n ≡ 0 → 0 < length buf.old
            → IsAtEnd (mem_shelf_state self.new) slot) }
        ensures cause { OnErr result
            (Rose (mem_shelf_state self.old).faults (mem_shelf_state self.new).faults) }
        ensures counted { (mem_shelf_state self.old).faults ≤ (mem_shelf_state self.new).faults }
        ensures stays { Unit {0} }

        ensures fails { is_err result
            ≡ is_listed (setup_of self.old).fails (calls_of self.old + 1) }
        ensures amount { IfOk result (λ n.
            n ≡ min (min (length buf.old) (setup_of self.old).most)
            (length (rest_in self.old slot))) }
        ensures setup { setup_of self.new ≡ setup_of self.old }
        ensures calls { calls_of self.new ≡ next_count (calls_of self.old) }
        ensures opened { opened_of self.new ≡ opened_of self.old }
    {
        let is_to_fail = self.calls.next_fails();
        if is_to_fail {
            self.faults = self.faults.saturating_add(1);
            return Err(ShelfFailed);
        }
        let place = self.slots[slot as usize];
        let n = lookup::copy_file_bytes(self.files.as_slice(), place, buf, self.most);
        self.slots[slot as usize] = FilePlace {
            file: place.file,
            at: place.at + n,
        };
        Ok(n)
    }
}

impl Shelf for MemShelf {
    ghost use Rattle.std.specs.Prelude.{◌≡◌, ◌<◌, ◌≤◌, ◌∷◌, ◌+◌, ◌&&◌, [], min, is_some, IfOk};
    ghost use Rattle.std.specs.Prelude.{Some, OnErr};
    ghost use Rattle.std.specs.Result.{is_err};
    ghost use Rattle.det_io.specs.Count.{Rose, next_count};
    ghost use Rattle.det_io.specs.Shelf.{Opens, SlotsStay, Asks};
    ghost use Rattle.det_io.specs.Traffic.{failure_of};
    ghost use Rattle.det_io.specs.MemShelf.{mem_shelf_state, setup_of, calls_of, opened_of};
    ghost use Rattle.det_io.specs.MemShelf.{open_fails, has_room_for};

    fn open_input(&mut self, name: &str) -> Result<u32, Failure>
        ensures opens { IfOk result (Opens (mem_shelf_state self.old) (mem_shelf_state self.new)
            name.now) }
        ensures slots { OnErr result
            (SlotsStay (mem_shelf_state self.old) (mem_shelf_state self.new)) }
        ensures holds { (mem_shelf_state self.new).holds ≡ (mem_shelf_state self.old).holds }
        ensures asked { Asks (mem_shelf_state self.old) (mem_shelf_state self.new) (name.now ∷ []) }
        ensures cause { failure_of result ≡ Some Failure.Read
            → Rose (mem_shelf_state self.old).faults (mem_shelf_state self.new).faults }
        ensures writes_nothing { failure_of result ≡ Some Failure.Write → ⊥ }
        ensures counted { (mem_shelf_state self.old).faults ≤ (mem_shelf_state self.new).faults }
        ensures stays { Unit {0} }

        ensures fails { is_err result ≡ open_fails self.old name.now }
        ensures takes_no_memory { failure_of result ≡ Some Failure.OutOfMemory → ⊥ }
        ensures told { is_some (mem_shelf_state self.new).asked
            ≡ (is_some (mem_shelf_state self.old).asked && has_room_for self.old name.now) }
        ensures setup { setup_of self.new ≡ setup_of self.old }
        ensures calls { calls_of self.new ≡ next_count (calls_of self.old) }
        ensures opened { opened_of self.new
            ≡ min (opened_of self.old + 1) (setup_of self.old).opens }
    {
        let is_listed = self.calls.next_fails();
        if self.opened == self.opens {
            self.names_known = false;
            self.faults = self.faults.saturating_add(1);
            return Err(Failure::Read);
        }
        self.opened += 1;
        let Some(file) = lookup::index_of(self.files.as_slice(), name) else {
            self.names_known = false;
            self.faults = self.faults.saturating_add(1);
            return Err(Failure::Read);
        };
        push_within(&mut self.asked, file);
        if is_listed {
            self.faults = self.faults.saturating_add(1);
            return Err(Failure::Read);
        }
        let slot = self.slots.len() as u32;
        push_within(&mut self.slots, FilePlace { file, at: 0 });
        Ok(slot)
    }
}
