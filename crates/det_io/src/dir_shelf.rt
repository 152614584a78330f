//! The shelf of the programs: files of the file system, by path.
use crate::reserved_push::push_within;
use crate::retries::read_with_retries;
use crate::{Failure, Shelf, ShelfFailed, Slots};
use std::alloc::Global;
use std::fs;
use std::io::{Error, ErrorKind};
use std::rt::Files;

/// Opens files by their paths. Its contracts show neither bytes nor names, since other programs may
/// change them. Each failure of the system is a fault, except "out of memory" at an open. An
/// interrupted read is tried again, up to 1,000 times in all.
#[derive(Drop)]
pub struct DirShelf<R: Files> {
    rt: R,
    files: Vec<R::File>,
    faults: u64,
    failed: Option<(u32, Error)>,
}

impl<R: Files + Copy> DirShelf<R> {
    ghost use Rattle.std.specs.Prelude.{◌≡◌};
    ghost use Rattle.det_io.specs.DirShelf.{dir_shelf_state, unknown_contents};

    /// A shelf over the file system. Relative paths begin at the current folder.
    pub fn new(rt: &R, alloc: Global) -> DirShelf<R>
        ensures { dir_shelf_state result ≡ unknown_contents 0 0 }
    {
        DirShelf {
            rt: *rt,
            files: Vec::new(alloc),
            faults: 0,
            failed: None,
        }
    }

    /// The slot and the cause of the last call that failed, or None. For an open it is the slot
    /// that the file would have got.
    pub fn failed(&self) -> Option<(u32, Error)>
        ensures { result ≡ self.now.failed }
    {
        self.failed
    }
}

impl<R: Files + Copy> Slots for DirShelf<R> {
    ghost use Rattle.det_io.specs.DirShelf.{dir_shelf_state};

    ghost sees = { λ s. dir_shelf_state s };

    ghost stays = { λ _ _. Unit {0} };

    ghost stays_same = { λ _. tt };

    ghost stays_on = { λ _ _ _ _ _. tt };

    fn read(&mut self, slot: u32, buf: &mut [u8]) -> Result<usize, ShelfFailed> {
        match read_with_retries(&mut self.files[slot as usize], buf) {
            Ok(n) => Ok(n),
            Err(error) => {
                self.faults = self.faults.saturating_add(1);
                self.failed = Some((slot, error));
                Err(ShelfFailed)
            }
        }
    }
}

impl<R: Files + Copy> Shelf for DirShelf<R> {
    fn open_input(&mut self, name: &str) -> Result<u32, Failure> {
        let Ok(slot) = u32::try_from(self.files.len()) else {
            self.faults = self.faults.saturating_add(1);
            self.failed = Some((u32::MAX, Error::other("too many files are open")));
            return Err(Failure::Read);
        };
        // The room comes first, so that no file is opened in vain.
        self.files.reserve(1)?;
        match fs::open(&self.rt, name) {
            Ok(file) => {
                push_within(&mut self.files, file);
                Ok(slot)
            }
            Err(error) if error.kind() == ErrorKind::OutOfMemory => Err(Failure::OutOfMemory),
            Err(error) => {
                self.faults = self.faults.saturating_add(1);
                self.failed = Some((slot, error));
                Err(Failure::Read)
            }
        }
    }
}
