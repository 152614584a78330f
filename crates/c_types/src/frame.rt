//! A frame that was read, as offsets into its bytes; a fault of a record; a place where two differ.
ghost use Rattle.std.specs.Prelude.{◌≡◌};
ghost use Rattle.c_types.specs.RecordFaults.{reason_of};

use crate::cycle::{DetRefusal, DetTime};
use record_grammar::{Reason, RecordFault};

/// A frame. Offsets count from its first byte, its tag, and are 0 for parts that it doesn't have.
/// The tag is 1 for Register, 2 for Discover, 3 for Init, 4 for Run and 5 for Terminate.
#[repr(C)]
#[derive(Drop)]
pub struct DetFrame {
    /// Of the whole frame, in bytes.
    pub length: usize,
    /// Samples have ten bytes each.
    pub samples: usize,
    /// Elements follow each other; how long one is, its first byte says.
    pub elements: usize,
    pub output: usize,
    pub time: DetTime,
    /// If the cycle was refused.
    pub refusal: DetRefusal,
    pub sample_count: u32,
    pub element_count: u32,
    /// In bytes.
    pub output_count: u32,
    pub tag: u8,
    pub refused: bool,
    /// Whether each element is followed by its number of draws.
    pub has_draws: bool,
}

/// The first byte of a record with which no record begins, and the reason: 1 magic, 2 version, 3
/// range, 4 order, 5 too many, 6 truncated, 7 trailing.
#[repr(C)]
#[derive(Drop)]
pub struct DetRecordFault {
    /// From the first byte of the record.
    pub offset: u64,
    pub reason: u8,
}

/// What differs first between two records: 0 the header, 1 the kind of frame `number`, counted from
/// 0. Of cycle `number`, counted from 1: 2 its time, 3 its samples, 4 its result, 5 its `element`,
/// counted from 0, 6 its output.
#[repr(C)]
#[derive(Drop)]
pub struct DetPlace {
    pub number: u32,
    pub element: u32,
    pub what: u8,
}

fn reason(number: u8) -> Option<Reason>
    ensures { result ≡ reason_of number }
{
    match number {
        1 => Some(Reason::Magic),
        2 => Some(Reason::Version),
        3 => Some(Reason::Range),
        4 => Some(Reason::Order),
        5 => Some(Reason::TooMany),
        6 => Some(Reason::Truncated),
        7 => Some(Reason::Trailing),
        _ => None,
    }
}

impl DetRecordFault {
    ghost use Rattle.c_types.specs.RecordFaults.{record_fault_of};

    /// The fault of the record. None if no reason has the number.
    pub fn fault(&self) -> Option<RecordFault>
        ensures { result ≡ record_fault_of self.now }
    {
        let reason = reason(self.reason)?;
        Some(RecordFault {
            offset: self.offset,
            reason,
        })
    }
}
