//! The exports. A call that reads returns 0 for a whole item, 1 if it wants more bytes, 2 for a
//! fault, and 3 if another kind of item comes next. Whatever C passes, a call returns, and it reads
//! no byte beyond those that it was given.
ghost use Rattle.std.specs.Prelude.{◌≡◌, ◌↔◌, List, ℕ, IsTrue};
ghost use Rattle.std.specs.Bool.{OnTrue, OnFalse};
ghost use Rattle.record_grammar.specs.declared.record_fault.Reason.TheVariants as reasons;
ghost use Rattle.record_grammar.specs.declared.place.Place.TheVariants as places;
ghost use Rattle.c_types.specs.Places.{place_of};
ghost use Rattle.det_reading_c.specs.Readings.{HasScanned, offset_after};
ghost use Rattle.det_reading_c.specs.Faults.{reason_number};
ghost use Rattle.det_reading_c.specs.Answers.{header_call, ReadsHeader, frame_call, ReadsFrame};

use crate::fault::record_fault;
use crate::frame_struct::frame_struct;
use crate::header::fill_header;
use crate::reading::{DetReading, view_header};
use c_types::{DetFrame, DetHeader, DetRecordFault};
use record_grammar::{Place, Reason};
use record_view::{Step, Stop};

const WHOLE: u8 = 0;

const MORE: u8 = 1;

const FAULT: u8 = 2;

const MISPLACED: u8 = 3;

/// Begins a reading.
#[unsafe(no_mangle)]
pub extern "C" fn det_reading_new(reading: &mut DetReading)
    ensures offset { reading.new.offset ≡ 0 }
    ensures place { place_of reading.new.record ≡ places.Header }
    ensures scanned { (bytes : List ℕ) → HasScanned reading.new bytes }
{
    *reading = DetReading::new();
}

/// Reads the header with which these bytes begin. It is read from its first byte by each call.
#[unsafe(no_mangle)]
pub extern "C" fn det_reading_header(
    reading: &mut DetReading,
    bytes: &[u8],
    header: &mut DetHeader,
    length: &mut usize,
    fault: &mut DetRecordFault,
) -> u8
    ensures { ReadsHeader result bytes.now
        (header_call reading.old header.old length.old fault.old)
        (header_call reading.new header.new length.new fault.new) }
{
    let Place::Header = reading.record.place() else {
        return MISPLACED;
    };
    match view_header(bytes) {
        Ok(span) => {
            fill_header(header, bytes);
            *length = span.len;
            reading.pass(Place::Header, span);
            WHOLE
        }
        Err(Stop::More) => MORE,
        Err(Stop::Bad { reason, left }) => {
            *fault = reading.fault_at(bytes.len(), left, reason);
            FAULT
        }
    }
}

/// Reads the frame with which these bytes begin. If it wants more bytes, the next call gets the
/// same ones and those after them, and goes on where this one stopped. After Terminate any byte is
/// a fault.
#[unsafe(no_mangle)]
pub extern "C" fn det_reading_frame(
    reading: &mut DetReading,
    bytes: &[u8],
    frame: &mut DetFrame,
    fault: &mut DetRecordFault,
) -> u8
    ensures { ReadsFrame result bytes.now (frame_call reading.old frame.old fault.old)
        (frame_call reading.new frame.new fault.new) }
{
    let place = reading.record.place();
    if let Place::Header = place {
        return MISPLACED;
    }
    let Step { scan, answer } = reading.step(bytes);
    match answer {
        Ok(span) => {
            *frame = frame_struct(place, span, bytes);
            reading.pass(place, span);
            WHOLE
        }
        Err(Stop::More) => {
            reading.keep(scan);
            MORE
        }
        Err(Stop::Bad { reason, left }) => {
            *fault = reading.fault_at(bytes.len(), left, reason);
            FAULT
        }
    }
}

/// Whether what was read is a whole record, if these bytes that weren't read are the last ones. If
/// not, it is truncated at its length. It is asked after a call that wants more bytes.
#[unsafe(no_mangle)]
pub extern "C" fn det_reading_end(
    reading: &DetReading,
    left: u64,
    fault: &mut DetRecordFault,
) -> bool
    ensures whole { IsTrue result
        ↔ ((place_of reading.now.record ≡ places.End) × (left ≡ 0)) }
    ensures fault { OnFalse result (fault.new ≡ record {
      offset = offset_after reading.now.offset left;
      reason = reason_number reasons.Truncated;
    }) }
    ensures kept { OnTrue result (fault.new ≡ fault.old) }
{
    if let Place::End = reading.record.place()
        && left == 0
    {
        return true;
    }
    *fault = record_fault(reading.offset.saturating_add(left), Reason::Truncated);
    false
}
