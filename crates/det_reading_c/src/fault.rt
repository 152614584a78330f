//! Faults as C receives them.
ghost use Rattle.std.specs.Prelude.{◌≡◌};
ghost use Rattle.det_reading_c.specs.Faults.{reason_number};

use c_types::DetRecordFault;
use record_grammar::Reason;

fn reason_number(reason: Reason) -> u8
    ensures { result ≡ reason_number reason }
{
    match reason {
        Reason::Magic => 1,
        Reason::Version => 2,
        Reason::Range => 3,
        Reason::Order => 4,
        Reason::TooMany => 5,
        Reason::Truncated => 6,
        Reason::Trailing => 7,
    }
}

/// The struct of a fault.
pub(crate) fn record_fault(offset: u64, reason: Reason) -> DetRecordFault
    ensures { result ≡ record { offset = offset; reason = reason_number reason } }
{
    DetRecordFault {
        offset,
        reason: reason_number(reason),
    }
}
