//! The reason why bytes give no header.
ghost use Rattle.std.specs.Prelude.{◌≡◌};
ghost use Rattle.record_codec.specs.declared.header_stop.HeaderStop.TheVariants.{Memory, Bytes};

use record_view::Stop;
use std::alloc::{AllocError, AllocFailed};

/// Why no header is made of bytes.
#[derive(Clone, Copy, Debug, PartialEq, Eq, Drop)]
pub enum HeaderStop {
    Memory,
    /// The bytes don't begin with a whole header.
    Bytes(Stop),
}

impl From<AllocError> for HeaderStop {
    ghost from_gives = { λ _ stop. stop ≡ Memory };

    fn from(_: AllocError) -> HeaderStop {
        HeaderStop::Memory
    }
}

impl From<Stop> for HeaderStop {
    ghost from_gives = { λ why stop. stop ≡ Bytes why };

    fn from(why: Stop) -> HeaderStop {
        HeaderStop::Bytes(why)
    }
}
