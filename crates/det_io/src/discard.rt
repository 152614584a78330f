//! A sink for output that is not wanted.
use crate::{Sink, SinkFailed};

/// Takes all bytes and keeps none. It never fails.
#[derive(Drop)]
pub struct Discard;

impl Sink for Discard {
    ghost use Rattle.std.specs.Prelude.{◌≡◌, ◌<◌, ◌≤◌, length, take, Ok, IfOk, OnErr};
    ghost use Rattle.det_io.specs.Count.{Rose};
    ghost use Rattle.det_io.specs.Sink.{Grew, Same};
    ghost use Rattle.det_io.specs.StdSink.{NoBytesKnown};

    ghost took = { λ _ m. NoBytesKnown m };

    ghost faults = { λ _. 0 };

    fn write(&mut self, piece: &[u8]) -> Result<usize, SinkFailed>
        ensures within { IfOk result (λ n. n ≤ length piece.now) }
        ensures some { IfOk result (λ n. 0 < length piece.now → 0 < n) }
        ensures taken { IfOk result (λ n. Grew NoBytesKnown NoBytesKnown (take n piece.now)) }
        ensures none { OnErr result (Same NoBytesKnown NoBytesKnown) }
        ensures cause { OnErr result (Rose 0 0) }
        ensures counted { 0 ≤ 0 }

        ensures all { result ≡ Ok (length piece.now) }
    {
        Ok(piece.len())
    }
}
