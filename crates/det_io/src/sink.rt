//! The trait of sinks: outputs that take bytes piece by piece.
ghost use Rattle.std.specs.Prelude.{ℕ, ◌<◌, ◌≤◌, List, length, take, IfOk, OnErr};
ghost use Rattle.det_io.specs.Count.{Rose};
ghost use Rattle.det_io.specs.Sink.{Grew, Same};

use crate::SinkFailed;

/// Takes bytes piece by piece.
///
/// `took` relates the sink to the bytes it took in all. A sink that keeps its bytes is related to
/// exactly that list, and a sink that keeps none to no list. `faults` counts its failures.
pub trait Sink {
    ghost took: { Self → List ℕ → Type 0 };

    ghost faults: { Self → ℕ };

    /// Takes bytes from the front of the piece and returns their number: at least one, unless the
    /// piece is empty.
    fn write(&mut self, piece: &[u8]) -> Result<usize, SinkFailed>
        ensures within { IfOk result (λ n. n ≤ length piece.now) }
        ensures some { IfOk result (λ n. 0 < length piece.now → 0 < n) }
        ensures taken { IfOk result (λ n. Grew (took self.old) (took self.new) (take n piece.now)) }
        ensures none { OnErr result (Same (took self.old) (took self.new)) }
        ensures cause { OnErr result (Rose (faults self.old) (faults self.new)) }
        ensures counted { faults self.old ≤ faults self.new };
}
