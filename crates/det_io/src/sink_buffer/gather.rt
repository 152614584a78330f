//! The trait of fronts, so that a `SinkBuffer` doesn't depend on how bytes are held.
ghost use Rattle.std.specs.Prelude.{◌≡◌, ◌<◌, ◌≤◌, ℕ, List, ◌++◌, length, take, IfOk, OnErr};
ghost use Rattle.det_io.specs.Count.{Rose};
ghost use Rattle.det_io.specs.Sink.{Same};
ghost use Rattle.det_io.specs.sink_buffer.Front.{TakesFront};

use crate::SinkFailed;

/// Holds bytes in front of a sink.
///
/// `name` identifies the reference to the sink, `took` and `faults` are the sink's, and `held` is
/// the list of held bytes.
pub trait Gather {
    ghost name: { Self → ℕ };

    ghost took: { Self → List ℕ → Type 0 };

    ghost held: { Self → List ℕ };

    ghost faults: { Self → ℕ };

    /// Takes bytes from the front of the piece and returns their number: at least one, unless the
    /// piece is empty. The sink takes a front of the held bytes and those, and the rest is held. If
    /// a write of the sink fails, nothing has changed. So it makes at most one write: after one
    /// that succeeded, a second that failed would break this.
    fn gather(&mut self, piece: &[u8]) -> Result<usize, SinkFailed>
        ensures same_sink { name self.new ≡ name self.old }
        ensures within { IfOk result (λ n. n ≤ length piece.now) }
        ensures some { IfOk result (λ n. 0 < length piece.now → 0 < n) }
        ensures taken { IfOk result (λ n. TakesFront (took self.old) (took self.new)
            (held self.old ++ take n piece.now) (held self.new)) }
        ensures none { OnErr result (Same (took self.old) (took self.new)) }
        ensures stays { OnErr result (held self.new ≡ held self.old) }
        ensures cause { OnErr result (Rose (faults self.old) (faults self.new)) }
        ensures counted { faults self.old ≤ faults self.new };
}
