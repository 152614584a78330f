//! A front as a sink, for functions that are generic in `Sink`.
ghost use Rattle.std.specs.Prelude.{◌≡◌, ◌≤◌};

use crate::sink_buffer::{Gather, Start};
use crate::{Sink, SinkFailed};
use std::marker::PhantomData;

/// A front as a sink. It counts as taken, since the start, the bytes that the sink took and, after
/// them, the bytes that are held.
pub struct SinkBuffer<P: Gather, B: Start> {
    front: P,
    start: PhantomData<B>,
    ghost same: { P.name front ≡ B.name },
    ghost counted: { B.faults ≤ P.faults front },
}

impl<P: Gather, B: Start> SinkBuffer<P, B> {
    ghost use Rattle.std.specs.Prelude.{◌≡◌, ◌≤◌};

    /// A buffer over a front. The maker takes the front out again at the end, and writes the held
    /// bytes.
    pub fn new(front: P) -> SinkBuffer<P, B>
        requires name { P.name front ≡ B.name }
        requires faults { B.faults ≤ P.faults front }
        ensures { result.front ≡ front }
    {
        SinkBuffer {
            front,
            start: PhantomData,
        }
    }

    /// The front again, over the same sink, whose count of faults has not fallen since the start.
    pub fn into_front(self) -> P
        ensures front { result ≡ self.front }
        ensures name { P.name result ≡ B.name }
        ensures counted { B.faults ≤ P.faults result }
    {
        let SinkBuffer { front, start: _ } = self;
        front
    }
}

impl<P: Gather, B: Start> Sink for SinkBuffer<P, B> {
    ghost use Rattle.det_io.specs.sink_buffer.Front.{TakesFront};

    ghost took = { λ s bytes. TakesFront B.took (P.took s.front) bytes (P.held s.front) };

    ghost faults = { λ s. P.faults s.front };

    fn write(&mut self, piece: &[u8]) -> Result<usize, SinkFailed> {
        self.front.gather(piece)
    }
}
