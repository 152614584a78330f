//! A sink that counts and digests what is written to it.
use det_io::{Sink, SinkFailed};
use sha2::{Digest, Sha256};

/// A sink that keeps only a SHA-256 state and a count of what it takes. It never fails and takes no
/// memory.
#[derive(Drop)]
pub struct DigestSink {
    hasher: Sha256,
    length: u64,
}

impl DigestSink {
    ghost use Rattle.std.specs.Prelude.{◌≡◌, ℕ, List, []};
    ghost use Rattle.sha2.specs.Sha256.{sha256};
    ghost use Rattle.record_reader.specs.Digested.{Digested, counted};

    /// A sink that has taken nothing yet.
    pub fn new() -> DigestSink
        ensures { Digested result [] }
    {
        DigestSink {
            hasher: Sha256::new(),
            length: 0,
        }
    }

    /// The number of bytes that it took. The count stays at 2^64 - 1 once it is there.
    pub fn length(&self) -> u64
        ensures { (bytes : List ℕ) → Digested self.now bytes → result ≡ counted bytes }
    {
        self.length
    }

    /// The SHA-256 digest of the bytes that it took.
    pub fn finish(self) -> [u8; 32]
        ensures { (bytes : List ℕ) → Digested self bytes → result ≡ sha256 bytes }
    {
        self.hasher.finalize()
    }
}

impl Sink for DigestSink {
    ghost use Rattle.std.specs.Prelude.{◌≡◌, ◌<◌, ◌≤◌, length, take, IsOk, IfOk, OnErr};
    ghost use Rattle.det_io.specs.Count.{Rose};
    ghost use Rattle.det_io.specs.Sink.{Grew, Same};
    ghost use Rattle.record_reader.specs.Digested.{Digested};

    ghost took = { Digested };

    ghost faults = { λ _. 0 };

    fn write(&mut self, piece: &[u8]) -> Result<usize, SinkFailed>
        ensures within { IfOk result (λ n. n ≤ length piece.now) }
        ensures some { IfOk result (λ n. 0 < length piece.now → 0 < n) }
        ensures taken { IfOk result (λ n. Grew (Digested self.old) (Digested self.new)
            (take n piece.now)) }
        ensures none { OnErr result (Same (Digested self.old) (Digested self.new)) }
        ensures cause { OnErr result (Rose 0 0) }
        ensures counted { 0 ≤ 0 }

        ensures never_fails { IsOk result }
    {
        self.hasher.update(piece);
        self.length = self.length.saturating_add(piece.len() as u64);
        Ok(piece.len())
    }
}
