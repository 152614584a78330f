//! The sink of the programs: a writer of std, as standard output or a file.
use crate::retries::write_with_retries;
use crate::{Sink, SinkFailed};
use std::io::{Error, Write};

/// Writes to a writer of std. Its contracts show no bytes. Each failure of the writer is a fault,
/// and so is a write that takes no byte of a piece that isn't empty. An interrupted write is tried
/// again, up to 1,000 times in all.
#[derive(Drop)]
pub struct StdSink<W> {
    writer: W,
    faults: u64,
    failed: Option<Error>,
}

impl<W: Write + Drop> StdSink<W> {
    ghost use Rattle.std.specs.Prelude.{◌≡◌};
    ghost use Rattle.det_io.specs.StdSink.{std_sink_faults};

    /// A sink over this writer.
    pub fn new(writer: W) -> StdSink<W>
        ensures { std_sink_faults result ≡ 0 }
    {
        StdSink {
            writer,
            faults: 0,
            failed: None,
        }
    }

    /// The cause of the last write that failed, or None.
    pub fn failed(&self) -> Option<Error>
        ensures { result ≡ self.now.failed }
    {
        self.failed
    }
}

impl<W: Write + Drop> Sink for StdSink<W> {
    ghost use Rattle.det_io.specs.StdSink.{NoBytesKnown, std_sink_faults};

    ghost took = { λ _ m. NoBytesKnown m };

    ghost faults = { λ s. std_sink_faults s };

    fn write(&mut self, piece: &[u8]) -> Result<usize, SinkFailed> {
        match write_with_retries(&mut self.writer, piece) {
            Ok(n) => Ok(n),
            Err(error) => {
                self.faults = self.faults.saturating_add(1);
                self.failed = Some(error);
                Err(SinkFailed)
            }
        }
    }
}
