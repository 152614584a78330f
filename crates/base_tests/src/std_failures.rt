//! Tests of `StdSink` and `read_with_retries`, with a reader and a writer that are interrupted or
//! fail.
use det_io::{Sink, SinkFailed, StdSink, read_with_retries, write_all};
use std::io::{self, ErrorKind, Read, Write};
use std::test::Fail;

/// A writer that takes no byte.
#[derive(Drop)]
struct Full;

impl Write for Full {
    fn write(&mut self, _: &[u8]) -> io::Result<usize> {
        Ok(0)
    }

    fn flush(&mut self) -> io::Result<()> {
        Ok(())
    }
}

#[test]
fn a_write_that_takes_nothing_is_a_fault(rt: HostRuntime) -> Result<(), Fail> {
    let mut sink = StdSink::new(Full);
    assert!(rt; sink.failed().is_none());
    assert_eq!(rt; sink.write(b"a"), Err(SinkFailed));
    assert_eq!(rt;
        sink.failed().map(|error| error.kind()),
        Some(ErrorKind::WriteZero)
    );
    assert_eq!(rt; sink.write(b""), Ok(0));
    Ok(())
}

/// The most tries of one call.
const MOST_TRIES: u32 = 1000;

/// How the calls of a reader or writer end.
#[derive(Clone, Copy, Drop)]
enum Turns {
    /// So many calls are interrupted. Each later one moves a byte.
    Interrupted { times: u32 },
    /// The first call moves a byte, the second fails, and each later one moves nothing.
    Broken,
}

/// A reader and writer whose calls end by turns.
#[derive(Drop)]
struct Faulty {
    turns: Turns,
    calls: u32,
}

impl Faulty {
    fn new(turns: Turns) -> Faulty {
        Faulty { turns, calls: 0 }
    }

    /// How many bytes the next call moves.
    fn turn(&mut self) -> io::Result<usize> {
        self.calls = self.calls.saturating_add(1);
        match self.turns {
            Turns::Interrupted { times } if self.calls <= times => {
                Err(io::Error::from(ErrorKind::Interrupted))
            }
            Turns::Interrupted { .. } => Ok(1),
            Turns::Broken => match self.calls {
                1 => Ok(1),
                2 => Err(io::Error::from(ErrorKind::Other)),
                _ => Ok(0),
            },
        }
    }
}

impl Read for Faulty {
    fn read(&mut self, buf: &mut [u8]) -> io::Result<usize> {
        Ok(self.turn()?.min(buf.len()))
    }
}

impl Write for Faulty {
    fn write(&mut self, piece: &[u8]) -> io::Result<usize> {
        Ok(self.turn()?.min(piece.len()))
    }

    fn flush(&mut self) -> io::Result<()> {
        Ok(())
    }
}

#[test]
fn an_interrupted_write_is_tried_again(rt: HostRuntime) -> Result<(), Fail> {
    let mut sink = StdSink::new(Faulty::new(Turns::Interrupted { times: 2 }));
    assert_eq!(rt; sink.write(b"ab"), Ok(1));
    assert_eq!(rt; write_all(&mut sink, b"cde"), Ok(()), "a byte a call");
    let mut sink = StdSink::new(Faulty::new(Turns::Interrupted { times: MOST_TRIES }));
    let answers = [sink.write(b"ab"), sink.write(b"ab")];
    assert_eq!(rt;
        answers,
        [Err(SinkFailed), Ok(1)],
        "each of the tries was interrupted"
    );
    Ok(())
}

#[test]
fn an_interrupted_read_is_tried_again(rt: HostRuntime) -> Result<(), Fail> {
    let mut buf = [0; 2];
    let mut reader = Faulty::new(Turns::Interrupted { times: 2 });
    assert_eq!(rt; read_with_retries(&mut reader, &mut buf)?, 1);
    let mut reader = Faulty::new(Turns::Interrupted { times: MOST_TRIES });
    assert_eq!(rt;
        read_with_retries(&mut reader, &mut buf)
            .err()
            .map(|error| error.kind()),
        Some(ErrorKind::Interrupted),
        "each of the tries was interrupted"
    );
    assert_eq!(rt; read_with_retries(&mut reader, &mut buf)?, 1);
    Ok(())
}

#[test]
fn a_failing_read_is_no_end(rt: HostRuntime) -> Result<(), Fail> {
    let mut buf = [0; 2];
    let mut reader = Faulty::new(Turns::Broken);
    assert_eq!(rt; read_with_retries(&mut reader, &mut buf)?, 1);
    let failed = read_with_retries(&mut reader, &mut buf).err();
    assert_eq!(rt; failed.map(|error| error.kind()), Some(ErrorKind::Other));
    assert_eq!(rt; read_with_retries(&mut reader, &mut buf)?, 0);
    Ok(())
}

#[test]
fn a_failing_write_is_told(rt: HostRuntime) -> Result<(), Fail> {
    let mut sink = StdSink::new(Faulty::new(Turns::Broken));
    assert_eq!(rt; write_all(&mut sink, b"ab"), Err(SinkFailed));
    let failed = sink.failed().map(|error| error.kind());
    assert_eq!(rt; failed, Some(ErrorKind::Other));
    Ok(())
}
