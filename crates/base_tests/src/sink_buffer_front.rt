//! Tests of `Front`: which pieces it holds, and when it writes them.
use det_io::sink_buffer::{Front, Gather, buffer_room};
use det_io::{FailList, MemSink, SinkFailed};
use std::test::Fail;

/// The number of pieces of ten bytes that a buffer holds. Six more bytes have room.
const PIECES: u32 = 6_553;

fn fill(front: &mut Front<'_, '_, MemSink>) -> Result<(), SinkFailed> {
    for _ in 0..PIECES {
        front.gather(b"0123456789")?;
    }
    Ok(())
}

#[test]
fn short_pieces_are_held(rt: HostRuntime) -> Result<(), Fail> {
    let mut sink = MemSink::new(rt.alloc(), 100_000, 100_000, FailList::new(rt.alloc()))?;
    let mut room = buffer_room(rt.alloc())?;
    let mut front = Front::new(&mut sink, &mut room);
    assert_eq!(rt; front.gather(b"ab"), Ok(2));
    assert_eq!(rt; front.gather(b"cde"), Ok(3));
    let Front { sink, held } = front;
    assert_eq!(rt; sink.bytes(), b"".as_slice());
    assert_eq!(rt; held.as_slice(), b"abcde".as_slice());
    Ok(())
}

#[test]
fn a_full_buffer_goes_on_in_one_write(rt: HostRuntime) -> Result<(), Fail> {
    let mut sink = MemSink::new(rt.alloc(), 100_000, 65_536, FailList::new(rt.alloc()))?;
    let mut room = buffer_room(rt.alloc())?;
    let mut front = Front::new(&mut sink, &mut room);
    fill(&mut front)?;
    assert_eq!(rt; front.gather(b"0123456789"), Ok(6));
    let Front { sink, held } = front;
    assert_eq!(rt; sink.bytes().len(), 65_536);
    assert!(rt; held.is_empty());
    Ok(())
}

#[test]
fn what_the_sink_leaves_stays_held(rt: HostRuntime) -> Result<(), Fail> {
    let mut sink = MemSink::new(rt.alloc(), 100_000, 7, FailList::new(rt.alloc()))?;
    let mut room = buffer_room(rt.alloc())?;
    let mut front = Front::new(&mut sink, &mut room);
    fill(&mut front)?;
    assert_eq!(rt; front.gather(b"0123456789"), Ok(6));
    let Front { sink, held } = front;
    assert_eq!(rt; sink.bytes(), b"0123456".as_slice());
    assert_eq!(rt; held.len(), 65_529);
    assert_eq!(rt; &held.as_slice()[..5], b"78901".as_slice());
    Ok(())
}

#[test]
fn a_failed_write_loses_nothing(rt: HostRuntime) -> Result<(), Fail> {
    let mut fails = FailList::new(rt.alloc());
    fails.push(1)?;
    let mut sink = MemSink::new(rt.alloc(), 100_000, 100_000, fails)?;
    let mut room = buffer_room(rt.alloc())?;
    let mut front = Front::new(&mut sink, &mut room);
    fill(&mut front)?;
    assert_eq!(rt; front.gather(b"0123456789"), Err(SinkFailed));
    assert_eq!(rt; front.gather(b"abcdefghij"), Ok(6));
    let Front { sink, held } = front;
    assert_eq!(rt; sink.bytes().len(), 65_536);
    assert_eq!(rt; &sink.bytes()[65_524..], b"456789abcdef".as_slice());
    assert!(rt; held.is_empty());
    Ok(())
}

#[test]
fn a_long_piece_is_not_held(rt: HostRuntime) -> Result<(), Fail> {
    let mut sink = MemSink::new(rt.alloc(), 100_000, 100_000, FailList::new(rt.alloc()))?;
    let mut room = buffer_room(rt.alloc())?;
    let mut front = Front::new(&mut sink, &mut room);
    assert_eq!(rt; front.gather(&[1; 4_096]), Ok(4_096));
    assert_eq!(rt; front.gather(b"ab"), Ok(2));
    assert_eq!(rt; front.gather(&[2; 4_096]), Ok(4_096));
    let Front { sink, held } = front;
    assert_eq!(rt; sink.bytes().len(), 8_194);
    assert_eq!(rt; &sink.bytes()[4_095..4_099], [1, b'a', b'b', 2].as_slice());
    assert!(rt; held.is_empty());
    Ok(())
}
