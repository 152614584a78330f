//! A sink in memory for tests, which fails at chosen calls.
ghost use Rattle.std.specs.Prelude.{◌≡◌, ◌<◌, ◌≤◌, vec_len, vec_capacity};

use crate::planned_calls::PlannedCalls;
use crate::{FailList, Sink, SinkFailed};
use std::alloc::{AllocError, Global};

/// A sink that keeps the bytes it takes, for tests. `write` allocates nothing: all room is taken at
/// the start.
#[derive(Drop)]
pub struct MemSink {
    bytes: Vec<u8>,
    room: usize,
    most: usize,
    calls: PlannedCalls,
    faults: u64,
    ghost within: { vec_len bytes ≤ room },
    ghost has_room: { room ≤ vec_capacity bytes },
    ghost moves: { 0 < most },
}

impl MemSink {
    ghost use Rattle.std.specs.Prelude.{◌≡◌, ◌<◌, IfOk};
    ghost use Rattle.det_io.specs.MemSink.{sink_bytes, IsNewMemSink};

    /// A sink with room for `room` bytes, which takes at most `most` bytes a write. Writes are
    /// counted from 1, and fail if `fails` lists their number.
    pub fn new(
        alloc: Global,
        room: usize,
        most: usize,
        fails: FailList,
    ) -> Result<MemSink, AllocError>
        requires { 0 < most }
        ensures { IfOk result (λ sink. IsNewMemSink sink
            (record { room = room; most = most; fails = fails })) }
    {
        Ok(MemSink {
            bytes: Vec::with_capacity(alloc, room)?,
            room,
            most,
            calls: PlannedCalls { fails, made: 0 },
            faults: 0,
        })
    }

    /// The bytes that it took.
    pub fn bytes(&self) -> &[u8]
        ensures { result.now ≡ sink_bytes self.now }
    {
        self.bytes.as_slice()
    }
}

impl Sink for MemSink {
    ghost use Rattle.std.specs.Prelude.{◌≡◌, ◌<◌, ◌≤◌, length, take, IfOk, OnErr};
    ghost use Rattle.std.specs.Result.{is_err};
    ghost use Rattle.det_io.specs.Count.{Rose, next_count};
    ghost use Rattle.det_io.specs.Sink.{Grew, Same};
    ghost use Rattle.det_io.specs.MemSink.{SinkTook, sink_faults, sink_setup, sink_calls};
    ghost use Rattle.det_io.specs.MemSink.{write_fails, amount_taken};

    ghost took = { SinkTook };

    ghost faults = { sink_faults };

    fn write(&mut self, piece: &[u8]) -> Result<usize, SinkFailed>
        ensures within { IfOk result (λ n. n ≤ length piece.now) }
        ensures some { IfOk result (λ n. 0 < length piece.now → 0 < n) }
        ensures taken { IfOk result (λ n. Grew (SinkTook self.old) (SinkTook self.new)
            (take n piece.now)) }
        ensures none { OnErr result (Same (SinkTook self.old) (SinkTook self.new)) }
        ensures cause { OnErr result (Rose (sink_faults self.old) (sink_faults self.new)) }
        ensures counted { sink_faults self.old ≤ sink_faults self.new }

        ensures fails { is_err result ≡ write_fails self.old piece.now }
        ensures amount { IfOk result (λ n. n ≡ amount_taken self.old piece.now) }
        ensures setup { sink_setup self.new ≡ sink_setup self.old }
        ensures calls { sink_calls self.new ≡ next_count (sink_calls self.old) }
    {
        let is_to_fail = self.calls.next_fails();
        let is_full = self.bytes.len() == self.room && !piece.is_empty();
        if is_to_fail || is_full {
            self.faults = self.faults.saturating_add(1);
            return Err(SinkFailed);
        }
        let n = piece.len().min(self.most).min(self.room - self.bytes.len());
        match self.bytes.extend_from_slice(&piece[..n]) {
            Ok(()) => Ok(n),
            Err(_) => unreachable!(),
        }
    }
}
