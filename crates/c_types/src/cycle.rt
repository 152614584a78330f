//! The parts of a cycle: its time, its samples, its elements, and its refusal.
ghost use Rattle.std.specs.Prelude.{◌≡◌, ◌≤◌, ◌↔◌, length, IsTrue, IfSome, IfNone};
ghost use Rattle.det_values.specs.Limits.{IsSampleValue};
ghost use Rattle.record_grammar.specs.Spelling.{IsSample};

use det_values::{Phase, RefusedAt, Sample};

/// A sample of an event. Events are numbered from 0.
#[repr(C)]
#[derive(Drop)]
pub struct DetSample {
    pub value: i64,
    pub event: u16,
}

/// An element and the number of random numbers that it drew. Its bytes are the first `len` of
/// `bytes`.
#[repr(C)]
#[derive(Drop)]
pub struct DetElement {
    pub bytes: [u8; 64],
    pub draws: u32,
    pub len: u8,
}

/// A time in nanoseconds, if it is known.
#[repr(C)]
#[derive(Drop)]
pub struct DetTime {
    pub time: u64,
    pub known: bool,
}

/// Where a cycle was refused, and the job's code. The phase is 0 for prepare, 1 for the pool and 2
/// for conclude.
#[repr(C)]
#[derive(Drop)]
pub struct DetRefusal {
    pub element: u32,
    pub code: u32,
    pub phase: u8,
    pub pass: u8,
}

impl DetSample {
    ghost use Rattle.c_types.specs.CValues.{sample_of};

    /// Whether the value is in its range and the event's number is below `events`.
    pub fn is_sample_of(&self, events: u16) -> bool
        ensures { IsTrue result ↔ IsSample events (sample_of self.now) }
    {
        self.event < events && -1_000_000_000_000 <= self.value && self.value <= 1_000_000_000_000
    }

    pub fn sample(&self) -> Sample
        requires { IsSampleValue self.now.value }
        ensures { result ≡ sample_of self.now }
    {
        Sample {
            event: self.event,
            value: self.value,
        }
    }

    /// The struct of a sample.
    pub fn from_sample(sample: Sample) -> DetSample
        ensures { sample_of result ≡ sample }
    {
        DetSample {
            value: sample.value,
            event: sample.event,
        }
    }
}

impl DetElement {
    ghost use Rattle.c_types.specs.CValues.{bytes_of};

    /// The bytes that are used.
    pub fn used_bytes(&self) -> &[u8]
        requires { self.now.len ≤ 64 }
        ensures bytes { result.now ≡ bytes_of self.now }
        ensures short { length result.now ≤ 64 }
    {
        &self.bytes[..usize::from(self.len)]
    }
}

impl DetTime {
    ghost use Rattle.c_types.specs.CValues.{time_of};

    pub fn time(&self) -> Option<u64>
        ensures { result ≡ time_of self.now }
    {
        if self.known { Some(self.time) } else { None }
    }

    /// The struct of a time. An unknown one is 0.
    pub fn from_time(time: Option<u64>) -> DetTime
        ensures { time_of result ≡ time }
    {
        match time {
            Some(time) => DetTime { time, known: true },
            None => DetTime {
                time: 0,
                known: false,
            },
        }
    }
}

impl DetRefusal {
    ghost use Rattle.c_types.specs.CValues.{place_of_refusal};
    ghost use Rattle.c_types.specs.Ranges.{IsSoundPlace};

    /// The place and the code. None if the place is out of its range.
    pub fn place(&self) -> Option<RefusedAt>
        ensures some { IfSome result (λ at. (at ≡ place_of_refusal self.now)
            × IsSoundPlace self.now) }
        ensures none { IfNone result (IsSoundPlace self.now → ⊥) }
    {
        let phase = match self.phase {
            0 if self.pass == 0 && self.element == 0 => Phase::Prepare,
            1 if self.pass < 8 && self.element < 65_536 => Phase::Pool,
            2 if self.pass == 0 && self.element == 0 => Phase::Conclude,
            _ => return None,
        };
        Some(RefusedAt {
            phase,
            pass: self.pass,
            element: self.element,
            code: self.code,
        })
    }

    /// The struct of a place and a code.
    pub fn from_place(at: RefusedAt) -> DetRefusal
        ensures { place_of_refusal result ≡ at }
    {
        let phase = match at.phase {
            Phase::Prepare => 0,
            Phase::Pool => 1,
            Phase::Conclude => 2,
        };
        DetRefusal {
            element: at.element,
            code: at.code,
            phase,
            pass: at.pass,
        }
    }
}
