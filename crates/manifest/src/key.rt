//! The keys of a manifest.
ghost use Rattle.std.specs.Prelude.{◌≡◌, ◌≤◌, length};
ghost use Rattle.manifest.specs.Keys.{need_word};
ghost use Rattle.manifest.specs.KeyReaders.{need_least, need_most};
ghost use Rattle.manifest.specs.KeyTexts.{key_text};

use crate::KeyText;
use std::fmt;
use std::fmt::{Display, Formatter, Write};

/// A key of a table of needs.
#[derive(Clone, Copy, Debug, PartialEq, Eq, Drop)]
pub enum NeedKey {
    Instructions,
    SequentialBegin,
    SequentialEnd,
    Speedup,
}

impl NeedKey {
    pub(crate) fn word(self) -> &'static str
        ensures word { result.now ≡ need_word self }
        ensures short { length result.now ≤ 19 }
    {
        match self {
            NeedKey::Instructions => "instructions",
            NeedKey::SequentialBegin => "sequential_begin",
            NeedKey::SequentialEnd => "sequential_end",
            NeedKey::Speedup => "speedup_thousandths",
        }
    }

    /// The least number that the key may have.
    pub(crate) fn least(self) -> u64
        ensures { result ≡ need_least self }
    {
        match self {
            NeedKey::Speedup => 1,
            _ => 0,
        }
    }

    /// The greatest number that the key may have.
    pub(crate) fn most(self) -> u64
        ensures { result ≡ need_most self }
    {
        match self {
            NeedKey::Speedup => 1_000_000,
            _ => i64::MAX as u64,
        }
    }
}

/// A place in a manifest. Parameters and events are numbered from 0.
#[derive(Clone, Copy, Debug, PartialEq, Eq, Drop)]
pub enum Key {
    Job,
    CycleTime,
    Workers,
    Params,
    Param(u16),
    Event,
    EventItem(u16),
    EventName(u16),
    EventCapacity(u16),
    EventPolicy(u16),
    Platform,
    InitNeeds,
    InitNeed(NeedKey),
    RunNeeds,
    RunNeed(NeedKey),
}

impl Key {
    /// The text of the key: keywords and numbers with dots between them, as in `event.3.capacity`.
    /// It takes no memory.
    pub fn text(&self) -> KeyText
        ensures { result ≡ key_text self.now }
    {
        match *self {
            Key::Job => KeyText::new("job"),
            Key::CycleTime => KeyText::new("cycle_time_ns"),
            Key::Workers => KeyText::new("workers"),
            Key::Params => KeyText::new("params"),
            Key::Param(n) => KeyText::new("params").item(n),
            Key::Event => KeyText::new("event"),
            Key::EventItem(n) => KeyText::new("event").item(n),
            Key::EventName(n) => KeyText::new("event").item(n).member("name"),
            Key::EventCapacity(n) => KeyText::new("event").item(n).member("capacity"),
            Key::EventPolicy(n) => KeyText::new("event").item(n).member("policy"),
            Key::Platform => KeyText::new("platform"),
            Key::InitNeeds => KeyText::new("init_needs"),
            Key::InitNeed(need) => KeyText::new("init_needs").member(need.word()),
            Key::RunNeeds => KeyText::new("run_needs"),
            Key::RunNeed(need) => KeyText::new("run_needs").member(need.word()),
        }
    }
}

impl Display for Key {
    ghost use Rattle.std.specs.Prelude.{Some};

    ghost output = { λ key. Some (key_text key) };

    fn fmt<W: Write>(&self, f: &mut Formatter<W>) -> fmt::Result {
        f.pad(self.text().as_str())
    }
}
