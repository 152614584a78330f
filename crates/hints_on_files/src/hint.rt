//! `Hint`, what is wrong with a file, and its text.
use crate::parameters::ParameterRange;
use manifest::{Key, NeedKey};
use stimulus::Wanted;
use thiserror::Error;

/// What is wrong with a file that was refused. Frames are counted from 0, and cycles from 1.
#[derive(Clone, Copy, Debug, Drop, Error)]
pub enum Hint {
    #[error("a manifest has at most 65536 bytes")]
    LongManifest,
    /// The line, counted from 1, at which a manifest stops being TOML.
    #[error("line {0}")]
    Toml(usize),
    /// A key of a manifest whose value is missing, of another kind or out of range.
    #[error("{0}: {range}", range = key_range(*.0))]
    Key(Key),
    /// A parameter of a job, counted from 0, that is missing or outside its range.
    #[error("parameter {1} of {0}: {2}")]
    Parameter(&'static str, u8, ParameterRange),
    #[error("{0} has {1} parameters")]
    TooManyParameters(&'static str, u8),
    #[error("no job has the number {0}")]
    NoJob(u16),
    #[error("a stimulus has at most 1048576 bytes here")]
    LongStimulus,
    #[error("wanted: {0}")]
    Stimulus(Wanted),
    #[error("wanted: a line feed at the end")]
    NoLineFeed,
    #[error("in the header")]
    Header,
    /// The first byte of a frame, and the frames that may begin there.
    #[error("where frame {0} begins: {1}")]
    FrameBegin(u32, &'static str),
    #[error("in frame 2, Init")]
    Init,
    #[error("in frame {0}, the run of cycle {1}")]
    Run(u32, u32),
    #[error("behind frame {0}, Terminate")]
    AfterEnd(u32),
}

/// The kind and the range of a key's values.
fn key_range(key: Key) -> &'static str {
    match key {
        Key::Job => "bank, cloud or guard",
        Key::CycleTime => "a whole number, 1 to 9223372036854775807",
        Key::Workers => "a whole number, 1 to 64",
        Key::Params => "an array of at most 16",
        Key::Param(_) => "a whole number",
        Key::Event => "an array of at most 256",
        Key::EventName(_) => "a text, 1 to 32 of a to z, 0 to 9 and _",
        Key::EventCapacity(_) => "a whole number, 1 to 1024",
        Key::EventPolicy(_) => "last or fresh",
        Key::Platform => "a text of 1 to 64 printable characters",
        Key::EventItem(_) | Key::InitNeeds | Key::RunNeeds => "a table",
        Key::InitNeed(NeedKey::Speedup) | Key::RunNeed(NeedKey::Speedup) => {
            "a whole number, 1 to 1000000"
        }
        Key::InitNeed(_) | Key::RunNeed(_) => "a whole number, 0 to 9223372036854775807",
    }
}
