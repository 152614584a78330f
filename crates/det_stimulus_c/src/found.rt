//! What a step finds, and how it is reported to C.
ghost use Rattle.std.specs.Prelude.{◌≡◌};
ghost use Rattle.c_types.specs.CValues.{time_of, sample_of};
ghost use Rattle.det_stimulus_c.specs.Steps.{number_of, taken_of, Says};

use c_types::{DetSample, DetTime};
use det_values::Sample;
use stimulus::parse_line::Line;

/// What some bytes begin with.
#[derive(Clone, Copy, Drop)]
pub enum Found {
    /// No whole line.
    More,
    /// A good line, and its number of bytes with its LF.
    Good(Line, usize),
    Bad,
}

/// What a step found: a time, or a sample, and the number of bytes that it took.
#[repr(C)]
#[derive(Drop)]
pub struct DetStimulusStep {
    pub time: DetTime,
    pub sample: DetSample,
    pub taken: usize,
}

impl Found {
    /// 0 for more bytes, 1 for the first line, 2 for a block, 3 for a sample, 4 for the end, and 5
    /// for a bad line.
    pub(crate) fn number(&self) -> u8
        ensures { result ≡ number_of self.now }
    {
        match self {
            Found::More => 0,
            Found::Good(Line::Stim, _) => 1,
            Found::Good(Line::Cycle(_), _) => 2,
            Found::Good(Line::Sample(_), _) => 3,
            Found::Good(Line::Terminate, _) => 4,
            Found::Bad => 5,
        }
    }

    /// The step, with 0 in each field that isn't reported.
    pub(crate) fn step(&self) -> DetStimulusStep
        ensures taken { result.taken ≡ taken_of self.now }
        ensures says { Says self.now result }
    {
        match *self {
            Found::Good(Line::Cycle(time), taken) => in_step(time, NO_SAMPLE, taken),
            Found::Good(Line::Sample(sample), taken) => in_step(None, sample, taken),
            Found::Good(_, taken) => in_step(None, NO_SAMPLE, taken),
            _ => in_step(None, NO_SAMPLE, 0),
        }
    }
}

const NO_SAMPLE: Sample = Sample { event: 0, value: 0 };

fn in_step(time: Option<u64>, sample: Sample, taken: usize) -> DetStimulusStep
    ensures taken { result.taken ≡ taken }
    ensures time { time_of result.time ≡ time }
    ensures sample { sample_of result.sample ≡ sample }
{
    DetStimulusStep {
        time: DetTime::from_time(time),
        sample: DetSample::from_sample(sample),
        taken,
    }
}
