//! `ElementLayout`, which numbers lie in the elements of a record.
ghost use Rattle.std.specs.Prelude.{◌≡◌};
ghost use Rattle.record_json.specs.Elements.{layout_by, layout_of, length_of};

use det_values::{JobKind, Profile};

/// Which numbers lie in an element. They are big-endian, one behind another.
#[derive(Clone, Copy, Debug, PartialEq, Eq, Drop)]
pub enum ElementLayout {
    /// Those of a job that isn't built in.
    Unknown,
    /// The level of a channel of the bank, with fewer than two events: an i64.
    Level,
    /// The event and the level of a channel of the bank: a u16 and an i64.
    Channel,
    /// The number and the place of a particle of the cloud: a u32 and two i64.
    Particle,
    /// The number, the value and the streak of a channel of the guard: a u32, an i64 and a u16.
    Guarded,
}

fn layout_by(job: Option<JobKind>, events: usize) -> ElementLayout
    ensures { result ≡ layout_by job events }
{
    match job {
        Some(JobKind::Bank) if events >= 2 => ElementLayout::Channel,
        Some(JobKind::Bank) => ElementLayout::Level,
        Some(JobKind::Cloud) => ElementLayout::Particle,
        Some(JobKind::Guard) => ElementLayout::Guarded,
        None => ElementLayout::Unknown,
    }
}

impl ElementLayout {
    /// The layout of the elements of the job in a header.
    pub fn of(profile: &Profile) -> ElementLayout
        ensures { result ≡ layout_of profile.now }
    {
        layout_by(
            JobKind::from_number(profile.job),
            profile.events.as_slice().len(),
        )
    }

    /// The length in bytes of an element with these numbers, or None if none are known.
    pub(crate) fn length(self) -> Option<usize>
        ensures { result ≡ length_of self }
    {
        match self {
            ElementLayout::Unknown => None,
            ElementLayout::Level => Some(8),
            ElementLayout::Channel => Some(10),
            ElementLayout::Particle => Some(20),
            ElementLayout::Guarded => Some(14),
        }
    }
}
