//! The shipped jobs by number and by name. The jobs themselves are in the crate `jobs`.
ghost use Rattle.std.specs.Prelude.{◌≡◌};
ghost use Rattle.det_values.specs.Jobs.{number_of_kind, kind_of_number, kind_of_name};

/// A shipped job: a filter bank, a particle cloud, a guard of channels.
#[derive(Clone, Copy, Debug, PartialEq, Eq, Drop)]
pub enum JobKind {
    Bank,
    Cloud,
    Guard,
}

impl JobKind {
    /// The job's number in a profile.
    pub fn number(&self) -> u16
        ensures { result ≡ number_of_kind self.now }
    {
        match self {
            JobKind::Bank => 1,
            JobKind::Cloud => 2,
            JobKind::Guard => 3,
        }
    }

    /// The job with this number, or None if no shipped job has it.
    pub fn from_number(number: u16) -> Option<JobKind>
        ensures { result ≡ kind_of_number number }
    {
        match number {
            1 => Some(JobKind::Bank),
            2 => Some(JobKind::Cloud),
            3 => Some(JobKind::Guard),
            _ => None,
        }
    }

    /// The job with this name in a manifest, or None if no shipped job has it.
    pub fn from_name(name: &str) -> Option<JobKind>
        ensures { result ≡ kind_of_name name.now }
    {
        match name {
            "bank" => Some(JobKind::Bank),
            "cloud" => Some(JobKind::Cloud),
            "guard" => Some(JobKind::Guard),
            _ => None,
        }
    }
}
