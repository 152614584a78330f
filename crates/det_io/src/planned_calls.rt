//! Counts calls for the shelf and the sink in memory, and lets chosen ones fail.
ghost use Rattle.std.specs.Prelude.{◌≡◌, ◌+◌};
ghost use Rattle.det_io.specs.Count.{next_count};
ghost use Rattle.det_io.specs.PlannedCalls.{is_listed};

use det_values::Limited;

/// The numbers, counted from 1, of the calls that are to fail.
pub type FailList = Limited<u64, 1048576>;

/// The number of calls made, and the calls that are to fail. The count saturates.
#[derive(Drop)]
pub struct PlannedCalls {
    pub fails: FailList,
    pub made: u64,
}

/// Whether the next call is to fail. Past the last u64 no call is.
fn is_next_call_listed(fails: &[u64], made: u64) -> bool
    ensures { result ≡ is_listed fails.now (made + 1) }
{
    match made.checked_add(1) {
        Some(number) => fails.contains(&number),
        None => false,
    }
}

impl PlannedCalls {
    /// Counts a call and returns whether it is to fail.
    pub fn next_fails(&mut self) -> bool
        ensures fails { result ≡ is_listed self.old.fails (self.old.made + 1) }
        ensures counted { self.new.made ≡ next_count self.old.made }
        ensures list { self.new.fails ≡ self.old.fails }
    {
        let fails = is_next_call_listed(self.fails.as_slice(), self.made);
        self.made = self.made.saturating_add(1);
        fails
    }
}
