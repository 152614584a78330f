//! The audience of a record: the probes that see its runs.
ghost use Rattle.std.specs.Prelude.{◌≤◌, ◌+◌, ◌*◌, length};
ghost use Rattle.std.specs.Vec.{vec_len};

use crate::probe::Probe;
use crate::probe_list::{finish_all, show_to_probes};
use det_values::{Bytes, RunFrame};
use std::alloc::{AllocError, Global};

/// Probes that see the runs of a record, and the reports of those that have left.
///
/// Contracts see an audience through the function `seen` and not through `Model`. A probe's life is
/// a function, which the value of a model may not hold.
#[derive(Drop)]
pub struct Audience {
    remaining: Vec<Box<dyn Probe>>,
    left: Bytes,
    ghost room: { length left + 256 * vec_len remaining ≤ 1048576 },
}

impl Audience {
    ghost use Rattle.std.specs.Prelude.{◌≡◌, ◌≤◌, ◌∷◌, [], map, length, OnOk, OnErr};
    ghost use Rattle.std.specs.Vec.{vec_len};
    ghost use Rattle.probes.specs.Reports.{reported};
    ghost use Rattle.probes.specs.Shows.{Shows, ShowsPartly, seen};

    /// An audience of these probes, in this order.
    pub fn new(alloc: Global, probes: Vec<Box<dyn Probe>>) -> Audience
        requires { vec_len probes ≤ 1024 }
        ensures { seen (λ b. life b) result
            ≡ record { seeing = map (λ b. life b) probes.items; left = [] } }
    {
        Audience {
            remaining: probes,
            left: Bytes::new(alloc),
        }
    }

    /// Shows a run to each probe, in order. The report of a probe that leaves is appended to the
    /// reports, and the other probes keep their order. After an error only a part of the probes has
    /// seen the run.
    pub fn show(&mut self, alloc: Global, run: &RunFrame) -> Result<(), AllocError>
        ensures shown { OnOk result
            (Shows (seen (λ b. life b) self.old) (seen (λ b. life b) self.new) (run.now ∷ [])) }
        ensures partly { OnErr result
            (ShowsPartly (seen (λ b. life b) self.old) (seen (λ b. life b) self.new) run.now) }
    {
        show_to_probes(alloc, &mut self.remaining, &mut self.left, run)
    }

    /// Appends the reports of all probes that are left, in order, and drops the probes. After an
    /// error only some reports were appended.
    pub fn finish(&mut self, alloc: Global) -> Result<(), AllocError>
        ensures left { OnOk result ((seen (λ b. life b) self.new).left
            ≡ reported (seen (λ b. life b) self.old) []) }
        ensures none { (seen (λ b. life b) self.new).seeing ≡ [] }
    {
        finish_all(alloc, &mut self.remaining, &mut self.left)
    }

    /// The number of probes that haven't left.
    pub fn remaining(&self) -> usize
        ensures { result ≡ length (seen (λ b. life b) self.now).seeing }
    {
        self.remaining.len()
    }

    /// The reports so far, one after another.
    pub fn reports(&self) -> &[u8]
        ensures { result.now ≡ (seen (λ b. life b) self.now).left }
    {
        self.left.as_slice()
    }
}
