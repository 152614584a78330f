//! The cloud's parts: the particle nearest to the target, and the output made of it.

ghost use Rattle.std.specs.Prelude.{◌≡◌, IfOk};
ghost use Rattle.jobs.specs.cloud.Meaning.{best_of, is_better, is_far, output};
ghost use Rattle.jobs.specs.cloud.Ranges.{IsPlace, IsBestOf};

use crate::cloud::particle::distance;
use crate::cloud::{Particle, Target};
use det_values::Bytes;
use job_shared::{Joinable, empty_output};
use std::alloc::{AllocError, Global};

/// The best particle: its distance from the target, its number, and its coordinates.
#[derive(Clone, Copy, Debug, PartialEq, Eq, Drop)]
pub struct Best {
    pub(crate) distance: u64,
    pub(crate) number: u32,
    pub(crate) x: i64,
    pub(crate) y: i64,
}

/// The part of one particle.
#[inline(always)]
pub(crate) fn best_of(target: Target, particle: Particle) -> Best
    requires target { IsPlace target.tx target.ty }
    requires place { IsPlace particle.x particle.y }
    ensures best { result ≡ best_of target particle }
    ensures one { IsBestOf result 1 }
{
    Best {
        distance: distance(target, particle.x, particle.y),
        number: particle.number,
        x: particle.x,
        y: particle.y,
    }
}

/// Whether a particle is better than another: nearer, or as near and of a lesser number.
#[inline(always)]
fn is_better(best: Best, other: Best) -> bool
    ensures { result ≡ is_better best other }
{
    best.distance < other.distance
        || (best.distance == other.distance && best.number < other.number)
}

impl Joinable for Best {
    ghost use Rattle.jobs.specs.cloud.Meaning.{better};
    ghost use Rattle.jobs.specs.cloud.Ranges.{IsBestOf};

    ghost both = { better };

    ghost IsOf = { IsBestOf };

    /// The better one; the left one if neither is better.
    #[inline(always)]
    fn join(self, right: Best) -> Best {
        if is_better(right, self) { right } else { self }
    }
}

/// Whether the best particle is farther from the target than allowed.
pub(crate) fn is_far(far: u64, part: Option<Best>) -> bool
    ensures { result ≡ is_far far part }
{
    match part {
        Some(best) => best.distance > far,
        None => false,
    }
}

/// The best particle's number, coordinates and distance, and the number of finished cycles, in 32
/// bytes. Without a particle the first four are 0.
pub(crate) fn output(
    part: Option<Best>,
    finished: u32,
    alloc: Global,
    spare: &mut Option<Bytes>,
) -> Result<Bytes, AllocError>
    ensures { IfOk result (λ bytes. bytes ≡ output part finished) }
{
    let best = match part {
        Some(best) => best,
        None => Best {
            distance: 0,
            number: 0,
            x: 0,
            y: 0,
        },
    };
    let mut bytes = empty_output(alloc, spare, 32)?;
    bytes.extend_from_slice(&best.number.to_be_bytes())?;
    bytes.extend_from_slice(&best.x.to_be_bytes())?;
    bytes.extend_from_slice(&best.y.to_be_bytes())?;
    bytes.extend_from_slice(&best.distance.to_be_bytes())?;
    bytes.extend_from_slice(&finished.to_be_bytes())?;
    Ok(bytes)
}
