//! The cloud's elements: particles, their moves and their bytes.

ghost use Rattle.std.specs.Prelude.{◌≡◌, ◌+◌, ◌≤◌};
ghost use Rattle.det_values.specs.Limits.{IsSampleValue};
ghost use Rattle.jobs.specs.cloud.Meaning.{distance, coordinate_after, shown};
ghost use Rattle.jobs.specs.cloud.Ranges.{IsPlace};

use crate::cloud::Cloud;
use job_shared::FirstElement;

/// A particle: its number, and its coordinates, from -10^12 to 10^12.
#[derive(Clone, Copy, Debug, PartialEq, Eq, Drop)]
pub struct Particle {
    pub(crate) number: u32,
    pub(crate) x: i64,
    pub(crate) y: i64,
}

/// The place to which the particles move.
#[derive(Clone, Copy, Debug, PartialEq, Eq, Drop)]
pub struct Target {
    pub(crate) tx: i64,
    pub(crate) ty: i64,
}

impl FirstElement<Cloud> for Particle {
    ghost use Rattle.jobs.specs.cloud.Meaning.{first_particle};

    ghost first = { λ _ number. first_particle number };

    fn first_element(_cloud: &Cloud, number: u32) -> Particle {
        Particle { number, x: 0, y: 0 }
    }
}

/// The distance of a place from the target: the sum along both coordinates.
pub(crate) fn distance(target: Target, x: i64, y: i64) -> u64
    requires target { IsPlace target.tx target.ty }
    requires place { IsPlace x y }
    ensures distance { result ≡ distance target x y }
    ensures limits { result ≤ 4000000000000 }
{
    x.abs_diff(target.tx) + y.abs_diff(target.ty)
}

/// A coordinate after a step, clamped to -10^12 to 10^12.
pub(crate) fn coordinate_after(coordinate: i64, by: i64) -> i64
    requires coordinate { IsSampleValue coordinate }
    requires by { IsSampleValue by }
    ensures coordinate_after { result ≡ coordinate_after coordinate by }
    ensures limits { IsSampleValue result }
{
    (coordinate + by).clamp(-1_000_000_000_000, 1_000_000_000_000)
}

/// The number and the coordinates, in 20 bytes.
#[inline(always)]
pub(crate) fn particle_bytes(particle: &Particle) -> [u8; 20]
    ensures { result ≡ shown particle.now }
{
    let mut bytes = [0; 20];
    bytes[..4].copy_from_slice(&particle.number.to_be_bytes());
    bytes[4..12].copy_from_slice(&particle.x.to_be_bytes());
    bytes[12..].copy_from_slice(&particle.y.to_be_bytes());
    bytes
}
