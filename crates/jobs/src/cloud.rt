//! The particle cloud, whose particles step at random and move towards the best of them.
//!
//! The newest samples of events 0 and 1 are the target's coordinates. In pass 0 each particle makes
//! a random step inside a circle. In pass 1 most particles move an eighth of the way towards the
//! one that was nearest to the target. A negative newest sample of event 2 refuses the cycle. The
//! parameter `reseed` sets after how many cycles the job draws a new seed.

mod best;
mod cloud;
mod cloud_job;
mod particle;
mod steps;

pub use best::Best;
pub use cloud::Cloud;
pub use cloud_job::Finished;
pub use particle::{Particle, Target};
