//! The implementation of `Job` for `Cloud`.

ghost use Rattle.std.specs.Prelude.{◌≡◌, ℕ, ◌≤◌, ◌%◌, ◌==◌};
ghost use Rattle.det_client.specs.element_random.RandomStreams.{StandsFor, key, word};
ghost use Rattle.det_client.specs.State.{OwnAt, SameButSeed};
ghost use Rattle.job.specs.event_cache.Rings.{windows};
ghost use Rattle.job_shared.specs.Samples.{newest_sample};
ghost use Rattle.job.specs.Laws.{CoversSome};
ghost use Rattle.jobs.specs.cloud.Meaning.{is_held, target_of, seed_of, particle_after_step};
ghost use Rattle.jobs.specs.cloud.Meaning.{particle_after_pull};
ghost use Rattle.jobs.specs.cloud.Steps.{landing, step_of, words_drawn};
ghost use Rattle.job_shared.specs.Parts.{covers_by};
ghost use Rattle.jobs.specs.cloud.Ranges.{IsPlace, Own, IsBestOf};

use crate::cloud::best::{best_of, is_far, output};
use crate::cloud::particle::{coordinate_after, particle_bytes};
use crate::cloud::steps::random_step;
use crate::cloud::{Best, Cloud, Particle, Target};
use det_client::Client;
use det_client::element_random::ElementRandom;
use det_values::{Bytes, Container, Params};
use job::event_cache::EventCache;
use job::{BadParam, Conclusion, Job, JobFault, JobStart};
use job_shared::{
    first_elements, join_parts, natural_param, newest_sample, no_more_params, put_drawn_bytes,
    step_towards, wide_param,
};
use std::alloc::{AllocError, Global};

/// The number of finished cycles. It saturates at `u32::MAX`.
#[derive(Clone, Copy, Debug, PartialEq, Eq, Drop)]
pub struct Finished {
    pub(crate) cycles: u32,
}

/// Whether the newest sample of event 2 refuses the cycle.
fn is_held(cache: &EventCache) -> bool
    ensures { result ≡ is_held (newest_sample (windows cache.now) 2) }
{
    match newest_sample(cache, 2) {
        Some(hold) => hold < 0,
        None => false,
    }
}

/// The target, from the newest samples of events 0 and 1. A coordinate without a sample is 0.
fn target_of(cache: &EventCache) -> Target
    ensures target { result ≡ target_of (windows cache.now) }
    ensures limits { IsPlace result.tx result.ty }
{
    Target {
        tx: newest_sample(cache, 0).unwrap_or(0),
        ty: newest_sample(cache, 1).unwrap_or(0),
    }
}

/// Draws a new seed in the cycles that need one.
fn draw_new_seed(cloud: &Cloud, client: &mut Client)
    requires { OwnAt client.old 0 }
    ensures seed { client.new.seed ≡ seed_of cloud.now client.old.seed client.old.cycle }
    ensures same { SameButSeed client.old client.new }
{
    if cloud.reseeds(client.cycle()) {
        let seed = client.get_random();
        client.set_random_seed(seed);
    }
}

/// A particle after a random step.
fn particle_after_step(cloud: &Cloud, particle: &Particle, random: &mut ElementRandom) -> Particle
    requires { Own cloud.now particle.now }
    ensures particle { let spread = cloud.now.spread in
        (key : ℕ) → StandsFor random.old key 0
        → result ≡ particle_after_step particle.now (step_of spread key (landing spread key)) }
    ensures draws { let spread = cloud.now.spread in
        (key : ℕ) → StandsFor random.old key 0
        → random.new.draws ≡ words_drawn (landing spread key) }
    ensures own { Own cloud.now result }
{
    let step = random_step(cloud.spread, random);
    Particle {
        number: particle.number,
        x: coordinate_after(particle.x, step.dx),
        y: coordinate_after(particle.y, step.dy),
    }
}

/// A particle after pass 1: one of eight random numbers leaves it, the others pull it to the best
/// one.
fn particle_after_pull(
    cloud: &Cloud,
    carry: Option<Best>,
    particle: &Particle,
    random: &mut ElementRandom,
) -> Particle
    requires own { Own cloud.now particle.now }
    requires carry { CoversSome (covers_by IsBestOf) carry }
    ensures particle { (key : ℕ) → StandsFor random.old key 0
        → result ≡ particle_after_pull carry particle.now (word key 0) }
    ensures draws { (key : ℕ) → StandsFor random.old key 0 → random.new.draws ≡ 1 }
    ensures own { Own cloud.now result }
{
    let word = random.get_random();
    match carry {
        None => *particle,
        Some(best) => {
            if word % 8 == 0 {
                *particle
            } else {
                Particle {
                    number: particle.number,
                    x: step_towards(particle.x, best.x, 3),
                    y: step_towards(particle.y, best.y, 3),
                }
            }
        }
    }
}

impl Job for Cloud {
    ghost use Rattle.jobs.specs.cloud.Meaning.{meaning};
    ghost use Rattle.jobs.specs.cloud.Ranges.{Covers, Own, Fit};
    ghost use Rattle.jobs.specs.cloud.Laws.{cloud_laws};

    type Globals = Finished;

    type Element = Particle;

    type Plan = Target;

    /// None for no particle.
    type Part = Option<Best>;

    ghost meaning = { meaning };

    ghost Covers = { Covers };

    ghost Own = { Own };

    ghost Fit = { Fit };

    ghost laws = { cloud_laws };

    fn make(params: &Params, events: u16) -> Result<Cloud, BadParam> {
        let params = params.as_slice();
        let particles = natural_param(params, 0, 1, 65536)?;
        let spread = natural_param(params, 1, 1, 1_000_000)?;
        let reseed = natural_param(params, 2, 0, 1_000_000)?;
        let far = wide_param(params, 3, 0, 4_000_000_000_000)?;
        no_more_params(params, 4)?;
        Ok(Cloud {
            particles,
            spread,
            reseed,
            far,
            events,
        })
    }

    fn start(
        &self,
        alloc: Global,
        _client: &mut Client,
    ) -> Result<JobStart<Finished, Particle>, AllocError> {
        Ok(JobStart {
            globals: Finished { cycles: 0 },
            elements: first_elements(alloc, self, self.particles)?,
        })
    }

    fn prepare(
        &self,
        _alloc: Global,
        _globals: &Finished,
        _elements: &Container<Particle>,
        cache: &EventCache,
        client: &mut Client,
        _spare: &mut Option<Target>,
    ) -> Result<Target, JobFault> {
        if is_held(cache) {
            return Err(JobFault::Code(1));
        }
        draw_new_seed(self, client);
        Ok(target_of(cache))
    }

    fn passes(&self, _plan: &Target) -> u8 {
        2
    }

    fn unit(&self, _alloc: Global, _spare: &mut Option<Option<Best>>) -> Option<Best> {
        None
    }

    #[inline(always)]
    fn run(
        &self,
        _alloc: Global,
        plan: &Target,
        carry: &Option<Best>,
        pass: u8,
        element: &Particle,
        random: &mut ElementRandom,
        part: &mut Option<Best>,
    ) -> Result<Particle, JobFault> {
        let particle = if pass == 0 {
            particle_after_step(self, element, random)
        } else {
            particle_after_pull(self, *carry, element, random)
        };
        *part = join_parts(*part, Some(best_of(*plan, particle)));
        Ok(particle)
    }

    #[inline(always)]
    #[tactic(auto, using(crate::specs::cloud::Laws::parts_joined))]
    fn merge(&self, left: &mut Option<Best>, right: &mut Option<Best>) -> Result<(), AllocError> {
        *left = join_parts(*left, *right);
        Ok(())
    }

    #[inline(always)]
    fn put_element(&self, element: &Particle, out: &mut Vec<u8>) -> Result<(), AllocError> {
        Ok(out.extend_from_slice(&particle_bytes(element))?)
    }

    #[inline(always)]
    fn put_drawn(
        &self,
        element: &Particle,
        draws: u32,
        out: &mut Vec<u8>,
    ) -> Result<(), AllocError> {
        put_drawn_bytes(&particle_bytes(element), draws, out)
    }

    fn conclude(
        &self,
        alloc: Global,
        globals: &Finished,
        _plan: &Target,
        part: &Option<Best>,
        spare: &mut Option<Bytes>,
    ) -> Result<Conclusion<Finished>, JobFault> {
        if is_far(self.far, *part) {
            return Err(JobFault::Code(2));
        }
        let cycles = globals.cycles.saturating_add(1);
        Ok(Conclusion {
            globals: Finished { cycles },
            output: output(*part, cycles, alloc, spare)?,
        })
    }
}
