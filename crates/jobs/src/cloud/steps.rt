//! Random steps inside a circle, by rejection.

ghost use Rattle.std.specs.Prelude.{◌≡◌, ℕ, ℤ, ◌+◌, ◌*◌, ◌≤◌, ◌*ℤ◌, ◌≤ℤ◌, pos, unsigned_abs};
ghost use Rattle.det_client.specs.element_random.RandomStreams.{StandsFor, word};
ghost use Rattle.jobs.specs.cloud.Steps.{offset, lands, try_of, step_of, landing, words_drawn};
ghost use Rattle.jobs.specs.cloud.Steps.{IsStep};

use det_client::element_random::ElementRandom;

/// The move of a particle along both coordinates.
#[derive(Clone, Copy, Debug, PartialEq, Eq, Drop)]
pub(crate) struct Step {
    pub(crate) dx: i64,
    pub(crate) dy: i64,
}

/// A number from -spread to spread, from a random number of 64 bits.
fn offset(spread: u32, word: u64) -> i64
    requires { spread ≤ 1000000 }
    ensures offset { result ≡ offset spread word }
    ensures limits { unsigned_abs result ≤ 1000000 }
{
    (word % (2 * u64::from(spread) + 1)) as i64 - i64::from(spread)
}

/// The square of a small number.
fn squared(number: i64) -> i64
    requires { unsigned_abs number ≤ 1000000 }
    ensures square { result ≡ number *ℤ number }
    ensures least { pos 0 ≤ℤ result }
    ensures most { result ≤ℤ pos 1000000000000 }
{
    number * number
}

/// Whether a step ends inside the circle.
fn lands(spread: u32, step: Step) -> bool
    requires spread { spread ≤ 1000000 }
    requires step { IsStep step }
    ensures { result ≡ lands spread step }
{
    squared(step.dx) + squared(step.dy) <= squared(i64::from(spread))
}

/// A step from the next two random numbers.
fn try_step(spread: u32, random: &mut ElementRandom) -> Step
    requires { spread ≤ 1000000 }
    ensures step { (key n : ℕ) → StandsFor random.old key n → result ≡ try_of spread key n }
    ensures goes_on { (key n : ℕ) → StandsFor random.old key n → StandsFor random.new key (n + 2) }
    ensures limits { IsStep result }
{
    let first = random.get_random();
    let second = random.get_random();
    Step {
        dx: offset(spread, first),
        dy: offset(spread, second),
    }
}

/// The first of at most 8 tries that ends inside the circle, or no move if none does.
pub(crate) fn random_step(spread: u32, random: &mut ElementRandom) -> Step
    requires { spread ≤ 1000000 }
    ensures step { (key : ℕ) → StandsFor random.old key 0
        → result ≡ step_of spread key (landing spread key) }
    ensures draws { (key : ℕ) → StandsFor random.old key 0
        → random.new.draws ≡ words_drawn (landing spread key) }
    ensures limits { IsStep result }
{
    for _ in 0..8u32 {
        let step = try_step(spread, random);
        if lands(spread, step) {
            return step;
        }
    }
    Step { dx: 0, dy: 0 }
}
