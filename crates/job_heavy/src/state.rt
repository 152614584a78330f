//! The heavy job's elements, and the random numbers that they fold.

ghost use Rattle.std.specs.Prelude.{◌≡◌, ℕ};
ghost use Rattle.det_client.specs.element_random.RandomStreams.{StandsFor};
ghost use Rattle.job_heavy.specs.Meaning.{folded};

use crate::Heavy;
use det_client::element_random::ElementRandom;
use job_shared::FirstElement;

/// An element: the fold of all random numbers that it drew.
#[derive(Clone, Copy, Debug, PartialEq, Eq, Drop)]
pub struct State {
    pub(crate) folded: u64,
}

impl FirstElement<Heavy> for State {
    ghost use Rattle.job_heavy.specs.Meaning.{first_state};

    ghost first = { λ _ number. first_state number };

    fn first_element(_heavy: &Heavy, number: u32) -> State {
        State {
            folded: u64::from(number),
        }
    }
}

/// A state after the first 64 numbers of a stream are folded into it.
pub(crate) fn fold_words(first: u64, random: &mut ElementRandom) -> u64
    ensures folded { (key : ℕ) → StandsFor random.old key 0 → result ≡ folded first key 64 }
    ensures draws { (key : ℕ) → StandsFor random.old key 0 → random.new.draws ≡ 64 }
{
    let mut state = first;
    for _ in 0..64u32 {
        state = state.rotate_left(5) ^ random.get_random();
    }
    state
}
