//! The random numbers of an element.

ghost use Rattle.std.specs.Prelude.{◌≡◌, ℕ, ◌+◌};
ghost use Rattle.rand_xoshiro.specs.Xoshiro256.{next_state, plus_plus};
ghost use Rattle.det_client.specs.element_random.RandomStreams.{key, word, state_at, AreKeysOf};
ghost use Rattle.det_client.specs.element_random.RandomStreams.{StandsFor};
ghost use Rattle.det_client_c.specs.CState.{place_of, keys_of};

use crate::c_state::{DetPassKeys, DetRandom};
use det_client::element_random::{PassKeys, key};
use rand_core::SeedableRng;
use rand_core::utils::NextWord;
use rand_xoshiro::SplitMix64;

/// The key of an element in a pass of a cycle, under a seed.
#[unsafe(no_mangle)]
pub extern "C" fn det_random_key(seed: u64, cycle: u32, pass: u8, element: u32) -> u64
    ensures { result ≡ key seed cycle pass element }
{
    key(seed, cycle, pass, element)
}

/// Starts the stream of a key.
#[unsafe(no_mangle)]
pub extern "C" fn det_random_of_key(random: &mut DetRandom, key: u64)
    ensures { StandsFor (place_of random.new) key 0 }
{
    *random = random_of_key(key);
}

/// What the keys of all elements in a pass of a cycle have in common, under a seed.
#[unsafe(no_mangle)]
pub extern "C" fn det_pass_keys(keys: &mut DetPassKeys, seed: u64, cycle: u32, pass: u8)
    ensures { AreKeysOf (keys_of keys.new) seed cycle pass }
{
    let of_pass = PassKeys::new(seed, cycle, pass);
    keys.shared = of_pass.shared();
    keys.pass = of_pass.pass();
}

/// Starts the stream of an element in a pass.
#[unsafe(no_mangle)]
pub extern "C" fn det_random_in_pass(random: &mut DetRandom, keys: &DetPassKeys, element: u32)
    ensures { (seed cycle pass : ℕ) → AreKeysOf (keys_of keys.now) seed cycle pass
        → StandsFor (place_of random.new) (key seed cycle pass element) 0 }
{
    *random = random_of_key(PassKeys::from_parts(keys.shared, keys.pass).key(element));
}

/// Draws the next random number.
#[unsafe(no_mangle)]
pub extern "C" fn det_random_next(random: &mut DetRandom) -> u64
    ensures word { (k n : ℕ) → StandsFor (place_of random.old) k n → result ≡ word k n }
    ensures goes_on { (k n : ℕ) → StandsFor (place_of random.old) k n
        → StandsFor (place_of random.new) k (n + 1) }
{
    let word = next_word(&mut random.state);
    random.draws = random.draws.saturating_add(1);
    word
}

/// The stream of a key, from its start.
fn random_of_key(key: u64) -> DetRandom
    ensures { StandsFor (place_of result) key 0 }
{
    DetRandom {
        state: stream_state_of_key(key),
        draws: 0,
    }
}

/// The first state of a key: the first four numbers of SplitMix64 from it.
fn stream_state_of_key(key: u64) -> [u64; 4]
    ensures { result ≡ state_at key 0 }
{
    let mut words = SplitMix64::seed_from_u64(key);
    let first = words.next_word();
    let second = words.next_word();
    let third = words.next_word();
    let last = words.next_word();
    [first, second, third, last]
}

/// One step of xoshiro256++, on C's own struct. A generator isn't built from it and taken apart
/// again at every step.
fn next_word(state: &mut [u64; 4]) -> u64
    ensures word { result ≡ (plus_plus state.old).0 }
    ensures state { state.new ≡ next_state state.old }
{
    let [first, second, third, last] = *state;
    let word = first.wrapping_add(last).rotate_left(23).wrapping_add(first);
    let odd = third ^ first;
    let even = last ^ second;
    *state = [
        first ^ even,
        second ^ odd,
        odd ^ (second << 17),
        even.rotate_left(45),
    ];
    word
}
