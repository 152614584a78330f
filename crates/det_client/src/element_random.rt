//! Random numbers that depend on seed, cycle, pass and element (`PassKeys`), and not on the
//! worker.
//!
//! A key is made of a seed, a cycle, a pass and an element. Each key has its own stream of
//! numbers. So the numbers of an element don't depend on the order of the work either. The
//! generators are SplitMix64 for keys and xoshiro256++ for streams.

ghost use Rattle.std.specs.Prelude.{◌≡◌, ℕ, ◌+◌, ◌-◌, ◌^◌, min, [], ◌∷◌};
ghost use Rattle.rand_xoshiro.specs.Xoshiro256.{state_bytes};
ghost use Rattle.det_client.specs.element_random.RandomStreams.{splitmix_output, key, state_at};
ghost use Rattle.det_client.specs.element_random.RandomStreams.{word, AreKeysOf};
ghost use Rattle.det_client.specs.element_random.RandomStreams.{StandsFor};
ghost use Rattle.det_client.specs.element_random.RandomStreams.{state_of_words};

use rand_core::SeedableRng;
use rand_core::utils::{NextWord, read_u64};
use rand_xoshiro::{SplitMix64, Xoshiro256PlusPlus};
use std::marker::Model;

/// The first output of SplitMix64 with this seed.
fn mix(start: u64) -> u64
    ensures { result ≡ splitmix_output start }
{
    SplitMix64::seed_from_u64(start).next_word()
}

/// The common part of the keys of one pass, computed once for all its elements.
#[derive(Clone, Copy, Debug)]
pub struct PassKeys {
    shared: u64,
    pass: u8,
}

impl PassKeys {
    /// The keys of a pass in a cycle under a seed.
    pub fn new(seed: u64, cycle: u32, pass: u8) -> PassKeys
        ensures { AreKeysOf result seed cycle pass }
    {
        PassKeys {
            shared: mix(mix(seed) ^ u64::from(cycle)),
            pass,
        }
    }

    /// The keys with these parts, as `shared` and `pass` returned them.
    pub fn from_parts(shared: u64, pass: u8) -> PassKeys
        ensures shared { result.shared ≡ shared }
        ensures of_pass { result.pass ≡ pass }
    {
        PassKeys { shared, pass }
    }

    /// The hash of the seed and the cycle.
    pub fn shared(&self) -> u64
        ensures { result ≡ self.now.shared }
    {
        self.shared
    }

    /// The number of the pass, counted from 0.
    pub fn pass(&self) -> u8
        ensures { result ≡ self.now.pass }
    {
        self.pass
    }

    /// The key of one element.
    #[inline(always)]
    pub fn key(&self, element: u32) -> u64
        ensures { (seed cycle pass : ℕ) → AreKeysOf self.now seed cycle pass
            → result ≡ key seed cycle pass element }
    {
        let place = u64::from(self.pass) * 4_294_967_296 + u64::from(element);
        mix(self.shared ^ place)
    }
}

/// The key of an element in a pass of a cycle under a seed.
///
/// A client's own stream has the pass 255 and the element 0, since passes over elements are below
/// 8.
pub fn key(seed: u64, cycle: u32, pass: u8, element: u32) -> u64
    ensures { result ≡ key seed cycle pass element }
{
    PassKeys::new(seed, cycle, pass).key(element)
}

/// The bytes of these four numbers, the low byte first, as the generator reads its state.
fn state_bytes(state: &[u64; 4]) -> [u8; 32]
    ensures { result ≡ state_bytes state.now }
{
    let mut bytes = [0; 32];
    bytes[0..8].copy_from_slice(&state[0].to_le_bytes());
    bytes[8..16].copy_from_slice(&state[1].to_le_bytes());
    bytes[16..24].copy_from_slice(&state[2].to_le_bytes());
    bytes[24..32].copy_from_slice(&state[3].to_le_bytes());
    bytes
}

/// The generator with these four numbers as its state.
fn generator_in_state(first: u64, second: u64, third: u64, last: u64) -> Xoshiro256PlusPlus
    ensures { result ≡ state_of_words (first ∷ second ∷ third ∷ last ∷ []) }
{
    Xoshiro256PlusPlus::from_seed(state_bytes(&[first, second, third, last]))
}

/// The stream of the random numbers of one key.
#[derive(Debug, Drop)]
pub struct ElementRandom {
    rng: Xoshiro256PlusPlus,
    draws: u64,
}

impl Model for ElementRandom {
    ghost use Rattle.det_client.specs.element_random.RandomStreams.{StreamState};

    ghost Value = { StreamState };

    ghost view = { λ r. record { state = r.rng; draws = r.draws } };
}

impl ElementRandom {
    /// The stream of a key, at its beginning.
    pub fn from_key(key: u64) -> ElementRandom
        ensures { StandsFor result key 0 }
    {
        ElementRandom {
            rng: Xoshiro256PlusPlus::seed_from_u64(key),
            draws: 0,
        }
    }

    /// Draws the next random number.
    pub fn get_random(&mut self) -> u64
        ensures word { (k n : ℕ) → StandsFor self.old k n → result ≡ word k n }
        ensures goes_on { (k n : ℕ) → StandsFor self.old k n → StandsFor self.new k (n + 1) }
    {
        let word = self.rng.next_word();
        self.draws = self.draws.saturating_add(1);
        word
    }

    /// The generator's state, four numbers of 64 bits.
    pub fn state(&self) -> [u64; 4]
        ensures words { (k n : ℕ) → StandsFor self.now k n → result ≡ self.now.state }
        ensures again { (k n : ℕ) → StandsFor self.now k n
            → state_of_words result ≡ self.now.state }
    {
        let bytes = self.rng.state();
        [
            read_u64(&bytes, 0),
            read_u64(&bytes, 1),
            read_u64(&bytes, 2),
            read_u64(&bytes, 3),
        ]
    }

    /// The stream with these parts, as `state` and `draws` returned them.
    ///
    /// No stream has four zeros as its state. They become the first state of the key 0.
    pub fn from_parts(state: [u64; 4], draws: u64) -> ElementRandom
        ensures state { result.state ≡ state_of_words state }
        ensures draws { result.draws ≡ draws }
        ensures again { (k n : ℕ) → state ≡ state_at k n → result.state ≡ state }
    {
        ElementRandom {
            rng: generator_in_state(state[0], state[1], state[2], state[3]),
            draws,
        }
    }

    /// The count of numbers drawn. It saturates at `u64::MAX`, while the numbers go on.
    pub fn draws(&self) -> u64
        ensures kept { result ≡ self.now.draws }
        ensures count { (k n : ℕ) → StandsFor self.now k n → result ≡ min n (2 ^ 64 - 1) }
    {
        self.draws
    }
}

#[cfg(test)]
mod tests {
    use super::*;

    #[test]
    fn words_of_key_zero(rt: HostRuntime) {
        let mut random = ElementRandom::from_key(0);
        assert_eq!(rt; random.draws(), 0);
        assert_eq!(rt; random.get_random(), 5987356902031041503);
        assert_eq!(rt; random.get_random(), 0x61da6f3dc380d507);
        assert_eq!(rt; random.draws(), 2);
        assert_eq!(rt; random.get_random(), 0x5c0fdf91ec9a7bfc);
    }

    #[test]
    fn parts_go_on(rt: HostRuntime) {
        let begun = ElementRandom::from_key(0);
        assert_eq!(rt; begun.state()[0], 0xe220_a839_7b1d_cdaf);
        assert_eq!(rt; begun.state()[3], 0xf88b_b8a8_724c_81ec);
        let mut random = ElementRandom::from_parts(begun.state(), begun.draws());
        assert_eq!(rt; random.get_random(), 5987356902031041503);
        let mut again = ElementRandom::from_parts(random.state(), random.draws());
        assert_eq!(rt; again.draws(), 1);
        assert_eq!(rt; again.get_random(), 0x61da6f3dc380d507);
    }

    #[test]
    fn four_zeros_are_the_key_zero(rt: HostRuntime) {
        let mut random = ElementRandom::from_parts([0; 4], 0);
        assert_eq!(rt; random.get_random(), 5987356902031041503);
    }

    #[test]
    fn keys_from_their_parts_are_the_same(rt: HostRuntime) {
        let keys = PassKeys::new(7, 1, 2);
        let again = PassKeys::from_parts(keys.shared(), keys.pass());
        assert_eq!(rt; again.key(3), key(7, 1, 2, 3));
    }

    #[test]
    fn mixing_of_zero(rt: HostRuntime) {
        assert_eq!(rt; mix(0), 0xe220a8397b1dcdaf);
    }
}
