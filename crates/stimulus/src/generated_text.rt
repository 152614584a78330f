//! A stimulus that is generated from a number.

ghost use Rattle.std.specs.Prelude.{◌≡◌, ◌≤◌, ◌+◌, ◌<◌, ℕ, length, IfOk};
ghost use Rattle.std.specs.String.{string_bytes};
ghost use Rattle.stimulus.specs.GeneratedText.{state_at, word, made_value, block_text, made};

use det_values::Bytes;
use rand_core::SeedableRng;
use rand_core::utils::NextWord;
use rand_xoshiro::SplitMix64;
use std::alloc::{AllocError, Global};

const BLOCKS: u64 = 200;

const CYCLE_NANOSECONDS: u64 = 10_000_000;

fn next_value(words: &mut SplitMix64) -> i64
    ensures value { (k n : ℕ) → words.old ≡ state_at k n → result ≡ made_value (word k n) }
    ensures goes_on { (k n : ℕ) → words.old ≡ state_at k n → words.new ≡ state_at k (n + 1) }
{
    (words.next_word() % 2_000_001) as i64 - 1_000_000
}

fn block(alloc: Global, time: u64, first: i64, second: i64) -> Result<String, AllocError>
    ensures { IfOk result (λ s. string_bytes s ≡ block_text time first second) }
{
    format!(in alloc; "cycle {time}\nsample 0 {first}\nsample 1 {second}\n")
}

/// The stimulus of a number: 200 cycles, 10 ms apart, each with a sample of event 0 and one of
/// event 1.
pub fn generate_stimulus(alloc: Global, number: u64) -> Result<Bytes, AllocError>
    ensures { IfOk result (λ text. text ≡ made number) }
{
    let mut words = SplitMix64::seed_from_u64(number);
    let mut text = Bytes::new(alloc);
    text.extend_from_slice(b"stim 1\n")?;
    for cycle in 0..BLOCKS {
        let first = next_value(&mut words);
        let second = next_value(&mut words);
        let lines = block(alloc, CYCLE_NANOSECONDS * cycle, first, second)?;
        text.extend_from_slice(lines.as_bytes())?;
    }
    text.extend_from_slice(b"terminate\n")?;
    Ok(text)
}
