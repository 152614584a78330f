//! A cycle's input, and the refusal of a cycle.
ghost use Rattle.std.specs.Prelude.{◌≡◌, ◌≤◌, IfOk};
ghost use Rattle.record_grammar.specs.Read.{many};
ghost use Rattle.record_grammar.specs.Grammar.{time_at, sample_at, most_samples, samples_at};
ghost use Rattle.record_grammar.specs.Grammar.{phase_of, most_pass, most_element, refusal_at};
ghost use Rattle.det_values.specs.Limits.{IsSampleValue};
ghost use Rattle.record_view.specs.Gives.{Gives};
ghost use Rattle.record_view.specs.Parts.{a_sample};
ghost use Rattle.record_view.specs.Skips.{SkipsTo, SkipsMany};

use crate::number::{sample_value, u8_at, u16_at, u32_at, u64_at};
use crate::stop::Stop;
use det_values::{Phase, RefusedAt};

const MAX_SAMPLES: u32 = 4_096;

/// The time of a cycle, if it is known, and the rest.
#[tactic(auto, unfolding(record_grammar::specs::Grammar::time_at))]
pub fn time(bytes: &[u8]) -> Result<(Option<u64>, &[u8]), Stop>
    ensures { Gives (λ x. (x.0, x.1.now)) result (time_at bytes.now) }
{
    let (flag, rest) = u8_at(0, 1, bytes)?;
    if flag == 0 {
        return Ok((None, rest));
    }
    let (time, rest) = u64_at(0, u64::MAX, rest)?;
    Ok((Some(time), rest))
}

/// Event and value of the first sample, and the rest. Only events below `events` are accepted.
#[tactic(auto, unfolding(record_grammar::specs::Grammar::sample_at))]
pub fn sample(events: u16, bytes: &[u8]) -> Result<(u16, i64, &[u8]), Stop>
    ensures gives { Gives (λ x. (a_sample x.0 x.1, x.2.now)) result (sample_at events bytes.now) }
    ensures within { IfOk result (λ x. IsSampleValue x.1) }
{
    let (event, rest) = u16_at(0, events.saturating_sub(1), bytes)?;
    let (value, rest) = sample_value(rest)?;
    Ok((event, value, rest))
}

/// Skips `count` samples and returns the rest.
#[tactic(auto, using(crate::proofs::Over::over_begin, crate::proofs::Over::over_next))]
pub fn skip_samples(events: u16, count: u32, bytes: &[u8]) -> Result<&[u8], Stop>
    ensures { SkipsMany (λ x. x.now) count result (many (sample_at events) count bytes.now) }
{
    let mut rest = bytes;
    for _ in 0..count {
        match sample(events, rest) {
            Err(stop) => return Err(stop),
            Ok((_, _, others)) => rest = others,
        }
    }
    Ok(rest)
}

/// The greatest number of samples of a cycle, by the number of events.
pub fn max_samples(events: u16) -> u32
    ensures { result ≡ most_samples events }
{
    if events == 0 { 0 } else { MAX_SAMPLES }
}

fn as_phase(n: u8) -> Phase
    ensures { result ≡ phase_of n }
{
    match n {
        0 => Phase::Prepare,
        1 => Phase::Pool,
        _ => Phase::Conclude,
    }
}

fn max_pass(phase: Phase) -> u8
    ensures { result ≡ most_pass phase }
{
    match phase {
        Phase::Prepare => 0,
        Phase::Pool => 7,
        Phase::Conclude => 0,
    }
}

fn max_element(phase: Phase) -> u32
    ensures { result ≡ most_element phase }
{
    match phase {
        Phase::Prepare => 0,
        Phase::Pool => 65_535,
        Phase::Conclude => 0,
    }
}

/// The place and the code of a refusal, and the rest.
#[tactic(auto, unfolding(record_grammar::specs::Grammar::refusal_at))]
pub fn refusal(bytes: &[u8]) -> Result<(RefusedAt, &[u8]), Stop>
    ensures { Gives (λ x. (x.0, x.1.now)) result (refusal_at bytes.now) }
{
    let (number, rest) = u8_at(0, 2, bytes)?;
    let phase = as_phase(number);
    let (pass, rest) = u8_at(0, max_pass(phase), rest)?;
    let (element, rest) = u32_at(0, max_element(phase), rest)?;
    let (code, rest) = u32_at(0, u32::MAX, rest)?;
    let refused = RefusedAt {
        phase,
        pass,
        element,
        code,
    };
    Ok((refused, rest))
}

/// Skips a refusal and returns the rest.
pub fn skip_refusal(bytes: &[u8]) -> Result<&[u8], Stop>
    ensures { SkipsTo (λ x. x.now) result (refusal_at bytes.now) }
{
    match refusal(bytes) {
        Err(stop) => Err(stop),
        Ok((_, rest)) => Ok(rest),
    }
}
