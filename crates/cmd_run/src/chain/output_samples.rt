//! The input of the second client: the output of the first client as samples.
ghost use Rattle.std.specs.Prelude.{◌≡◌, ◌<◌, ◌≤◌, ◌++◌, [], length, drop, OnOk, IfOk};
ghost use Rattle.std.specs.Prelude.{IfSome, IfNone};
ghost use Rattle.std.specs.List.{All};
ghost use Rattle.cmd_run.specs.chain.OutputSamples.{sample_of, first_word, samples_from};
ghost use Rattle.cmd_run.specs.chain.OutputSamples.{samples_of, chained_input};

use det_values::{CycleInput, Outcome, RunFrame, Sample, Samples};
use std::alloc::{AllocError, Global};

/// The greatest sample; its negation is the least one.
const MAX_SAMPLE: i64 = 1000000000000;

/// The input that a cycle gives to another client with this number of events: its time, and word j
/// of its output as the sample of event j. Words count from 0.
///
/// A word is 8 bytes, big-endian, in two's complement. A word beyond 10^12 in either direction
/// gives no sample. A refused cycle gives no samples.
pub fn chained_input(alloc: Global, run: &RunFrame, events: u16) -> Result<CycleInput, AllocError>
    requires { events ≤ 256 }
    ensures is { IfOk result (λ input. input ≡ chained_input events run.now) }
    ensures known { IfOk result (λ input. All (λ s. s.event < events) input.samples) }
{
    let samples = samples_of_output(alloc, &run.outcome, events)?;
    Ok(CycleInput {
        time: run.input.time,
        samples,
    })
}

/// The samples that a cycle gives.
fn samples_of_output(alloc: Global, outcome: &Outcome, events: u16) -> Result<Samples, AllocError>
    requires { events ≤ 256 }
    ensures { IfOk result (λ samples. samples ≡ samples_of events outcome.now) }
{
    let mut samples = Samples::new(alloc);
    match outcome {
        Outcome::Finished { output, .. } => {
            push_output_words(output.as_slice(), events, &mut samples)?;
            Ok(samples)
        }
        Outcome::Refused(_) => Ok(samples),
    }
}

/// Pushes the words of an output as samples, one word for each event.
fn push_output_words(output: &[u8], events: u16, samples: &mut Samples) -> Result<(), AllocError>
    requires few { events ≤ 256 }
    requires none { samples.old ≡ [] }
    ensures { OnOk result (samples.new ≡ samples_from 0 events output.now) }
{
    let mut rest = output;
    'words: for event in 0..events {
        let (word, behind) = match first_output_word(rest) {
            Some(read) => read,
            None => return Ok(()),
        };
        push_output_word(samples, event, word)?;
        rest = behind;
    }
    Ok(())
}

/// Pushes a word as the sample of an event, unless it is out of range.
fn push_output_word(samples: &mut Samples, event: u16, word: i64) -> Result<(), AllocError>
    requires { length samples.old < 4096 }
    ensures { OnOk result (samples.new ≡ samples.old ++ sample_of event word) }
{
    if word < -MAX_SAMPLE {
        return Ok(());
    }
    if word > MAX_SAMPLE {
        return Ok(());
    }
    samples.push(Sample { event, value: word })
}

/// The first word, and the bytes after it. None if there are fewer than 8 bytes.
fn first_output_word(bytes: &[u8]) -> Option<(i64, &[u8])>
    ensures some { IfSome result (λ x. 8 ≤ length bytes.now) }
    ensures word { IfSome result (λ x. x.0 ≡ first_word bytes.now) }
    ensures rest { IfSome result (λ x. x.1.now ≡ drop 8 bytes.now) }
    ensures none { IfNone result (length bytes.now < 8) }
{
    match bytes {
        [a, b, c, d, e, f, g, h, rest @ ..] => {
            Some((i64::from_be_bytes([*a, *b, *c, *d, *e, *f, *g, *h]), rest))
        }
        _ => None,
    }
}
