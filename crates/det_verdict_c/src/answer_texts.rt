//! The lines of answers: why a program ends without what it was asked for.
ghost use Rattle.std.specs.Prelude.{◌≡◌, Some};
ghost use Rattle.c_types.specs.CValues.{text_of};
ghost use Rattle.cli_answers.specs.Answers.{err_line};
ghost use Rattle.det_verdict_c.specs.Answers.{text_if, status_answer, parameter_answer};
ghost use Rattle.det_verdict_c.specs.Answers.{manifest_answer, record_answer};

use c_types::{DetManifestFault, DetRecordFault, DetText};
use cli_answers::{Answer, BadManifest};

fn status_answer(status: u8) -> Option<Answer>
    ensures { result ≡ status_answer status }
{
    match status {
        2 => Some(Answer::BadWords),
        6 => Some(Answer::ReadFault),
        7 => Some(Answer::WriteFault),
        8 => Some(Answer::OutOfMemory),
        _ => None,
    }
}

fn parameter_answer(number: u16) -> Option<Answer>
    ensures { result ≡ parameter_answer number }
{
    if number >= 256 {
        return None;
    }
    Some(Answer::BadManifest(BadManifest::Parameter(number as u8)))
}

fn manifest_answer(fault: &DetManifestFault) -> Option<Answer>
    ensures { result ≡ manifest_answer fault.now }
{
    if fault.reason == 9 {
        return parameter_answer(fault.number);
    }
    let fault = fault.fault()?;
    Some(Answer::BadManifest(BadManifest::Fault(fault)))
}

fn record_answer(copy: u32, fault: &DetRecordFault) -> Option<Answer>
    ensures { result ≡ record_answer copy fault.now }
{
    let fault = fault.fault()?;
    Some(Answer::BadRecord { copy, fault })
}

fn set_answer_line(text: &mut DetText, answer: Answer)
    ensures { text_of text.new ≡ err_line answer }
{
    text.set(answer.line().as_slice());
}

fn set_answer(text: &mut DetText, answer: Option<Answer>)
    ensures { text_of text.new ≡ text_if err_line answer }
{
    match answer {
        Some(answer) => set_answer_line(text, answer),
        None => text.set(b""),
    }
}

/// The line `bad words`, `read fault`, `write fault` or `out of memory` of its status, and the
/// empty text of any other.
#[unsafe(no_mangle)]
pub extern "C" fn det_text_status(status: u8, text: &mut DetText)
    ensures { text_of text.new ≡ text_if err_line (status_answer status) }
{
    set_answer(text, status_answer(status));
}

/// The line of a bad manifest, as `bad manifest: missing event.0.policy`.
#[unsafe(no_mangle)]
pub extern "C" fn det_text_bad_manifest(fault: &DetManifestFault, text: &mut DetText)
    ensures { text_of text.new ≡ text_if err_line (manifest_answer fault.now) }
{
    set_answer(text, manifest_answer(fault));
}

/// The line of a bad stimulus, by the number of its bad line, counted from 1.
#[unsafe(no_mangle)]
pub extern "C" fn det_text_bad_stimulus(line: u64, text: &mut DetText)
    ensures { text_of text.new ≡ err_line (Answer.BadStimulus line) }
{
    set_answer_line(text, Answer::BadStimulus { line });
}

/// The line of a bad record, by its copy, counted from 0, and its fault.
#[unsafe(no_mangle)]
pub extern "C" fn det_text_bad_record(copy: u32, fault: &DetRecordFault, text: &mut DetText)
    ensures { text_of text.new ≡ text_if err_line (record_answer copy fault.now) }
{
    set_answer(text, record_answer(copy, fault));
}

/// The line of a record whose profile names no job, or has parameters that its job refuses.
#[unsafe(no_mangle)]
pub extern "C" fn det_text_bad_profile(text: &mut DetText)
    ensures { text_of text.new ≡ err_line Answer.BadProfile }
{
    set_answer_line(text, Answer::BadProfile);
}
