//! The lines that the shipped probes report.
ghost use Rattle.std.specs.Prelude.{◌≡◌, ◌≤◌, length, IfOk, Some};
ghost use Rattle.std.specs.String.{string_bytes};
ghost use Rattle.probes.specs.Texts.{count_text, gap_text, limit_text, refusal_text};

use det_values::{Bytes, Phase, RefusedAt};
use std::alloc::{AllocError, Global};

fn report_line_bytes(text: String) -> Bytes
    requires { length (string_bytes text) ≤ 256 }
    ensures bytes { result ≡ string_bytes text }
    ensures short { length result ≤ 256 }
{
    Bytes::from_vec(text.into_bytes())
}

/// `count F R`: the numbers of finished and of refused runs.
pub fn count_report_line(alloc: Global, finished: u32, refused: u32) -> Result<Bytes, AllocError>
    ensures bytes { IfOk result (λ bytes. bytes ≡ count_text finished refused) }
    ensures short { IfOk result (λ bytes. length bytes ≤ 256) }
{
    let text = format!(in alloc; "count {finished} {refused}\n")?;
    Ok(report_line_bytes(text))
}

fn gap_found_line(alloc: Global, gap: u64) -> Result<Bytes, AllocError>
    ensures bytes { IfOk result (λ bytes. bytes ≡ gap_text (Some gap)) }
    ensures short { IfOk result (λ bytes. length bytes ≤ 256) }
{
    let text = format!(in alloc; "gap {gap}\n")?;
    Ok(report_line_bytes(text))
}

/// `gap G`, in nanoseconds, or `gap none`.
pub fn gap_report_line(alloc: Global, gap: Option<u64>) -> Result<Bytes, AllocError>
    ensures bytes { IfOk result (λ bytes. bytes ≡ gap_text gap) }
    ensures short { IfOk result (λ bytes. length bytes ≤ 256) }
{
    match gap {
        Some(gap) => gap_found_line(alloc, gap),
        None => {
            let text = format!(in alloc; "gap none\n")?;
            Ok(report_line_bytes(text))
        }
    }
}

/// `limit M R`: the number of runs seen, and how many of them were refused.
pub fn limit_report_line(alloc: Global, seen: u32, refused: u32) -> Result<Bytes, AllocError>
    ensures bytes { IfOk result (λ bytes. bytes ≡ limit_text seen refused) }
    ensures short { IfOk result (λ bytes. length bytes ≤ 256) }
{
    let text = format!(in alloc; "limit {seen} {refused}\n")?;
    Ok(report_line_bytes(text))
}

fn refusal_found_line(
    alloc: Global,
    seen: u32,
    phase: Phase,
    pass: u8,
    element: u32,
    code: u32,
) -> Result<Bytes, AllocError>
    ensures bytes { IfOk result
        (λ bytes. bytes ≡ refusal_text seen
        (Some (record { phase = phase; pass = pass; element = element; code = code }))) }
    ensures short { IfOk result (λ bytes. length bytes ≤ 256) }
{
    let phase = phase.word();
    let text = format!(in alloc; "refusal {seen} {phase} {pass} {element} {code}\n")?;
    Ok(report_line_bytes(text))
}

/// `refusal C PHASE PASS ELEMENT CODE`, where C is the number of runs seen, or `refusal none`.
pub fn refusal_report_line(
    alloc: Global,
    seen: u32,
    at: &Option<RefusedAt>,
) -> Result<Bytes, AllocError>
    ensures bytes { IfOk result (λ bytes. bytes ≡ refusal_text seen at.now) }
    ensures short { IfOk result (λ bytes. length bytes ≤ 256) }
{
    match at {
        Some(at) => refusal_found_line(alloc, seen, at.phase, at.pass, at.element, at.code),
        None => {
            let text = format!(in alloc; "refusal none\n")?;
            Ok(report_line_bytes(text))
        }
    }
}
