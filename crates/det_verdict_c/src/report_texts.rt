//! The lines of the reports on the runs seen, in the order of `det`.
ghost use Rattle.std.specs.Prelude.{◌≡◌, ◌+◌, ◌≤◌, List, [], ◌++◌, length, codes, decimal};
ghost use Rattle.std.specs.Prelude.{Some, None};
ghost use Rattle.det_values.specs.Values.{phase_word};
ghost use Rattle.det_values.specs.declared.frames.RunFrame.{RunFrame};
ghost use Rattle.record_grammar.specs.Grammar.{phase_of};
ghost use Rattle.c_types.specs.CValues.{text_of, place_of_refusal};
ghost use Rattle.probes.specs.Reports.{reported};
ghost use Rattle.probes.specs.Texts.{count_text, gap_text, refusal_text};
ghost use Rattle.det_verdict_c.specs.Reports.{HasSeen, first_audience, audience_of, gap_of};
ghost use Rattle.det_verdict_c.specs.Reports.{AreCounts};

use crate::reports::{DetReports, number_if};
use c_types::{DetRefusal, DetText};
use needs_text::ShortText;

fn push_count(text: &mut ShortText, finished: u32, refused: u32)
    requires { length text.old ≤ 500 }
    ensures text { text.new ≡ text.old ++ count_text finished refused }
    ensures short { length text.new ≤ length text.old + 50 }
{
    text.push("count ");
    text.push_number(finished as u64);
    text.push(" ");
    text.push_number(refused as u64);
    text.push("\n");
}

fn push_gap(text: &mut ShortText, gap: Option<u64>)
    requires { length text.old ≤ 500 }
    ensures text { text.new ≡ text.old ++ gap_text gap }
    ensures short { length text.new ≤ length text.old + 50 }
{
    match gap {
        Some(gap) => {
            text.push("gap ");
            text.push_number(gap);
            text.push("\n");
        }
        None => text.push("gap none\n"),
    }
}

fn phase_word(number: u8) -> &'static str
    ensures word { result.now ≡ phase_word (phase_of number) }
    ensures short { length result.now ≤ 8 }
{
    match number {
        0 => "prepare",
        1 => "pool",
        _ => "conclude",
    }
}

/// Appends a space and a number.
fn push_next_number(text: &mut ShortText, number: u32)
    requires { length text.old ≤ 500 }
    ensures text { text.new ≡ text.old ++ (codes " " ++ decimal number) }
    ensures short { length text.new ≤ length text.old + 21 }
{
    text.push(" ");
    text.push_number(number as u64);
}

fn push_refusal(text: &mut ShortText, run: u32, refusal: &DetRefusal)
    requires { length text.old ≤ 300 }
    ensures text { text.new
        ≡ text.old ++ refusal_text run (Some (place_of_refusal refusal.now)) }
    ensures short { length text.new ≤ length text.old + 110 }
{
    text.push("refusal ");
    text.push_number(run as u64);
    text.push(" ");
    text.push(phase_word(refusal.phase));
    push_next_number(text, refusal.pass as u32);
    push_next_number(text, refusal.element);
    push_next_number(text, refusal.code);
    text.push("\n");
}

/// The reports if no run was refused.
fn reports_without_refusal(reports: &DetReports) -> ShortText
    ensures text { result ≡ count_text reports.now.finished reports.now.refused
        ++ (gap_text (gap_of reports.now) ++ refusal_text 0 None) }
    ensures counts { AreCounts reports.now }
{
    let mut text = ShortText::new();
    push_count(&mut text, reports.finished, reports.refused);
    push_gap(&mut text, number_if(reports.has_gap, reports.gap));
    text.push("refusal none\n");
    text
}

/// The reports with that of the first refusal, whose probe leaves first.
fn reports_after_refusal(reports: &DetReports) -> ShortText
    ensures text { result
        ≡ refusal_text reports.now.refused_at (Some (place_of_refusal reports.now.refusal))
        ++ (count_text reports.now.finished reports.now.refused ++ gap_text (gap_of reports.now)) }
    ensures counts { AreCounts reports.now }
{
    let mut text = ShortText::new();
    push_refusal(&mut text, reports.refused_at, &reports.refusal);
    push_count(&mut text, reports.finished, reports.refused);
    push_gap(&mut text, number_if(reports.has_gap, reports.gap));
    text
}

fn all_reports(reports: &DetReports) -> ShortText
    ensures { result ≡ reported (audience_of reports.now) [] }
{
    if reports.refused_at == 0 {
        return reports_without_refusal(reports);
    }
    reports_after_refusal(reports)
}

/// The lines that the audience of `det` reports of the runs seen.
#[unsafe(no_mangle)]
pub extern "C" fn det_reports_text(reports: &DetReports, text: &mut DetText)
    ensures { (runs : List RunFrame) → HasSeen reports.now runs
        → text_of text.new ≡ reported first_audience runs }
{
    text.set(all_reports(reports).as_slice());
}
