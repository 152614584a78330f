//! The texts of answers, verdicts, needs and reports for C: each call makes a text the one that it
//! names. The calls need no memory. A struct whose numbers stand for nothing has the empty text.
#![tactic(auto)]

mod answer_texts;
mod manifest_lines;
mod report_texts;
mod reports;
#[cfg(test)]
mod tests;
mod verdict_texts;
