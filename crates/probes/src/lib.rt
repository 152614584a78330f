//! Observers of runs, each of which reports one line, the texts of these lines, and the audience
//! of all observers. A probe reports when it leaves, or at the end.
#![tactic(auto)]

mod audience;
mod count;
mod first_refusal;
mod gap;
mod limit;
mod probe;
mod probe_list;
mod report_lines;

pub use audience::Audience;
pub use count::CountProbe;
pub use first_refusal::FirstRefusalProbe;
pub use gap::GapProbe;
pub use limit::LimitProbe;
pub use probe::{Probe, ProbeStep};
