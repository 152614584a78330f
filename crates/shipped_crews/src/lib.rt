//! Starts the run of a shipped job with a crew for its passes on the workers of a host, and passes
//! both to a visitor.
//!
//! Only this crate knows the list of shipped jobs, what threads require of them, and how a crew is
//! made. A visitor is a `Visit` or a `VisitTwo`, which are generic in the job and in its pool.
#![tactic(auto)]

mod fresh_run;
mod one_crew;
mod two_crews;
mod visit;
mod visit_two;
mod workers;

pub use one_crew::{ShippedRun, with_crew};
pub use two_crews::{PlannedRun, with_two_crews};
pub use visit::Visit;
pub use visit_two::VisitTwo;
pub use workers::{Host, Workers};
