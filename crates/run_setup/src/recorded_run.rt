//! Opens a record and reads its header, so that its job can run again, or says why it can't
//! (`BadRun`).

mod bad_run;
mod job_kind;
mod open_run;

pub use bad_run::{BadRun, bad_run_answer};
pub use open_run::{RecordedRun, open_recorded_run};
