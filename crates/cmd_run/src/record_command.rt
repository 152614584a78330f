//! The commands `demo` and `record`: write the record of a stimulus, with the built-in profile or
//! that of a manifest.

mod built_in;
mod by_manifest;
mod over_stimulus;
mod run_plan;

pub use built_in::demo;
pub use by_manifest::{RecordTask, record_by_manifest};
pub(crate) use over_stimulus::stimulus_answer;
pub use run_plan::RunOptions;
pub(crate) use run_plan::read_plan;
