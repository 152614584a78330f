//! The command `salvage`: a truncated record made whole, or reports of its runs.

mod report_salvage;
mod salvage_record;

pub use salvage_record::{salvage, salvage_reports};
