//! The command `sim`: prints a summary of a run over a generated stimulus, and the probes' reports.

mod profile;
mod sim_lines;
mod summary_run;

pub use sim_lines::sim;
