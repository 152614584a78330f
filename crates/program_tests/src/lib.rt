//! Tests: whole runs of the three programs in memory, over named files and children.
//!
//! `files` makes the files, `rows` runs the worked examples of `tables`, and `edges` has each read
//! and each write fail in turn. The other modules test what only a run in memory can show: workers
//! at a gate, probes that `det` doesn't have, children that fail. Nothing here is compiled outside
//! tests.
#![tactic(auto)]

#[cfg(test)]
mod audiences;
#[cfg(test)]
mod edges;
#[cfg(test)]
mod files;
#[cfg(test)]
mod gates;
#[cfg(test)]
mod lanes;
#[cfg(test)]
mod listed_files;
#[cfg(test)]
mod no_memory;
#[cfg(test)]
mod program_run;
#[cfg(test)]
mod rows;
#[cfg(test)]
mod tables;
#[cfg(test)]
mod twin_runs;
