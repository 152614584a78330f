//! Runs two clients in a chain: the second takes its samples from the outputs of the first. The
//! module `chain_command` reads their manifests.

mod both_clients;
mod chain_counts;
mod output_samples;
mod run_chain;

pub use chain_counts::ChainCounts;
pub use output_samples::chained_input;
pub use run_chain::chain_run;
