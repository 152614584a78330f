//! The command `chain`: runs a client over a stimulus, and a second one over the outputs of the
//! first.

mod chain_task;
mod over_stimulus;

pub use chain_task::{ChainTask, chain};
