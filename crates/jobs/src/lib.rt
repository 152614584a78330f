//! The shipped jobs: the filter bank, the particle cloud and the guard, and which parameter of a
//! job is bad. docs/FORMATS.md has their parameters, outputs and codes.
#![tactic(auto)]

pub mod bank;
pub mod cloud;
pub mod guard;
mod param_check;

pub use crate::bank::Bank;
pub use crate::cloud::Cloud;
pub use crate::guard::Guard;
pub use param_check::bad_param;
