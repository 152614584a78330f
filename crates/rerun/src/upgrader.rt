//! Writes the record of the same run in format 2, up to the first frame that isn't what its inputs
//! give.

mod original;
mod upgrade;

pub use original::Original;
pub use upgrade::upgrade_run;
