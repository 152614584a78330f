//! The command `upgrade`: writes the record of the same run in format 2.

pub use crate::rewrite::upgrade;
