//! A stimulus for C, read line by line from bytes that C shows. Between two calls only numbers are
//! kept, and C keeps them.
#![tactic(auto)]

mod det_stimulus;
mod export;
mod found;
#[cfg(test)]
mod tests;
mod wanted;
