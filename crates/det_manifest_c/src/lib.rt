//! A manifest for C, read from its text up to the name of its job, which is the application's.
#![tactic(auto)]

mod export;
mod fault;
mod fill;
#[cfg(test)]
mod tests;
