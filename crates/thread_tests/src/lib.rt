//! Tests on real threads: of the pool, of twins and of their queue. They are in a crate of their
//! own, since proving a crate's tests proves that crate a second time.
#![tactic(auto)]

pub mod pool_tests;
pub mod twin_tests;
