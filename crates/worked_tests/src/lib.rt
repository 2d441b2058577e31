//! The tests that the program stores, for tests of the crates below.
#![tactic(auto)]

mod kinds;

pub use kinds::{STORED, answer};
