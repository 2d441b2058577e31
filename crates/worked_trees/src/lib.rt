//! Small documents, made of steps, on which tests of the crates below are worked.
#![tactic(auto)]

mod steps;

pub use steps::{Step, tree_of};
