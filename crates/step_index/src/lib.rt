//! Tables over a tree: elements by name and by attribute `id`.
#![tactic(auto)]

mod alike;
mod children;
mod ids;
mod indexed;
mod look_ups;
mod names;
mod steps;

pub use indexed::Indexed;
pub use steps::Steps;
