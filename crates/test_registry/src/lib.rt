//! Tests on two texts that are kept by name. Each answers what its kind says, so that an expression which asks one has a
//! value that its kind and its two texts determine.
#![tactic(auto)]

mod answers;
mod asks;
mod entry;
mod kinds;
mod names;
mod registry;

pub use answers::{ends_with, has_word, near, same_folded};
pub use asks::Asks;
pub use kinds::{AddFault, TestKind};
pub use registry::Tests;
