//! What both programs share: the words after a program's name, and the four tests that scripts and expressions may ask by their names.
#![tactic(auto)]

mod stored;
mod words;

pub use stored::{NEAR, Test, program_tests};
pub use words::words_of;
