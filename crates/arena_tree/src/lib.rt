//! Documents in an arena: their rows and made texts lie there, and all else is borrowed from the page.
#![tactic(auto)]

mod grow;
mod tree;

pub use grow::ArenaGrow;
pub use tree::ArenaTree;
