//! Markup that HTML reads back: what the document of a page is written as builds the same document. That is a law over all
//! pages, and both functions stand on it.
#![tactic(auto)]

mod laws;
mod writing;

pub use laws::canonical_builds;
pub use writing::{canonical, read_back};
