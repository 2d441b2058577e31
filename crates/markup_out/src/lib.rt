//! Rows written as HTML markup.
#![tactic(auto)]

mod escapes;
mod laws;
mod names;
mod output;
mod tags;
mod writing;

pub use laws::markup_of_children;
pub use writing::{TooLarge, canonical, markup};
