//! The top call of the program `why`: it tells people why a selector, an expression, a script or a page is refused, and where.
#![tactic(auto)]

mod answers;
mod laws;
mod pages;
mod scripts;
mod selectors;
mod top;
mod words;
mod writing;

pub use laws::{one_plan, same_reason, words_of_questions};
pub use top::why;
