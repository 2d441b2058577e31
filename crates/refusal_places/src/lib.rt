//! The place at which a text is refused: where its longest beginning ends that some text of the
//! language begins with, as far as a few written endings tell.
#![tactic(auto)]

mod beginnings;
mod brackets;
mod laws;
mod selectors;
mod xpaths;

pub use laws::one_place;
pub use selectors::selector_place;
pub use xpaths::xpath_place;
