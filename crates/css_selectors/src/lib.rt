//! Selectors as data: what holds of each that is read from a text, and how specific it is.
#![tactic(auto)]

mod counts;
mod laws;
mod selector;

pub use counts::specificity;
pub use laws::worked_selectors;
pub use selector::{
    Compound, Dialect, Link, Nth, Op, Part, Pseudo, Relative, Selector, SelectorList, Simple, Tail,
    Test, Triple, Weight,
};
