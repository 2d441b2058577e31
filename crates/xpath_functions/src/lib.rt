//! The functions of XPath 1.0, section 4, with the conversions and comparisons of its values, in a document.
#![tactic(auto)]

mod booleans;
mod building;
mod calls;
mod comparisons;
mod conversions;
mod ids;
mod languages;
mod nodes;
mod numbers;
mod parts;
mod sets;
mod strings;
mod texts;

pub use calls::{call, call_with};
pub use comparisons::fits;
pub use conversions::{number_of, text_of, truth_of};
