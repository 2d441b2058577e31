//! XPath's values: whole numbers and NaN, strings, booleans and node-sets, with their arithmetic.
#![tactic(auto)]

mod compares;
mod numbers;
mod reading;
mod value;

pub use compares::{compare_atoms, num_text};
pub use numbers::{LARGEST_WHOLE, add, mul, neg, num_fits, rem, sub, whole};
pub use reading::to_number;
pub use value::{Atom, Compare, Shape, Value, XNum};
