//! XPath text: what it reads as, of which type that is, and what it means in a document.
#![tactic(auto)]

mod cursor;
mod depth;
mod expression;
mod faults;
mod grammar;
mod laws;
mod names;
mod numbers;
mod parse;
mod pieces;
mod refusal;
mod shapes;
mod term;
mod terms;
mod tiers;
mod typed;
mod whole;

pub use expression::{Expr, Func, Infix, Operand, Start, Step};
pub use laws::{
    asks_stored, found_exactly, levels_cut, never_both, none_looser, one_expression, one_fault,
    one_reading, read_or_refused, reads_more, taken_names,
};
pub use parse::{parse_xpath, parse_xpath_with};
pub use term::{NodeType, Term};
pub use typed::Typed;
