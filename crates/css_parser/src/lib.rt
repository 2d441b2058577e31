//! The grammar of selectors, after Selectors Level 3, section 10, with the choices of Selectors Level
//! 4, sections 4.2 to 4.5: tokens, then what stands in a list, then what of it is refused.
#![tactic(auto)]

mod arguments;
mod attributes;
mod choices;
mod ends;
mod grammar;
mod laws;
mod links;
mod lists;
mod names;
mod nth;
mod parsing;
mod pieces;
mod places;
mod refusals;
mod simples;
mod values;

pub use laws::{choices_without_depth, normal_form, one_list_or_fault, worked_lists};
pub use parsing::parse_selectors;
