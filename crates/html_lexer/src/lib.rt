//! Pages as tokens: start tags with their attributes, end tags, texts, comments and doctypes, each
//! a slice of the page, or the first place at which a token begins that is refused.
#![tactic(auto)]

mod attrs;
mod kinds;
mod laws;
mod lexer;
mod names;
mod scans;
mod steps;
mod tags;

pub use attrs::Attrs;
pub use laws::{lexical_fault, one_attribute_list, one_reading, token_laws};
pub use lexer::{Lexer, Token};
pub use names::{literal_names, newline_names, takes_newline, void_names};
pub use steps::{Step, TokenAt, step_at};
pub use tags::{AttrStep, Attribute, attr_at, tag_end};
