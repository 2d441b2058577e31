//! The tokens of a selector, after Selectors Level 3, section 10.
#![tactic(auto)]

mod contents;
mod escapes;
mod laws;
mod lexer;
mod rules;
mod tokens;

pub use laws::{one_list_or_fault, plain_texts_are_read_back};
pub use lexer::{SELECTOR_LIMIT, css_tokens};
pub use tokens::{CssKind, CssToken};
