//! The lines that are printed: JSON (RFC 8259) without white space, the members of an object in the
//! order of their keys.
#![tactic(auto)]

mod pages;
mod selectors;

pub use pages::{field_object, field_reason, page_line, refused_line, texts_value};
pub use selectors::{css_line, reason_line};
