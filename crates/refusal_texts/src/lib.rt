//! What is written for people about a refusal: its reason in words, what to write instead, and the
//! place in the text with its line.
#![tactic(auto)]

mod advice;
mod places;
mod refusal;
mod sentences;
mod shown;
mod writing;

pub use refusal::Refusal;
pub use writing::{push_place, push_refusal};
