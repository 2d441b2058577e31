//! The XPath text of a selector list, and the theorem that it means what the list means.
#![tactic(auto)]

mod laws;

pub use laws::{literals_stand_for_texts, printed_texts_keep_meaning, worked_texts, wrong_texts};
