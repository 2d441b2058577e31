//! Selectors printed as XPath.
#![tactic(auto)]

mod attributes;
mod choices;
mod languages;
mod laws;
mod literals;
mod names;
mod positions;
mod printing;
mod pseudo;
mod pushing;
mod relatives;
mod simples;
mod steps;
mod texts;

pub use laws::accepted_lists_keep_meaning;
pub use literals::literal;
pub use printing::translate;
