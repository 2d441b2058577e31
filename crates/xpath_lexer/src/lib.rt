//! XPath text into tokens.
#![tactic(auto)]

mod laws;
mod sizes;
mod token;
mod tokens;

pub use laws::one_spelling;
pub use token::{XKind, XTok};
pub use tokens::{XPATH_LIMIT, xpath_tokens};
