//! Character references of HTML: `&lt;`, `&#60;`, `&#x3c;`. A named one stands only for the
//! names of `tables`, and only with its `;`.
#![tactic(auto)]

mod references;
mod tables;

pub use references::{decode_refs, reference};
