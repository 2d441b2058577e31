//! Scripts: fields of a name, a chain of css, xpath, re and keep steps and an end, read from a text.
#![tactic(auto)]

mod chains;
mod cuts;
mod fields;
mod keeps;
mod laws;
mod names;
mod parsing;
mod queries;
mod script;
mod steps;
mod strings;

pub use chains::cut_steps;
pub use cuts::{field_pieces, quote_after, trimmed, written};
pub use fields::{parse_field_with, parse_fields_with};
pub use laws::{
    one_cut, queries_run, read_or_refused, reads_more, reasons_of_fields, selectors_are_texts,
};
pub use names::name_and_rest;
pub use parsing::{parse_script, parse_script_with};
pub use queries::{Found, find_step};
pub use script::{Chain, ChainStep, Field, FieldValue, Reason, Script, Take};
pub use steps::RawStep;
