//! Running a field: its steps one after the other on a document, within limits.
#![tactic(auto)]

mod found;
mod items;
mod keep;
mod laws;
mod limits;
mod pattern;
mod ready;
mod ready_steps;
mod rows;
mod run;
mod search;
mod select;
mod steps;

pub use laws::{a_value, one_value};
pub use ready::{Ready, prepare_with};
pub use rows::{ReadyRows, prepare_rows, run_rows};
pub use run::{run_field, run_field_at, run_field_with, run_ready_at};
