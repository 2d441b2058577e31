//! Scripts of fields and of blocks of records: read from a text, run on a document, and written as a line.
#![tactic(auto)]

mod blocks;
mod bodies;
mod braces;
mod entries;
mod laws;
mod lines;
mod parsing;
mod records;
mod refusals;
mod rows;
mod running;
mod script;
mod sizes;
mod stops;
mod words;

pub use braces::entry_pieces;
pub use entries::{ReadyEntry, prepare_entry};
pub use laws::{
    entries_run, one_entry_value, outcomes_have_forms, plain_entries, read_or_refused,
    reads_as_fields, selectors_are_texts,
};
pub use lines::record_line;
pub use parsing::parse_records;
pub use refusals::holds_refusal;
pub use running::{run_entry, run_ready_entry};
pub use script::{Block, Entry, EntryValue, RecordScript};
