//! The top call of the program `extract`: compiles CSS selectors to XPath, runs scripts of queries on pages, and writes pages as
//! canonical markup.
#![tactic(auto)]

mod answers;
mod asked;
mod bulk;
mod laws;
mod page_lines;
mod pages;
mod status;
mod top;
mod words;
mod writing;

pub use answers::Line;
pub use laws::{
    bulk_script_reads, laws_below, one_reading, plain_scripts, the_plan, words_of_commands,
};
pub use status::Status;
pub use top::{extract, extract_with};
pub use words::dialect_of;
pub use writing::{write_alone, write_line};
