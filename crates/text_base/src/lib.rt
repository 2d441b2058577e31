//! What every layer stands on: texts and lists that contracts see as plain lists, the reasons of
//! refusals, places in a text, and the decoding of a page's bytes.
#![tactic(auto)]

mod characters;
mod containing;
mod decoding;
mod finding;
mod kinds;
mod laws;
mod letters;
mod limits;
mod memory;
mod names;
mod reasons;
mod txt;
mod words;

pub use characters::{char_len, char_sub};
pub use containing::{begins, ends, includes, is_empty};
pub use decoding::{decode_page, plain_page};
pub use finding::{byte_at, bytes_from, find_byte, find_text, is_same, part};
pub use kinds::{
    ByteKind, NotSpace4, Space4, Space5, is_digit, is_letter, is_name_byte, is_name_start,
    is_white, run_end,
};
pub use laws::decoded_texts;
pub use letters::{is_space4, is_space5, lower_ascii};
pub use limits::PAGE_LIMIT;
pub use memory::NoMemory;
pub use names::is_among;
pub use reasons::{PageFault, PageReason, ScriptFault, SelectorFault, XPathFault};
pub use sqlite_items::{Boxed, Items as Seq};
pub use txt::Txt;
pub use words::words_of;
