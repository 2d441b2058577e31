//! The outside: where pages are read from, and where lines are written.
#![tactic(auto)]

mod file_pages;
mod laws;
mod mem_pages;
mod mem_sink;
mod null_sink;
mod page_file;
mod pages;
mod read;
mod shelf;
mod sink;
mod stdout_sink;
mod sure_pages;
mod write;

pub use file_pages::FilePages;
pub use laws::{never_counts, pieces_add_up};
pub use mem_pages::MemPages;
pub use mem_sink::MemSink;
pub use null_sink::NullSink;
pub use page_file::PageFile;
pub use pages::{BeginFault, Failed, Pages};
pub use read::{ReadEnd, read_page};
pub use sink::Sink;
pub use stdout_sink::StdoutSink;
pub use sure_pages::SurePages;
pub use text_base::PAGE_LIMIT;
pub use write::{WriteFault, write_whole};

/// How often a call of the system is tried that a signal ended before any byte was moved.
const TRIES: usize = 1000;
