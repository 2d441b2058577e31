//! What is asked of the document of a page.
use page_records::{Entry, ReadyEntry};
use text_base::Seq;

/// What is asked of the document of a page.
#[derive(Clone, Copy)]
pub enum Asked<'a> {
    /// The values of these entries, which are ready.
    Values(&'a Seq<Entry>, &'a [ReadyEntry]),
    /// Its canonical markup.
    Markup,
}
