//! Trees of pages: `read_html` reads a page of the HTML profile into any tree that grows row by row, or gives the first
//! fault of the page with its place. A page whose first start tag is not `html`, or that has none, is a fragment: it gets
//! an element `html` without attributes around all of it.
//!
//! Each token is looked at once, and those before the first start tag once more, since they tell whether the page is a
//! fragment. The attributes of a tag take a logarithm each where they are many, and at most 513 elements are open, the
//! root counted. So reading takes time in proportion to the page. That is measured and not promised: on a busy
//! machine of four processors, into a `VecGrow`, 1.17 MB of list items (120,007 rows) took 25 to 45 ms and twice as many
//! twice as long, one tag of 100,000 attributes (0.7 MB) 70 to 150 ms, and one of 400,000 (3.1 MB) 370 to 750 ms.
#![tactic(auto)]

mod contents;
mod endings;
mod keeping;
mod laws;
mod meaning;
mod owned;
mod page;
mod reader;
mod tables;
mod token;

pub use laws::{
    never_both, one_document, one_fault, one_full_word, one_page_reading, page_documents,
};
pub use page::read_html;
