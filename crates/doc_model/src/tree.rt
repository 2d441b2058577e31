//! Documents that are read row by row.
ghost use Rattle.std.specs.Prelude.{◌≡◌, ◌<◌, ◌^◌, ℕ, length, encode_utf8_all};
ghost use Rattle.std.specs.Str.{chars};
ghost use Rattle.doc_model.specs.Document.{Document, row, IsDocument};
ghost use Rattle.doc_model.specs.Ends.{IsEnd};

use crate::Kind;

/// A document, read row by row. Row 0 is the root node, and rows stand in document order. Nothing here takes memory.
pub trait Tree {
    /// The rows of the document.
    ghost document: { Self → Document };

    /// How many rows there are, the root node included.
    fn len(&self) -> u32
        ensures { result ≡ length (document self.now) };

    /// What the row is.
    fn kind(&self, i: u32) -> Kind
        requires { i < length (document self.now) }
        ensures { result ≡ (row (document self.now) i).kind };

    /// The name of an element or an attribute. It is empty for all other rows.
    fn name(&self, i: u32) -> &str
        requires { i < length (document self.now) }
        ensures chars { chars result.now ≡ (row (document self.now) i).name }
        ensures bytes { result.now ≡ encode_utf8_all (row (document self.now) i).name };

    /// The value of an attribute, or the content of a text or a comment. It is empty for all other rows.
    fn text(&self, i: u32) -> &str
        requires { i < length (document self.now) }
        ensures chars { chars result.now ≡ (row (document self.now) i).text }
        ensures bytes { result.now ≡ encode_utf8_all (row (document self.now) i).text };

    /// The row of the parent, which is smaller. It is 0 for the root node, too.
    fn parent(&self, i: u32) -> u32
        requires { i < length (document self.now) }
        ensures { result ≡ (row (document self.now) i).parent };

    /// The first row after `i` that is not below `i`, or the number of rows.
    fn end(&self, i: u32) -> u32
        requires { i < length (document self.now) }
        ensures { IsEnd (document self.now) i result };

    /// The rows are a document.
    ghost is_document: { (t : Self) → IsDocument (document t) };

    /// Their number is one of a row.
    ghost is_small: { (t : Self) → length (document t) < 2 ^ 32 };
}
