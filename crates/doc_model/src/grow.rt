//! Documents that are built row by row.
ghost use Rattle.std.specs.Prelude.{◌≡◌, ◌≢◌, ◌<◌, ◌+◌, ◌^◌, ℕ, [], length, OnOk, OnErr, IfOk};
ghost use Rattle.doc_model.specs.Growing.{Growing, with_element, with_attr, with_text, with_comment, with_close, AwaitsAttr, AwaitsText, IsGrowing};
ghost use Rattle.doc_model.specs.Pieces.{piece_text};

use crate::tree::Tree;
use text_base::NoMemory;

/// A text that is a slice of the page, or one that was made from it.
#[derive(Clone, Copy, Debug)]
pub enum Piece<'p, 'q> {
    Page(&'p str),
    Made(&'q str),
}

/// A document that grows at its end. Each call adds its row below the innermost element that is not yet closed, or
/// below the root node. There is room for 4,294,967,295 rows. Where no memory is found, the rows stay as they were.
pub trait Grow<'p> {
    /// The document that comes of it.
    type Done: Tree;

    /// The rows so far, and the elements not yet closed.
    ghost growing: { Self → Growing };

    /// An element, which is open until `close`.
    fn element(&mut self, name: Piece<'p, '_>) -> Result<(), NoMemory>
        requires name { piece_text name ≢ [] }
        requires room { length (growing self.old).rows + 1 < 2 ^ 32 }
        ensures ok { OnOk result (growing self.new ≡ with_element (growing self.old) (piece_text name.entry)) }
        ensures err { OnErr result (growing self.new ≡ growing self.old) };

    /// An attribute of the innermost open element. It comes directly after the element or another attribute of it,
    /// which has another name.
    fn attr(&mut self, name: Piece<'p, '_>, value: Piece<'p, '_>) -> Result<(), NoMemory>
        requires name { piece_text name ≢ [] }
        requires awaits { AwaitsAttr (growing self.old) (piece_text name) }
        requires room { length (growing self.old).rows + 1 < 2 ^ 32 }
        ensures ok { OnOk result (growing self.new ≡ with_attr (growing self.old) (piece_text name.entry) (piece_text value.entry)) }
        ensures err { OnErr result (growing self.new ≡ growing self.old) };

    /// A text, which is not empty. It comes below an element, and not next to another text there.
    fn text(&mut self, text: Piece<'p, '_>) -> Result<(), NoMemory>
        requires some { piece_text text ≢ [] }
        requires awaits { AwaitsText (growing self.old) }
        requires room { length (growing self.old).rows + 1 < 2 ^ 32 }
        ensures ok { OnOk result (growing self.new ≡ with_text (growing self.old) (piece_text text.entry)) }
        ensures err { OnErr result (growing self.new ≡ growing self.old) };

    /// A comment, which may be empty and may stand below the root node.
    fn comment(&mut self, text: Piece<'p, '_>) -> Result<(), NoMemory>
        requires { length (growing self.old).rows + 1 < 2 ^ 32 }
        ensures ok { OnOk result (growing self.new ≡ with_comment (growing self.old) (piece_text text.entry)) }
        ensures err { OnErr result (growing self.new ≡ growing self.old) };

    /// Closes the innermost open element.
    fn close(&mut self)
        requires { (growing self.old).open_rows ≢ [] }
        ensures { growing self.new ≡ with_close (growing self.old) };

    /// The document, where no element is open any more. The rows are dropped where no memory is found.
    fn finish(self) -> Result<Self::Done, NoMemory>
        requires { (growing self).open_rows ≡ [] }
        ensures { IfOk result (λ done. Self.Done.document done ≡ (growing self).rows) };

    /// The rows so far are a document, and the open elements are a chain of parents that ends at the last row.
    ghost is_growing: { (g : Self) → IsGrowing (growing g) };
}
