//! Canonical markup, and the tree that is read of it.
ghost use Rattle.std.specs.Prelude.{◌≡◌, ◌≤◌, ℕ, List, length, IfOk, string_bytes, encode_utf8_all};
ghost use Rattle.std.specs.Str.{chars, IsUtf8};
ghost use Rattle.text_base.specs.Limits.{most_page};
ghost use Rattle.html_reader.specs.Pages.{BuildsPage};
ghost use Rattle.markup_out.specs.Markup as spec;

use doc_model::{Tree, VecGrow, VecTree};
use html_reader::read_html;
use std::alloc::Global;
use text_base::{NoMemory, PageReason};

/// The canonical markup of the tree's document. Where a UTF-8 text builds the document, it builds the document too.
pub fn canonical<T: Tree>(alloc: Global, tree: &T) -> Result<String, NoMemory>
    ensures chars { IfOk result (λ s. chars (string_bytes s) ≡ spec.canonical (T.document tree.now)) }
    ensures bytes { IfOk result (λ s. string_bytes s ≡ encode_utf8_all (spec.canonical (T.document tree.now))) }
    ensures builds { IfOk result (λ s. (page : List ℕ) → IsUtf8 page → BuildsPage page (T.document tree.now) → BuildsPage (string_bytes s) (T.document tree.now)) }
{
    match markup_out::canonical(alloc, tree, usize::MAX) {
        Ok(text) => Ok(text),
        Err(_) => Err(NoMemory),
    }
}

/// The tree that HTML makes of the canonical markup of a tree whose document a UTF-8 text builds. It has the same
/// document, and the markup has no fault.
pub fn read_back<T: Tree>(alloc: Global, tree: &T) -> Result<VecTree, NoMemory>
    requires builds { (page : List ℕ) × (IsUtf8 page × BuildsPage page (T.document tree.now)) }
    requires short { length (encode_utf8_all (spec.canonical (T.document tree.now))) ≤ most_page }
    ensures { IfOk result (λ done. ⟦<VecTree as Tree>⟧.document done ≡ T.document tree.now) }
{
    let text = canonical(alloc, tree)?;
    match read_html(alloc, text.as_str(), VecGrow::new(alloc)) {
        Ok(done) => Ok(done),
        Err(fault) => match fault.reason {
            PageReason::Memory => Err(NoMemory),
            _ => unreachable!(),
        },
    }
}
