//! Building a document that owns its rows.
ghost use Rattle.std.specs.Prelude.{◌≡◌, [], IfOk};
ghost use Rattle.doc_model.specs.Growing.{fresh};
ghost use Rattle.doc_model.specs.KeptRows.{growing_of};
ghost use Rattle.doc_model.specs.Pieces.{piece_text};

use crate::grow::{Grow, Piece};
use crate::growing_rows::GrowingRows;
use crate::vec_tree::VecTree;
use std::alloc::Global;
use text_base::{NoMemory, Txt};

/// A document that is being built, and owns its rows.
#[derive(Drop)]
pub struct VecGrow {
    alloc: Global,
    kept: GrowingRows<Txt, Global>,
}

/// A copy of a piece.
fn keep(alloc: Global, piece: Piece<'_, '_>) -> Result<Txt, NoMemory>
    ensures { IfOk result (λ t. t ≡ piece_text piece.entry) }
{
    match piece {
        Piece::Page(text) => Txt::of(alloc, text),
        Piece::Made(text) => Txt::of(alloc, text),
    }
}

/// The empty text.
fn nothing(alloc: Global) -> Txt
    ensures { result ≡ [] }
{
    Txt::from_string(String::new(alloc))
}

impl VecGrow {
    /// A document of the root node alone. It takes no memory.
    pub fn new(alloc: Global) -> VecGrow
        ensures { ⟦<VecGrow as Grow<'static>>⟧.growing result ≡ fresh }
    {
        VecGrow {
            alloc,
            kept: GrowingRows::new(alloc),
        }
    }
}

impl<'p> Grow<'p> for VecGrow {
    type Done = VecTree;

    ghost growing = { λ g. growing_of g.kept.rows.items g.kept.unclosed.items };

    ghost is_growing = { λ g. g.kept.grown };

    fn element(&mut self, name: Piece<'p, '_>) -> Result<(), NoMemory> {
        let name = keep(self.alloc, name)?;
        self.kept.element(name, nothing(self.alloc))
    }

    fn attr(&mut self, name: Piece<'p, '_>, value: Piece<'p, '_>) -> Result<(), NoMemory> {
        let name = keep(self.alloc, name)?;
        let value = keep(self.alloc, value)?;
        self.kept.attr(name, value)
    }

    fn text(&mut self, text: Piece<'p, '_>) -> Result<(), NoMemory> {
        let text = keep(self.alloc, text)?;
        self.kept.text(nothing(self.alloc), text)
    }

    fn comment(&mut self, text: Piece<'p, '_>) -> Result<(), NoMemory> {
        let text = keep(self.alloc, text)?;
        self.kept.comment(nothing(self.alloc), text)
    }

    fn close(&mut self) {
        self.kept.close();
    }

    fn finish(self) -> Result<VecTree, NoMemory> {
        let VecGrow { kept, .. } = self;
        Ok(VecTree {
            rows: kept.into_rows(),
        })
    }
}
