//! Building a document in an arena.
ghost use Rattle.std.specs.Prelude.{◌≡◌, [], IfOk};
ghost use Rattle.std.specs.Str.{chars};
ghost use Rattle.doc_model.specs.Growing.{fresh};
ghost use Rattle.doc_model.specs.KeptRows.{growing_of};
ghost use Rattle.doc_model.specs.Pieces.{piece_text};

use crate::tree::ArenaTree;
use bumpalo::Bump;
use bumpalo::collections::into_bump_slice;
use doc_model::{Grow, GrowingRows, Piece};
use text_base::NoMemory;

/// A document that is being built in an arena, from which it takes all its memory.
#[derive(Drop)]
pub struct ArenaGrow<'a> {
    arena: &'a Bump,
    kept: GrowingRows<&'a str, &'a Bump>,
}

/// A piece of the page as it is, or a copy of a made one in the arena. It lives as long as the page and the arena.
fn keep<'a>(arena: &'a Bump, piece: Piece<'a, '_>) -> Result<&'a str, NoMemory>
    ensures { IfOk result (λ text. chars text.now ≡ piece_text piece.entry) }
{
    match piece {
        Piece::Page(text) => Ok(text),
        Piece::Made(text) => Ok(arena.try_alloc_str(text)?),
    }
}

/// The empty text.
fn nothing<'a>() -> &'a str
    ensures { chars result.now ≡ [] }
{
    ""
}

impl<'a> ArenaGrow<'a> {
    /// A document of the root node alone. It takes no memory.
    pub fn new(arena: &'a Bump) -> ArenaGrow<'a>
        ensures { ⟦<ArenaGrow<'a> as Grow<'a>>⟧.growing result ≡ fresh }
    {
        ArenaGrow {
            arena,
            kept: GrowingRows::new(arena),
        }
    }

    /// The same, with room for so many rows.
    pub fn with_room(arena: &'a Bump, rows: usize) -> Result<ArenaGrow<'a>, NoMemory>
        ensures { IfOk result (λ g. ⟦<ArenaGrow<'a> as Grow<'a>>⟧.growing g ≡ fresh) }
    {
        Ok(ArenaGrow {
            arena,
            kept: GrowingRows::with_room(arena, rows)?,
        })
    }
}

impl<'a> Grow<'a> for ArenaGrow<'a> {
    type Done = ArenaTree<'a>;

    ghost growing = { λ g. growing_of g.kept.rows.items g.kept.unclosed.items };

    ghost is_growing = { λ g. g.kept.grown };

    fn element(&mut self, name: Piece<'a, '_>) -> Result<(), NoMemory> {
        let name = keep(self.arena, name)?;
        self.kept.element(name, nothing())
    }

    fn attr(&mut self, name: Piece<'a, '_>, value: Piece<'a, '_>) -> Result<(), NoMemory> {
        let name = keep(self.arena, name)?;
        let value = keep(self.arena, value)?;
        self.kept.attr(name, value)
    }

    fn text(&mut self, text: Piece<'a, '_>) -> Result<(), NoMemory> {
        let text = keep(self.arena, text)?;
        self.kept.text(nothing(), text)
    }

    fn comment(&mut self, text: Piece<'a, '_>) -> Result<(), NoMemory> {
        let text = keep(self.arena, text)?;
        self.kept.comment(nothing(), text)
    }

    fn close(&mut self) {
        self.kept.close();
    }

    /// The document, with its rows as one slice of the arena.
    fn finish(self) -> Result<ArenaTree<'a>, NoMemory> {
        let ArenaGrow { kept, .. } = self;
        Ok(ArenaTree {
            rows: into_bump_slice(kept.into_rows()),
        })
    }
}
