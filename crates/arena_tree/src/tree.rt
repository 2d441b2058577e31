//! A document that lies in an arena.
ghost use Rattle.std.specs.Prelude.{◌<◌, ◌+◌, ◌^◌, [], length};
ghost use Rattle.doc_model.specs.Document.{IsDocument};
ghost use Rattle.doc_model.specs.KeptRows.{Kept, rows_of, ends_of, AreEnds};
ghost use Rattle.doc_model.specs.inner.Props.{is_document_prop};
ghost use Rattle.std.proofs.Common.{arith};
ghost use Rattle.std.proofs.lemmas.List.{length-map};

use doc_model::{KeptRow, Kind, Tree, kept_rows};

/// A document whose rows are one slice of an arena, as `ArenaGrow` makes it. Its names and texts are borrowed from the
/// page or the arena, and both outlive it. The root node has no row there.
#[derive(Drop)]
pub struct ArenaTree<'a> {
    pub(crate) rows: &'a [KeptRow<&'a str>],
    ghost document: { IsDocument (rows_of rows.now) } by { is_document_prop _ },
    ghost small: { length rows.now + 1 < 2 ^ 32 },
    ghost ends: { AreEnds (rows_of rows.now) [] (ends_of rows.now) },
}

impl<'a> Tree for ArenaTree<'a> {
    ghost document = { λ t. rows_of t.rows.now };

    ghost is_document = { λ t. t.document };

    ghost is_small = { λ t. Prim.omega (arith, t.small, length-map t.rows.now (λ (r : Kept). r.row)) };

    fn len(&self) -> u32 {
        kept_rows::count(self.rows)
    }

    fn kind(&self, i: u32) -> Kind {
        kept_rows::kind_at(self.rows, i)
    }

    fn name(&self, i: u32) -> &str {
        kept_rows::name_at(self.rows, i)
    }

    fn text(&self, i: u32) -> &str {
        kept_rows::text_at(self.rows, i)
    }

    fn parent(&self, i: u32) -> u32 {
        kept_rows::parent_at(self.rows, i)
    }

    fn end(&self, i: u32) -> u32 {
        kept_rows::end_at(self.rows, i)
    }
}
