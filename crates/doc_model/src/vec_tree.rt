//! A document that owns its rows.
ghost use Rattle.std.specs.Prelude.{◌≡◌, ◌<◌, ◌+◌, ◌^◌, ℕ, [], length};
ghost use Rattle.doc_model.specs.Document.{IsDocument};
ghost use Rattle.doc_model.specs.KeptRows.{Kept, rows_of, ends_of, AreEnds};
ghost use Rattle.std.proofs.Common.{arith};
ghost use Rattle.std.proofs.lemmas.List.{length-map};
ghost use Rattle.doc_model.specs.inner.Props.{is_document_prop};

use crate::kept_row::KeptRow;
use crate::tree::Tree;
use crate::{Kind, kept_rows};
use text_base::Txt;

/// A document that owns its rows, as `VecGrow` makes it. The root node takes no memory.
#[derive(Drop)]
pub struct VecTree {
    pub(crate) rows: Vec<KeptRow<Txt>>,
    ghost document: { IsDocument (rows_of rows.items) } by { is_document_prop _ },
    ghost small: { length rows.items + 1 < 2 ^ 32 },
    ghost ends: { AreEnds (rows_of rows.items) [] (ends_of rows.items) },
}

impl Tree for VecTree {
    ghost document = { λ t. rows_of t.rows.items };

    ghost is_document = { λ t. t.document };

    ghost is_small = { λ t. Prim.omega (arith, t.small, length-map t.rows.items (λ (r : Kept). r.row)) };

    fn len(&self) -> u32 {
        kept_rows::count(self.rows.as_slice())
    }

    fn kind(&self, i: u32) -> Kind {
        kept_rows::kind_at(self.rows.as_slice(), i)
    }

    fn name(&self, i: u32) -> &str {
        kept_rows::name_at(self.rows.as_slice(), i)
    }

    fn text(&self, i: u32) -> &str {
        kept_rows::text_at(self.rows.as_slice(), i)
    }

    fn parent(&self, i: u32) -> u32 {
        kept_rows::parent_at(self.rows.as_slice(), i)
    }

    fn end(&self, i: u32) -> u32 {
        kept_rows::end_at(self.rows.as_slice(), i)
    }
}
