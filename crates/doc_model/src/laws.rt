//! What holds of all documents, and of one that was worked by hand.
ghost use Rattle.std.specs.Prelude.{◌≡◌, IfOk};
ghost use Rattle.doc_model.specs.Growing.{fresh};
ghost use Rattle.doc_model.specs.Laws.{OneEnd, AxesPart};
ghost use Rattle.doc_model.specs.Worked.{worked, WorkedDocument, WorkedLists};

use crate::grow::{Grow, Piece};
use text_base::NoMemory;

/// The rows below a row have one end.
#[tactic(auto, using(crate::proofs::Partition::one_end))]
pub fn one_end()
    ensures { OneEnd }
{}

/// The ancestor, descendant, following, preceding and self axes of a row part the document, attributes left aside.
/// XPath 1.0, section 2.2.
#[tactic(auto, using(crate::proofs::Partition::axes_part))]
pub fn axes_part_documents()
    ensures { AxesPart }
{}

/// A document that was worked by hand is one.
#[tactic(auto, using(crate::proofs::Worked::worked_document))]
pub fn worked_is_document()
    ensures { WorkedDocument }
{}

/// What stands on its axes.
#[tactic(auto, using(crate::proofs::Worked::worked_lists))]
pub fn worked_axes()
    ensures { WorkedLists }
{}

/// Any builder makes it, call by call: the document of `<p c="x">ab<!--k--><q>z</q></p>`.
pub fn build_worked<'p, G: Grow<'p> + Drop>(grow: G) -> Result<G::Done, NoMemory>
    requires { G.growing grow ≡ fresh }
    ensures { IfOk result (λ done. G.Done.document done ≡ worked) }
{
    let mut grow = grow;
    grow.element(Piece::Made("p"))?;
    grow.attr(Piece::Made("c"), Piece::Page("x"))?;
    grow.text(Piece::Page("ab"))?;
    grow.comment(Piece::Page("k"))?;
    grow.element(Piece::Made("q"))?;
    grow.text(Piece::Page("z"))?;
    grow.close();
    grow.close();
    grow.finish()
}
