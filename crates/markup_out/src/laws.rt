//! What holds of the markup of all documents.
ghost use Rattle.markup_out.specs.Laws.{MarkupOfChildren};

/// The markup of a row is made of the markup of its children.
#[tactic(auto, using(crate::proofs::Levels::markup_of_children))]
pub fn markup_of_children()
    ensures { MarkupOfChildren }
{}
