//! What holds of the canonical markup of the documents of pages.
ghost use Rattle.markup_back.specs.Laws.{CanonicalBuilds};

/// Where a UTF-8 text builds a document, the canonical markup of the document builds it.
#[tactic(auto, using(crate::proofs::LawLemmas::canonical_builds))]
pub fn canonical_builds()
    ensures { CanonicalBuilds }
{}
