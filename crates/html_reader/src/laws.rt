//! What holds of all lists of tokens, and of all pages.
ghost use Rattle.std.specs.Prelude.{ℕ, List};
ghost use Rattle.html_reader.specs.Laws.{OneDocument, NeverBoth, OneFault};
ghost use Rattle.html_reader.specs.PageLaws.{OnePageDocument, OnePageFault, NeverBothOfPage, PageReasons, PageAnswer, PageDocuments, OneWord};

/// Tokens build one document at most.
#[tactic(auto, using(crate::proofs::LawLemmas::document_law))]
pub fn one_document()
    ensures { OneDocument }
{}

/// Where a token is refused, or the end of the text, the tokens build no document.
#[tactic(auto, using(crate::proofs::LawLemmas::both_law))]
pub fn never_both()
    ensures { NeverBoth }
{}

/// A token, or the end of the text, is refused for one reason, and it is the only one that is refused.
#[tactic(auto, using(crate::proofs::LawLemmas::fault_law))]
pub fn one_fault()
    ensures { OneFault }
{}

/// A page builds one document or has one fault, and never both. Which of the two, and what it is, the lemma
/// `PageReadings::a_reading` constructs.
pub fn one_page_reading()
    ensures document { OnePageDocument }
    ensures fault { OnePageFault }
    ensures apart { NeverBothOfPage }
    ensures reasons { PageReasons }
    ensures either { (page : List ℕ) → PageAnswer page }
{}

/// What a page of `PAGE_LIMIT` bytes at most builds is a document, if the page is UTF-8. Its rows and the characters of each
/// attribute's value are so few that XPath's numbers count them, so what a printed selector means holds of it.
pub fn page_documents()
    ensures { PageDocuments }
{}

/// Tokens have one full word at most.
pub fn one_full_word()
    ensures { OneWord }
{}
