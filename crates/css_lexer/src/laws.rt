ghost use Rattle.css_lexer.specs.Laws.{HasOneList, IsListOrStop, IsReadOrStops};
ghost use Rattle.css_lexer.specs.Spelled.{IsReadBack};

/// Of a text that is not too long exactly one holds: one list of tokens spells it, or after some
/// tokens no token begins.
#[tactic(auto, using(crate::proofs::Lexing::lexes_or_stops, crate::proofs::TokenLemmas::one_list, crate::proofs::TokenLemmas::not_both))]
pub fn one_list_or_fault()
    ensures one_list { HasOneList }
    ensures not_both { IsReadOrStops }
    ensures some { IsListOrStop }
{}

/// A text in which tokens are written plainly is read as these tokens: each character of a name or a
/// string as an escape, and an empty comment after each token.
pub fn plain_texts_are_read_back()
    ensures { IsReadBack }
{}
