ghost use Rattle.std.specs.Prelude.{◌≡◌, ℕ, Bool, List, length, map, slice_range};
ghost use Rattle.text_base.specs.declared.reasons.PageReason.{PageReason};
ghost use Rattle.html_lexer.specs.Tokens.{Tok};
ghost use Rattle.html_lexer.specs.Attributes.{Writes, pair_at};
ghost use Rattle.html_lexer.specs.Tags.{TagReads};
ghost use Rattle.html_lexer.specs.declared.tags.Attribute.{Attribute};
ghost use Rattle.html_lexer.specs.Lexing.{Lexes, LexFault, IsWhole};
ghost use Rattle.html_lexer.specs.TokenLaws.{PlainText, RawText, CommentText, OneStep, WrittenTag, WrittenAttributes};

use crate::lexer::Lexer;
use crate::tags::AttrStep;
use text_base::PageFault;

/// The first place at which a token of the page is refused, or None where tokens spell all of it.
/// So each text has a list of tokens or a fault.
#[tactic(auto, using(crate::proofs::LexLemmas::read_none, crate::proofs::LexLemmas::read_token, crate::proofs::LexLemmas::read_fault, crate::proofs::LexLemmas::read_all))]
pub fn lexical_fault(text: &str) -> Option<PageFault>
    ensures { IsWhole text.now result }
{
    let mut lexer = Lexer::new(text);
    loop {
        match lexer.next() {
            Ok(Some(_)) => {}
            Ok(None) => return None,
            Err(fault) => return Some(fault),
        }
    }
}

/// A text has one list of tokens or one fault, and never both.
pub fn one_reading()
    ensures tokens { (text : List ℕ) (us vs : List Tok) → Lexes text (length text) us → Lexes text (length text) vs → us ≡ vs }
    ensures apart { (text : List ℕ) (us : List Tok) (reason : PageReason) (at : ℕ) → Lexes text (length text) us → LexFault text reason at → ⊥ }
    ensures fault { (text : List ℕ) (reason other : PageReason) (at place : ℕ) → LexFault text reason at → LexFault text other place → (reason ≡ other) × (at ≡ place) }
{}

/// What stands in a start tag writes one list of attributes, and it is the list that the tag reads in
/// its page.
pub fn one_attribute_list()
    ensures page { (text : List ℕ) (n m to : ℕ) (slash : Bool) (attributes : List Attribute) → TagReads text n attributes (AttrStep.Closes m to slash) → Writes (slice_range text n m) 0 (map (pair_at text) attributes) }
    ensures one { (attrs : List ℕ) (ps qs : List (List ℕ × List ℕ)) → Writes attrs 0 ps → Writes attrs 0 qs → ps ≡ qs }
{}

/// What tokens are. A text token goes up to the first place at which markup begins, or to the end of the page; raw text
/// goes up to the first end tag of its element; a comment token is its marks and its text, in which no mark stands that
/// ends a comment; at a place of a page one thing begins; a start tag that is written with its attributes in double
/// quotes is read with this name and these attributes.
pub fn token_laws()
    ensures plain { PlainText }
    ensures raw { RawText }
    ensures comment { CommentText }
    ensures one_step { OneStep }
    ensures start_tag { WrittenTag }
    ensures attributes { WrittenAttributes }
{}
