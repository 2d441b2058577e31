//! The place at which a selector is refused.
ghost use Rattle.std.specs.Prelude.{◌≡◌, ◌≢◌, ◌↔◌, ◌<◌, false, length, IfOk, IfSome, OnOk, IsTrue, None};
ghost use Rattle.text_base.specs.Text.{IsPlace};
ghost use Rattle.refusal_places.specs.Beginnings.{most_placed};
ghost use Rattle.refusal_places.specs.SelectorPlaces as spec;
ghost use Rattle.refusal_places.specs.SelectorPlaces.{IsSelectorPlace};
ghost use Rattle.refusal_places.specs.inner.Accepted.{IsAccepted};

use crate::beginnings::{Language, MOST_PLACED, joined, longest};
use crate::brackets::{Bracket, Brackets};
use css_lexer::{CssKind, CssToken, css_tokens};
use css_parser::parse_selectors;
use std::alloc::Global;
use text_base::{NoMemory, SelectorFault, Space5, run_end};

/// What may follow a beginning that goes on, before what closes its brackets.
static ENDINGS: [&str; 12] = [
    "", "a", "1", "\"", "'", "=a", "(a", "(1", "not(a", "text", "*/", "*/a",
];

/// Opens what a token opens, or closes what it closes.
fn note(brackets: &mut Brackets, kind: CssKind) -> Result<(), NoMemory>
    ensures { OnOk result (brackets.new ≡ spec.open_after brackets.old kind) }
{
    match kind {
        CssKind::Function => brackets.open(Bracket::Round),
        CssKind::OpenSquare => brackets.open(Bracket::Square),
        CssKind::CloseRound | CssKind::CloseSquare => {
            brackets.close();
            Ok(())
        }
        _ => Ok(()),
    }
}

/// The brackets that are open after the tokens.
fn open_brackets(alloc: Global, tokens: &[CssToken]) -> Result<Brackets, NoMemory>
    ensures { IfOk result (λ brackets. brackets ≡ spec.closers tokens.now) }
{
    let mut brackets = Brackets::new(alloc);
    for token in tokens {
        note(&mut brackets, token.kind)?;
    }
    Ok(brackets)
}

/// That a text is refused, but for want of memory.
fn refused(fault: SelectorFault) -> Result<bool, NoMemory>
    ensures { IfOk result (λ found. (found ≡ false) × (fault ≢ SelectorFault.Memory)) }
{
    match fault {
        SelectorFault::Memory => Err(NoMemory),
        _ => Ok(false),
    }
}

/// Whether a text is a list of selectors.
fn is_accepted(alloc: Global, text: &str) -> Result<bool, NoMemory>
    ensures { IfOk result (λ found. IsTrue found ↔ IsAccepted text.now) }
{
    // A text is accepted or has a fault, and not both.
    css_parser::one_list_or_fault();
    match parse_selectors(alloc, text) {
        Ok(_list) => Ok(true),
        Err(fault) => refused(fault),
    }
}

/// The language of selectors.
struct Selectors;

impl Language for Selectors {
    ghost use Rattle.refusal_places.specs.SelectorPlaces.{GoesOnBy};

    ghost goes = { λ _. GoesOnBy };

    fn goes_by(&self, alloc: Global, beginning: &str, ending: &str) -> Result<bool, NoMemory> {
        // Tokens spell a text, or after some no token begins, and not both.
        css_lexer::one_list_or_fault();
        let mut text = joined(alloc, beginning, ending)?;
        let tokens = match css_tokens(alloc, text.as_str()) {
            Ok(tokens) => tokens,
            Err(fault) => return refused(fault),
        };
        let brackets = open_brackets(alloc, tokens.as_slice())?;
        brackets.push_closing(&mut text)?;
        is_accepted(alloc, text.as_str())
    }
}

/// The place in bytes at which a selector is refused, or its length where nothing more is missing
/// than an ending. `None` where the text has more than 16,384 bytes, since the time is in proportion
/// to the square of its length.
#[tactic(auto, unfolding(crate::specs::SelectorPlaces::endings), using(crate::proofs::Endings::placed))]
pub fn selector_place(alloc: Global, text: &str) -> Result<Option<usize>, NoMemory>
    ensures place { IfOk result (λ found. IfSome found (IsSelectorPlace text.now)) }
    ensures boundary { IfOk result (λ found. IfSome found (IsPlace text.now)) }
    ensures none { IfOk result (λ found. (found ≡ None) ↔ (most_placed < length text.now)) }
{
    if text.len() > MOST_PLACED {
        return Ok(None);
    }
    let size = longest(alloc, &Selectors, &ENDINGS, text)?;
    Ok(Some(run_end(text, &Space5, size)))
}
