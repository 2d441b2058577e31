//! The place at which an XPath text is refused.
ghost use Rattle.std.specs.Prelude.{◌≡◌, ◌≢◌, ◌↔◌, ◌<◌, false, length, map, IfOk, IfSome, OnOk, IsTrue, None};
ghost use Rattle.text_base.specs.Text.{IsPlace};
ghost use Rattle.test_registry.specs.View.{known};
ghost use Rattle.xpath_lexer.specs.Places.{lexeme_of};
ghost use Rattle.xpath_parser.specs.Laws.{IsReadOver};
ghost use Rattle.refusal_places.specs.Beginnings.{most_placed};
ghost use Rattle.refusal_places.specs.XPathPlaces as spec;
ghost use Rattle.refusal_places.specs.XPathPlaces.{IsXPathPlace};

use crate::beginnings::{Language, MOST_PLACED, joined, longest};
use crate::brackets::{Bracket, Brackets};
use std::alloc::Global;
use test_registry::Tests;
use text_base::{NoMemory, Space4, XPathFault, run_end};
use xpath_lexer::{XKind, XTok, one_spelling, xpath_tokens};
use xpath_parser::{never_both, parse_xpath_with};

/// What may follow a beginning that goes on, before what closes its brackets.
static ENDINGS: [&str; 15] = [
    "", "a", " a", "=a", ":a", "a,a", "a,a,a", ",a", ",a,a", "\"", "'", "\",a", "',a", "\",a,a",
    "',a,a",
];

/// Opens what a token opens, or closes what it closes.
fn note(brackets: &mut Brackets, kind: XKind) -> Result<(), NoMemory>
    ensures { OnOk result (brackets.new ≡ spec.open_after brackets.old kind) }
{
    match kind {
        XKind::OpenRound => brackets.open(Bracket::Round),
        XKind::OpenSquare => brackets.open(Bracket::Square),
        XKind::CloseRound | XKind::CloseSquare => {
            brackets.close();
            Ok(())
        }
        _ => Ok(()),
    }
}

/// The brackets that are open after the tokens.
fn open_brackets(alloc: Global, tokens: &[XTok]) -> Result<Brackets, NoMemory>
    ensures { IfOk result (λ brackets. brackets ≡ spec.closers (map lexeme_of tokens.now)) }
{
    let mut brackets = Brackets::new(alloc);
    for token in tokens {
        note(&mut brackets, token.kind)?;
    }
    Ok(brackets)
}

/// That a text is refused, but for want of memory.
fn refused(fault: XPathFault) -> Result<bool, NoMemory>
    ensures { IfOk result (λ found. (found ≡ false) × (fault ≢ XPathFault.Memory)) }
{
    match fault {
        XPathFault::Memory => Err(NoMemory),
        _ => Ok(false),
    }
}

/// Whether a text reads as an expression where these tests are stored.
fn is_read(alloc: Global, text: &str, tests: &Tests) -> Result<bool, NoMemory>
    ensures { IfOk result (λ found. IsTrue found ↔ IsReadOver (known tests.now) text.now) }
{
    never_both();
    match parse_xpath_with(alloc, text, tests) {
        Ok(_expression) => Ok(true),
        Err(fault) => refused(fault),
    }
}

/// The language of XPath where some tests are stored.
#[derive(Drop)]
struct XPaths<'t> {
    tests: &'t Tests,
}

impl<'t> Language for XPaths<'t> {
    ghost use Rattle.test_registry.specs.View.{known};
    ghost use Rattle.refusal_places.specs.XPathPlaces.{GoesOnBy};

    ghost goes = { λ x. GoesOnBy (known x.tests.now) };

    fn goes_by(&self, alloc: Global, beginning: &str, ending: &str) -> Result<bool, NoMemory> {
        one_spelling();
        let mut text = joined(alloc, beginning, ending)?;
        let tokens = match xpath_tokens(alloc, text.as_str()) {
            Ok(tokens) => tokens,
            Err(fault) => return refused(fault),
        };
        let brackets = open_brackets(alloc, tokens.as_slice())?;
        brackets.push_closing(&mut text)?;
        is_read(alloc, text.as_str(), self.tests)
    }
}

/// The place in bytes at which an XPath text is refused where these tests are stored, or its length
/// where nothing more is missing than an ending. `None` where the text has more than 16,384 bytes,
/// since the time is in proportion to the square of its length.
#[tactic(auto, unfolding(crate::specs::XPathPlaces::endings), using(crate::proofs::Endings::placed))]
pub fn xpath_place(alloc: Global, text: &str, tests: &Tests) -> Result<Option<usize>, NoMemory>
    ensures place { IfOk result (λ found. IfSome found (IsXPathPlace (known tests.now) text.now)) }
    ensures boundary { IfOk result (λ found. IfSome found (IsPlace text.now)) }
    ensures none { IfOk result (λ found. (found ≡ None) ↔ (most_placed < length text.now)) }
{
    if text.len() > MOST_PLACED {
        return Ok(None);
    }
    let size = longest(alloc, &XPaths { tests }, &ENDINGS, text)?;
    Ok(Some(run_end(text, &Space4, size)))
}
