//! One step as it is written.
ghost use Rattle.std.specs.Prelude.{◌≡◌, Some, None, MatchOption, IfOk};
ghost use Rattle.query_script.specs.inner.Reader.{read_word, inside_of, read_inside, read_step};

use crate::cuts::trimmed;
use crate::keeps::read_keep;
use crate::names::split_at;
use crate::strings::read_string;
use std::alloc::Global;
use text_base::{NoMemory, Txt, byte_at, part};

/// A step as it is written, with what its strings stand for: a query by a selector, a query by
/// XPath, a match of a pattern, or the name of a test and the text that it is asked.
#[derive(Debug, Drop)]
pub enum RawStep {
    Css(Txt),
    XPath(Txt),
    Re(Txt),
    Keep(Txt, Txt),
}

/// The word before a step's bracket.
#[derive(Clone, Copy)]
pub(crate) enum Word {
    Css,
    XPath,
    Re,
    Keep,
}

/// The word that stands before a bracket, where blanks may stand beside `keep` alone.
fn word_of(text: &str) -> Option<Word>
    ensures { result ≡ read_word text.now }
{
    if trimmed(text) == "keep" {
        return Some(Word::Keep);
    }
    if text == "css" {
        return Some(Word::Css);
    }
    if text == "xpath" {
        return Some(Word::XPath);
    }
    if text == "re" {
        return Some(Word::Re);
    }
    None
}

/// What stands before the bracket that closes the text.
#[tactic(auto, using(crate::proofs::StepLemmas::no_text, crate::proofs::StepLemmas::no_bracket, crate::proofs::StepLemmas::bracket, text_base::proofs::Boundaries::at_start, text_base::proofs::Boundaries::before_ascii))]
fn inside(text: &str) -> Option<&str>
    ensures { MatchOption result (inside_of text.now ≡ None) (λ t. inside_of text.now ≡ Some t.now) }
{
    if text.is_empty() {
        return None;
    }
    if byte_at(text, text.len() - 1) != b')' {
        return None;
    }
    Some(part(text, 0, text.len() - 1))
}

/// The step of this word by what stands in its brackets.
fn read_inside(alloc: Global, word: Word, text: &str) -> Result<Option<RawStep>, NoMemory>
    ensures { IfOk result (λ found. found ≡ read_inside word text.now) }
{
    match word {
        Word::Keep => read_keep(alloc, text),
        Word::Css => match read_string(alloc, text)? {
            None => Ok(None),
            Some(value) => Ok(Some(RawStep::Css(value))),
        },
        Word::XPath => match read_string(alloc, text)? {
            None => Ok(None),
            Some(value) => Ok(Some(RawStep::XPath(value))),
        },
        Word::Re => match read_string(alloc, text)? {
            None => Ok(None),
            Some(value) => Ok(Some(RawStep::Re(value))),
        },
    }
}

/// The step that a part of a chain is, without blanks at its ends.
pub(crate) fn read_step(alloc: Global, part: &str) -> Result<Option<RawStep>, NoMemory>
    ensures { IfOk result (λ found. found ≡ read_step part.now) }
{
    let Some((word, rest)) = split_at(part, b'(') else {
        return Ok(None);
    };
    let Some(word) = word_of(word) else {
        return Ok(None);
    };
    let Some(text) = inside(rest) else {
        return Ok(None);
    };
    read_inside(alloc, word, text)
}
