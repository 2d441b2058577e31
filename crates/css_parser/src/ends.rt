//! Where the choices end.
ghost use Rattle.std.specs.Prelude.{◌≡◌, ◌+◌, ◌<◌, ◌≤◌, length, IfOk, Some, None};
ghost use Rattle.css_parser.specs.inner.Reading.{AreInside, IsChoiceEnd, IsTable};

use crate::choices::{members, word_at};
use css_lexer::CssToken;
use std::alloc::Global;
use text_base::NoMemory;

/// For each token, from the last to the first, where the choice that begins with it ends, or None.
#[tactic(auto, using(crate::proofs::TableLemmas::no_table, crate::proofs::TableLemmas::table_more))]
pub(crate) fn choice_ends(
    alloc: Global,
    text: &str,
    tokens: &[CssToken],
) -> Result<Vec<Option<usize>>, NoMemory>
    requires { AreInside text.now tokens.now }
    ensures table { IfOk result (λ ends. IsTable text.now tokens.now ends.items) }
    ensures whole { IfOk result (λ ends. length ends.items ≡ length tokens.now) }
{
    let mut ends = Vec::new(alloc);
    let mut at = tokens.len();
    while at > 0 {
        at -= 1;
        let end = choice_end(alloc, text, tokens, ends.as_slice(), at)?;
        match ends.push(end) {
            Ok(()) => {}
            Err(_) => return Err(NoMemory),
        }
    }
    Ok(ends)
}

/// Where the choice at a place ends, if one is read there, where the ends of those after it are known.
#[tactic(auto, using(crate::proofs::TableLemmas::no_choice, crate::proofs::TableLemmas::read_end, crate::proofs::TableLemmas::no_end))]
fn choice_end(
    alloc: Global,
    text: &str,
    tokens: &[CssToken],
    ends: &[Option<usize>],
    at: usize,
) -> Result<Option<usize>, NoMemory>
    requires inside { AreInside text.now tokens.now }
    requires within { at < length tokens.now }
    requires table { IsTable text.now tokens.now ends.now }
    requires known { length tokens.now ≤ at + 1 + length ends.now }
    ensures { IfOk result (IsChoiceEnd text.now tokens.now at) }
{
    match word_at(tokens, at) {
        Some(word) => match members(alloc, text, tokens, ends, 0, false, word, at + 2)? {
            Some(read) => Ok(Some(read.end)),
            None => Ok(None),
        },
        None => Ok(None),
    }
}
