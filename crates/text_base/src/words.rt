ghost use Rattle.std.specs.Prelude.{◌≡◌, ◌<◌, ◌++◌, length, drop, map, IfOk, encode_utf8_all};
ghost use Rattle.std.specs.Str.{chars};
ghost use Rattle.text_base.specs.Text.{IsPlace, is_space4};
ghost use Rattle.text_base.specs.Words.{words, words_by};

use crate::finding::part;
use crate::kinds::{NotSpace4, Space4, run_end};
use crate::{NoMemory, Txt};
use sqlite_items::Items;
use std::alloc::Global;

/// Adds the next word from a place on, if there is one, and says where it ends.
fn push_word(alloc: Global, text: &str, at: usize, words: &mut Vec<Txt>) -> Result<usize, NoMemory>
    requires within { at < length text.now }
    requires place { IsPlace text.now at }
    ensures kept { IfOk result (λ end. map encode_utf8_all words.new.items ++ words_by is_space4 (drop end text.now) ≡ map encode_utf8_all words.old.items ++ words_by is_space4 (drop at text.now)) }
    ensures moves { IfOk result (λ end. at < end) }
    ensures place { IfOk result (λ end. IsPlace text.now end) }
{
    let start = run_end(text, &Space4, at);
    if start >= text.len() {
        return Ok(start);
    }
    let end = run_end(text, &NotSpace4, start);
    words.push(Txt::of(alloc, part(text, start, end))?)?;
    Ok(end)
}

/// The words of a text, in order: the maximal runs without a space, a tab, a carriage return or a
/// line feed.
pub fn words_of(alloc: Global, text: &str) -> Result<Items<Txt>, NoMemory>
    ensures { IfOk result (λ found. found ≡ words (chars text.now)) }
{
    let mut found = Vec::new(alloc);
    let mut at = 0;
    while at < text.len() {
        at = push_word(alloc, text, at, &mut found)?;
    }
    Ok(Items::from_vec(found))
}
