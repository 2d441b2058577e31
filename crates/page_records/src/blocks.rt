//! Blocks: a name, steps, `each`, and fields in braces.
ghost use Rattle.std.specs.Prelude.{◌≡◌, true, false, codes, map, IfOk, MatchOption};
ghost use Rattle.std.specs.List.{AllByRecursion};
ghost use Rattle.std.specs.Str.{chars};
ghost use Rattle.test_registry.specs.View.{known};
ghost use Rattle.query_script.specs.Cuts.{trimmed};
ghost use Rattle.page_records.specs.declared.script.Entry.TheVariants as entry;
ghost use Rattle.page_records.specs.Blocks.{IsBlockText, IsContent, IsBlock};
ghost use Rattle.page_records.specs.Ordered.{IsRowQuery, IsOrderedEntry, IsStoredEntry};
ghost use Rattle.page_records.specs.inner.Contents.{IsWhole, IsRefusedAs};

use crate::bodies::differ;
use crate::braces::{Brace, split_outside};
use crate::rows::{Rows, row_steps};
use crate::script::Block;
use crate::words::last_point;
use css_selectors::Dialect;
use query_script::{
    ChainStep, Reason, cut_steps, field_pieces, name_and_rest, parse_fields_with, trimmed,
};
use std::alloc::Global;
use test_registry::Tests;
use text_base::{NoMemory, Seq, Txt};

/// The most fields of a body.
const MOST_BODY: usize = 32;

/// Whether it is the word before a body, with blanks at its ends or not.
fn is_each(word: &str) -> bool
    ensures yes { result ≡ true → trimmed word.now ≡ codes "each" }
    ensures no { result ≡ false → trimmed word.now ≡ codes "each" → ⊥ }
{
    trimmed(word) == "each"
}

/// Where the text after a block's name is a block's, what its steps are written in, and its body.
fn cut_block(text: &str) -> Option<(&str, &str)>
    ensures { MatchOption result ((front body : _) → IsBlockText text.now front body → ⊥) (λ sides. IsBlockText text.now sides.0.now sides.1.now) }
{
    let Some((head, rest)) = split_outside(text, Brace::Open) else {
        return None;
    };
    let Some((body, after)) = split_outside(rest, Brace::Close) else {
        return None;
    };
    if split_outside(body, Brace::Open).is_some() {
        return None;
    }
    if !trimmed(after).is_empty() {
        return None;
    }
    let Some((front, word)) = last_point(head) else {
        return None;
    };
    if !is_each(word) {
        return None;
    }
    Some((front, body))
}

/// A block of this name that is refused.
fn refused(alloc: Global, name: &str, why: Reason) -> Result<Block, NoMemory>
    ensures name { IfOk result (λ b. b.name ≡ chars name.now) }
    ensures is { IfOk result (IsRefusedAs why) }
{
    Ok(Block {
        name: Txt::of(alloc, name)?,
        steps: Seq::new(alloc),
        fields: Seq::new(alloc),
        refused: Some(why),
    })
}

/// The block with these steps and the fields that the pieces are, or a refused one where two of them have the same name.
fn whole(
    alloc: Global,
    dialect: Dialect,
    name: &str,
    steps: Vec<ChainStep>,
    pieces: &[&str],
    tests: &Tests,
) -> Result<Block, NoMemory>
    requires { AllByRecursion (IsRowQuery (known tests.now)) steps.items }
    ensures name { IfOk result (λ b. b.name ≡ chars name.now) }
    ensures is { IfOk result (λ b. IsWhole (known tests.now) dialect steps.items (map (λ p. p.now) pieces.now) b.refused b) }
    ensures ordered { IfOk result (λ b. IsOrderedEntry (known tests.now) (entry.Each b)) }
    ensures stored { IfOk result (λ b. IsStoredEntry (known tests.now) (entry.Each b)) }
{
    let fields = parse_fields_with(alloc, dialect, pieces, tests)?;
    if !differ(fields.as_slice()) {
        return refused(alloc, name, Reason::Twice);
    }
    Ok(Block {
        name: Txt::of(alloc, name)?,
        steps: Seq::from_vec(steps),
        fields: Seq::from_vec(fields),
        refused: None,
    })
}

/// The block of this name, by the text after it.
fn named(
    alloc: Global,
    dialect: Dialect,
    name: &str,
    text: &str,
    tests: &Tests,
) -> Result<Block, NoMemory>
    ensures name { IfOk result (λ b. b.name ≡ chars name.now) }
    ensures is { IfOk result (λ b. IsContent (known tests.now) dialect text.now b.refused b) }
    ensures ordered { IfOk result (λ b. IsOrderedEntry (known tests.now) (entry.Each b)) }
    ensures stored { IfOk result (λ b. IsStoredEntry (known tests.now) (entry.Each b)) }
{
    let Some((front, body)) = cut_block(text) else {
        return refused(alloc, name, Reason::Block);
    };
    let pieces = field_pieces(alloc, body)?;
    if pieces.is_empty() {
        return refused(alloc, name, Reason::Block);
    }
    if pieces.len() > MOST_BODY {
        return refused(alloc, name, Reason::Block);
    }
    let Some(written) = cut_steps(alloc, front)? else {
        return refused(alloc, name, Reason::Block);
    };
    match row_steps(alloc, dialect, written.as_slice(), tests)? {
        Rows::Refused(why) => refused(alloc, name, why),
        Rows::Kept(steps) => whole(alloc, dialect, name, steps, pieces.as_slice(), tests),
    }
}

/// The block that a piece is where these tests are stored, with its steps and fields or its reason.
pub(crate) fn block(
    alloc: Global,
    dialect: Dialect,
    piece: &str,
    tests: &Tests,
) -> Result<Block, NoMemory>
    ensures is { IfOk result (IsBlock (known tests.now) dialect piece.now) }
    ensures ordered { IfOk result (λ b. IsOrderedEntry (known tests.now) (entry.Each b)) }
    ensures stored { IfOk result (λ b. IsStoredEntry (known tests.now) (entry.Each b)) }
{
    match name_and_rest(piece) {
        None => refused(alloc, "", Reason::Name),
        Some((name, rest)) => named(alloc, dialect, name, rest, tests),
    }
}
