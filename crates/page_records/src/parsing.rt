ghost use Rattle.std.specs.Prelude.{map, IfOk, IfErr};
ghost use Rattle.std.specs.List.{AllByRecursion};
ghost use Rattle.test_registry.specs.View.{known};
ghost use Rattle.page_records.specs.Lines.{HasNames};
ghost use Rattle.page_records.specs.Ordered.{IsOrderedEntry, IsStoredEntry};
ghost use Rattle.page_records.specs.Scripts.{IsEntry, AreEntries, IsRecordScript, IsRecordUnread};

use crate::blocks::block;
use crate::braces::{Brace, entry_pieces, split_outside};
use crate::script::{Entry, RecordScript};
use css_selectors::Dialect;
use query_script::parse_field_with;
use std::alloc::Global;
use test_registry::Tests;
use text_base::{NoMemory, ScriptFault, Seq};

/// The most bytes of a script.
const MOST_SCRIPT: usize = 65_536;

/// The most fields and blocks of a script.
const MOST_ENTRIES: usize = 32;

/// The field or block that a piece is where these tests are stored.
fn entry(alloc: Global, dialect: Dialect, piece: &str, tests: &Tests) -> Result<Entry, NoMemory>
    ensures is { IfOk result (IsEntry (known tests.now) dialect piece.now) }
    ensures ordered { IfOk result (IsOrderedEntry (known tests.now)) }
    ensures stored { IfOk result (IsStoredEntry (known tests.now)) }
{
    match split_outside(piece, Brace::Open) {
        None => Ok(Entry::Plain(parse_field_with(alloc, dialect, piece, tests)?)),
        Some(_) => Ok(Entry::Each(block(alloc, dialect, piece, tests)?)),
    }
}

/// The entries that the pieces are, in their order.
fn entries(
    alloc: Global,
    dialect: Dialect,
    pieces: &[&str],
    tests: &Tests,
) -> Result<Vec<Entry>, NoMemory>
    ensures are { IfOk result (λ v. AreEntries (known tests.now) dialect (map (λ p. p.now) pieces.now) v.items) }
    ensures ordered { IfOk result (λ v. AllByRecursion (IsOrderedEntry (known tests.now)) v.items) }
    ensures stored { IfOk result (λ v. AllByRecursion (IsStoredEntry (known tests.now)) v.items) }
{
    let mut all = Vec::new(alloc);
    for piece in pieces {
        all.push(entry(alloc, dialect, piece, tests)?)?;
    }
    Ok(all)
}

/// The entries of a script where these tests are stored, in the order of the text, each with its
/// steps or its reason.
///
/// The text is cut at each `;` and line feed outside quotes, but not between a `{` outside quotes
/// and the next `}` outside quotes. A piece with a `{` outside quotes is a block, each other one a
/// field. `Long` where the text has more than 65,536 bytes, else `Fields` where it has more than 32
/// pieces. `Memory` is want of memory. The time is in proportion to the text, and to the XPath of its
/// selectors.
#[tactic(auto, using(crate::proofs::NameLemmas::all_differ))]
pub fn parse_records(
    alloc: Global,
    dialect: Dialect,
    text: &str,
    tests: &Tests,
) -> Result<RecordScript, ScriptFault>
    ensures ok { IfOk result (λ script. IsRecordScript (known tests.now) dialect text.now script.entries) }
    ensures ordered { IfOk result (λ script. AllByRecursion (IsOrderedEntry (known tests.now)) script.entries) }
    ensures stored { IfOk result (λ script. AllByRecursion (IsStoredEntry (known tests.now)) script.entries) }
    ensures names { IfOk result (λ script. AllByRecursion HasNames script.entries) }
    ensures fault { IfErr result (IsRecordUnread text.now) }
{
    if text.len() > MOST_SCRIPT {
        return Err(ScriptFault::Long);
    }
    let Ok(pieces) = entry_pieces(alloc, text) else {
        return Err(ScriptFault::Memory);
    };
    if pieces.len() > MOST_ENTRIES {
        return Err(ScriptFault::Fields);
    }
    match entries(alloc, dialect, pieces.as_slice(), tests) {
        Ok(entries) => Ok(RecordScript {
            entries: Seq::from_vec(entries),
        }),
        Err(_) => Err(ScriptFault::Memory),
    }
}
