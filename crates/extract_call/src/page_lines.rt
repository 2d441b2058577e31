//! The line of a page, from its bytes.
ghost use Rattle.std.specs.Prelude.{◌≡◌, ◌≢◌, ◌≤◌, length, map, All, IsOk, IfOk, true};
ghost use Rattle.std.specs.List.{AllByRecursion};
ghost use Rattle.test_registry.specs.View.{known};
ghost use Rattle.page_records.specs.Lines.{HasNames};
ghost use Rattle.page_records.specs.Ordered.{IsOrderedEntry, IsStoredEntry};
ghost use Rattle.page_records.specs.Records.{EntryAsks, entry_outcome};
ghost use Rattle.json_lines.specs.Pages.{refused_text};
ghost use Rattle.extract_call.specs.Answers.{answer_of};
ghost use Rattle.extract_call.specs.inner.OnePage.{IsTextLine};
ghost use Rattle.extract_call.specs.PageLines.{most_page, too_long, IsPageLine, IsValuesLine, IsMarkupLine};
ghost use Rattle.extract_call.specs.inner.Asked.{shown_by, IsReady};
ghost use Rattle.extract_call.specs.inner.Tasks.{AreTasks};

use crate::answers::Line;
use crate::asked::Asked;
use crate::laws::laws_below;
use arena_tree::ArenaGrow;
use bumpalo::Bump;
use doc_model::{Axes, Tree};
use html_reader::read_html;
use io_edges::PAGE_LIMIT;
use json_lines::refused_line;
use markup_back::canonical;
use page_records::{
    Entry, EntryValue, ReadyEntry, holds_refusal, prepare_entry, record_line, run_ready_entry,
};
use std::alloc::Global;
use step_index::Indexed;
use test_registry::Tests;
use text_base::{NoMemory, PageFault, PageReason, Seq, decode_page, plain_page};

/// The line of a page that is refused, or want of memory where that is the reason.
fn refused_answer(alloc: Global, name: &str, fault: PageFault) -> Result<Line, NoMemory>
    ensures named { IsOk result → fault.reason ≢ PageReason.Memory }
    ensures line { IfOk result (λ line. answer_of line ≡ record { text = refused_text name.now fault; refused = true }) }
{
    if fault.reason == PageReason::Memory {
        return Err(NoMemory);
    }
    let text = refused_line(alloc, name, fault)?;
    Ok(Line {
        text,
        refused: true,
    })
}

/// The line of a page with more bytes than a page may have.
pub fn long_answer(alloc: Global, name: &str) -> Result<Line, NoMemory>
    ensures { IfOk result (λ line. answer_of line ≡ record { text = refused_text name.now too_long; refused = true }) }
{
    refused_answer(
        alloc,
        name,
        PageFault {
            reason: PageReason::TooLong,
            at: PAGE_LIMIT,
        },
    )
}

/// Each entry prepared over the stored tests, its queries read and its patterns built, once for all pages of a run.
pub fn prepare_entries(
    alloc: Global,
    entries: &[Entry],
    tests: &Tests,
) -> Result<Vec<ReadyEntry>, NoMemory>
    requires ordered { AllByRecursion (IsOrderedEntry (known tests.now)) entries.now }
    requires stored { AllByRecursion (IsStoredEntry (known tests.now)) entries.now }
    ensures tasks { IfOk result (λ ready. AreTasks (known tests.now) entries.now ready.items) }
    ensures asks { IfOk result (λ ready. All (EntryAsks (known tests.now)) ready.items) }
{
    let mut ready = Vec::new(alloc);
    for entry in entries {
        ready.push(prepare_entry(alloc, entry, tests)?)?;
    }
    Ok(ready)
}

/// The values on a document of the entries that are ready, in order.
fn values_of<S: Axes>(
    alloc: Global,
    source: &S,
    ready: &[ReadyEntry],
    tests: &Tests,
) -> Result<Seq<EntryValue>, NoMemory>
    requires { All (EntryAsks (known tests.now)) ready.now }
    ensures { IfOk result (λ values. values ≡ map (entry_outcome (S.document source.now)) ready.now) }
{
    let mut values = Vec::new(alloc);
    for one in ready {
        values.push(run_ready_entry(alloc, source, one, tests)?)?;
    }
    Ok(Seq::from_vec(values))
}

/// The line of a document by the entries that are ready.
fn values_answer<S: Axes>(
    alloc: Global,
    entries: &Seq<Entry>,
    ready: &[ReadyEntry],
    name: &str,
    source: &S,
    tests: &Tests,
) -> Result<Line, NoMemory>
    requires tasks { AreTasks (known tests.now) entries.now ready.now }
    requires asks { All (EntryAsks (known tests.now)) ready.now }
    requires names { AllByRecursion HasNames entries.now }
    ensures { IfOk result (λ line. IsValuesLine (known tests.now) entries.now name.now (S.document source.now) (answer_of line)) }
{
    laws_below();
    let values = values_of(alloc, source, ready, tests)?;
    let refused = holds_refusal(&values);
    let text = record_line(alloc, name, entries, &values)?;
    Ok(Line { text, refused })
}

/// About how many rows the text has: a guess, so that few pages ask for more room.
fn rows_near(text: &str) -> usize {
    text.len() / 8 + 16
}

/// The canonical markup of a document.
fn markup_answer<T: Tree>(alloc: Global, name: &str, tree: &T) -> Result<Line, NoMemory>
    ensures { IfOk result (λ line. IsMarkupLine name.now (T.document tree.now) (answer_of line)) }
{
    let _ = name;
    let text = canonical(alloc, tree)?;
    Ok(Line {
        text,
        refused: false,
    })
}

/// The line of the document of a tree. Tables are laid over it where queries are run on it.
fn tree_answer<T: Tree + Drop>(
    alloc: Global,
    asked: Asked<'_>,
    name: &str,
    tree: T,
    tests: &Tests,
) -> Result<Line, NoMemory>
    requires { IsReady (known tests.now) asked }
    ensures { IfOk result (λ line. shown_by (known tests.now) asked.entry name.now (T.document tree) (answer_of line)) }
{
    match asked {
        Asked::Values(entries, ready) => {
            let source = Indexed::without_ids(alloc, tree)?;
            values_answer(alloc, entries, ready, name, &source, tests)
        }
        Asked::Markup => markup_answer(alloc, name, &tree),
    }
}

/// The line of a page within the limit whose bytes decode to the text. Its document lies in an arena of its own.
fn text_answer(
    alloc: Global,
    asked: Asked<'_>,
    name: &str,
    text: &str,
    tests: &Tests,
) -> Result<Line, NoMemory>
    requires ready { IsReady (known tests.now) asked }
    requires short { length text.now ≤ most_page }
    ensures { IfOk result (λ line. IsTextLine (shown_by (known tests.now) asked.entry) name.now text.now (answer_of line)) }
{
    let arena = Bump::new(alloc);
    let grow = ArenaGrow::with_room(&arena, rows_near(text))?;
    match read_html(alloc, text, grow) {
        Ok(tree) => tree_answer(alloc, asked, name, tree, tests),
        Err(fault) => refused_answer(alloc, name, fault),
    }
}

/// The line of a page: what is asked of the document that the bytes spell, or why the page is refused, and where.
pub fn page_answer(
    alloc: Global,
    asked: Asked<'_>,
    name: &str,
    bytes: &[u8],
    tests: &Tests,
) -> Result<Line, NoMemory>
    requires { IsReady (known tests.now) asked }
    ensures { IfOk result (λ line. IsPageLine (shown_by (known tests.now) asked.entry) name.now bytes.now (answer_of line)) }
{
    if bytes.len() > PAGE_LIMIT {
        return long_answer(alloc, name);
    }
    if let Some(text) = plain_page(bytes) {
        return text_answer(alloc, asked, name, text, tests);
    }
    match decode_page(alloc, bytes) {
        Ok(text) => text_answer(alloc, asked, name, text.as_str(), tests),
        Err(fault) => refused_answer(alloc, name, fault),
    }
}
