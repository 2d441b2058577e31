//! Why a page is refused, by its bytes.
ghost use Rattle.std.specs.Prelude.{◌≡◌, ◌≢◌, ◌≤◌, ◌++◌, length, codes, Some, IsOk, IfOk, OnOk, string_bytes, true};
ghost use Rattle.extract_call.specs.Answers.{answer_of};
ghost use Rattle.extract_call.specs.PageLines.{most_page, too_long};
ghost use Rattle.refusal_texts.specs.declared.refusal.Refusal.TheVariants as refusal;
ghost use Rattle.why_call.specs.Answers.{refused_at};
ghost use Rattle.why_call.specs.inner.OnePage.{IsTextAnswer};
ghost use Rattle.why_call.specs.Pages.{byte_text, IsPageAnswer};

use crate::answers::{nothing, refused_at};
use crate::laws::laws_below;
use arena_tree::ArenaGrow;
use bumpalo::Bump;
use extract_call::Line;
use html_reader::read_html;
use io_edges::PAGE_LIMIT;
use refusal_texts::{Refusal, push_refusal};
use std::alloc::Global;
use text_base::{NoMemory, PageFault, PageReason, decode_page, plain_page};

/// Appends a text.
fn push(out: &mut String, text: &str) -> Result<(), NoMemory>
    ensures { OnOk result (string_bytes out.new ≡ string_bytes out.old ++ text.now) }
{
    match out.push_str(text) {
        Ok(()) => Ok(()),
        Err(_) => Err(NoMemory),
    }
}

/// What is written of a page whose bytes are too many or no text, or want of memory where that is the reason.
fn byte_refused(alloc: Global, fault: PageFault) -> Result<Line, NoMemory>
    ensures named { IsOk result → fault.reason ≢ PageReason.Memory }
    ensures line { IfOk result (λ line. answer_of line ≡ record { text = byte_text fault; refused = true }) }
{
    if fault.reason == PageReason::Memory {
        return Err(NoMemory);
    }
    let number = match fault.at.to_string(alloc) {
        Ok(number) => number,
        Err(_) => return Err(NoMemory),
    };
    let mut out = String::new(alloc);
    push(&mut out, "byte ")?;
    push(&mut out, number.as_str())?;
    push(&mut out, ": ")?;
    push_refusal(alloc, &mut out, &Refusal::Page(fault.reason), "", None)?;
    Ok(Line {
        text: out,
        refused: true,
    })
}

/// What is written of a page with more bytes than a page may have.
pub fn long_answer(alloc: Global) -> Result<Line, NoMemory>
    ensures { IfOk result (λ line. answer_of line ≡ record { text = byte_text too_long; refused = true }) }
{
    byte_refused(
        alloc,
        PageFault {
            reason: PageReason::TooLong,
            at: PAGE_LIMIT,
        },
    )
}

/// What is written of a page whose text builds no document, or want of memory where that is the reason.
fn text_refused(alloc: Global, fault: PageFault, text: &str) -> Result<Line, NoMemory>
    ensures named { IsOk result → fault.reason ≢ PageReason.Memory }
    ensures line { IfOk result (λ line. answer_of line ≡ refused_at (refusal.Page fault.reason) text.now (Some fault.at)) }
{
    if fault.reason == PageReason::Memory {
        return Err(NoMemory);
    }
    refused_at(alloc, &Refusal::Page(fault.reason), text, Some(fault.at))
}

/// About how many rows the text has: a guess, so that few pages ask for more room.
fn rows_near(text: &str) -> usize {
    text.len() / 8 + 16
}

/// What is written of a page within the limit whose bytes decode to the text.
fn text_answer(alloc: Global, text: &str) -> Result<Line, NoMemory>
    requires { length text.now ≤ most_page }
    ensures { IfOk result (λ line. IsTextAnswer text.now (answer_of line)) }
{
    let arena = Bump::new(alloc);
    let grow = ArenaGrow::with_room(&arena, rows_near(text))?;
    match read_html(alloc, text, grow) {
        Ok(_) => nothing(alloc),
        Err(fault) => text_refused(alloc, fault, text),
    }
}

/// What is written of a page: why it is refused, and where, or that it is not.
pub fn page_answer(alloc: Global, bytes: &[u8]) -> Result<Line, NoMemory>
    ensures { IfOk result (λ line. IsPageAnswer bytes.now (answer_of line)) }
{
    laws_below();
    if bytes.len() > PAGE_LIMIT {
        return long_answer(alloc);
    }
    if let Some(text) = plain_page(bytes) {
        return text_answer(alloc, text);
    }
    match decode_page(alloc, bytes) {
        Ok(text) => text_answer(alloc, text.as_str()),
        Err(fault) => byte_refused(alloc, fault),
    }
}
