//! Why a script is refused, and which of its fields and blocks are.
ghost use Rattle.std.specs.Prelude.{◌≡◌, ◌<◌, ◌++◌, length, map, IfOk, OnOk, string_bytes, decimal};
ghost use Rattle.extract_call.specs.Answers.{answer_of};
ghost use Rattle.test_registry.specs.View.{known};
ghost use Rattle.why_call.specs.Scripts.{reason_said, reason_of, head_text, piece_head, member_said, members_said, entry_said, entries_said, said_answer, IsScriptAnswer};

use crate::answers::{nothing, refused_at};
use css_selectors::Dialect;
use extract_call::Line;
use page_records::{Entry, entry_pieces, parse_records};
use query_script::{Chain, Field, Reason};
use refusal_texts::{Refusal, push_refusal};
use std::alloc::Global;
use test_registry::Tests;
use text_base::{NoMemory, ScriptFault, Txt};

/// Appends a text.
fn push(out: &mut String, text: &str) -> Result<(), NoMemory>
    ensures { OnOk result (string_bytes out.new ≡ string_bytes out.old ++ text.now) }
{
    match out.push_str(text) {
        Ok(()) => Ok(()),
        Err(_) => Err(NoMemory),
    }
}

/// The digits of a number.
fn digits(alloc: Global, n: usize) -> Result<String, NoMemory>
    ensures { IfOk result (λ s. string_bytes s ≡ decimal n) }
{
    match n.to_string(alloc) {
        Ok(digits) => Ok(digits),
        Err(_) => Err(NoMemory),
    }
}

/// Appends the number and the name of a piece.
fn push_head(out: &mut String, number: &str, name: &Txt) -> Result<(), NoMemory>
    ensures { OnOk result (string_bytes out.new ≡ string_bytes out.old ++ head_text number.now name.now) }
{
    push(out, "\npiece ")?;
    push(out, number)?;
    push(out, " `")?;
    push(out, name.as_str())?;
    push(out, "`")
}

/// Appends why the field or block that the piece of this number is is refused, where it is.
fn push_piece(
    alloc: Global,
    out: &mut String,
    n: usize,
    name: &Txt,
    piece: &str,
    why: Option<Reason>,
) -> Result<(), NoMemory>
    ensures { OnOk result (string_bytes out.new ≡ string_bytes out.old ++ reason_said (piece_head n name.now piece.now) why) }
{
    let Some(why) = why else {
        return Ok(());
    };
    let number = digits(alloc, n)?;
    push_head(out, number.as_str(), name)?;
    push(out, ": ")?;
    push(out, piece)?;
    push(out, "\n")?;
    push_refusal(alloc, out, &Refusal::Field(why), "", None)
}

/// Why a field is refused.
fn reason_of(chain: &Chain) -> Option<Reason>
    ensures { result ≡ reason_of chain.now }
{
    match chain {
        Chain::Steps(_, _) => None,
        Chain::Refused(why) => Some(*why),
    }
}

/// Appends why the field of this number of the body of the block of this number is refused, where it is.
fn push_member(
    alloc: Global,
    out: &mut String,
    n: usize,
    k: usize,
    field: &Field,
) -> Result<(), NoMemory>
    ensures { OnOk result (string_bytes out.new ≡ string_bytes out.old ++ member_said n k field.now) }
{
    let Some(why) = reason_of(&field.chain) else {
        return Ok(());
    };
    let mut number = digits(alloc, n)?;
    push(&mut number, ".")?;
    let inner = digits(alloc, k)?;
    push(&mut number, inner.as_str())?;
    push_head(out, number.as_str(), &field.name)?;
    push(out, "\n")?;
    push_refusal(alloc, out, &Refusal::Field(why), "", None)
}

/// Appends why the fields of the body of a block are refused.
fn push_members(alloc: Global, out: &mut String, n: usize, fields: &[Field]) -> Result<(), NoMemory>
    ensures { OnOk result (string_bytes out.new ≡ string_bytes out.old ++ members_said n 1 fields.now) }
{
    for at in 0..fields.len() {
        push_member(alloc, out, n, at + 1, &fields[at])?;
    }
    Ok(())
}

/// Appends why the piece of this number is refused, or which fields of it are.
fn push_entry(
    alloc: Global,
    out: &mut String,
    n: usize,
    piece: &str,
    entry: &Entry,
) -> Result<(), NoMemory>
    ensures { OnOk result (string_bytes out.new ≡ string_bytes out.old ++ entry_said n piece.now entry.now) }
{
    match entry {
        Entry::Plain(field) => {
            push_piece(alloc, out, n, &field.name, piece, reason_of(&field.chain))
        }
        Entry::Each(block) => {
            push_piece(alloc, out, n, &block.name, piece, block.refused)?;
            push_members(alloc, out, n, block.fields.as_slice())
        }
    }
}

/// What is said of the pieces and the entries that they are.
fn entries_said(alloc: Global, pieces: &[&str], entries: &[Entry]) -> Result<String, NoMemory>
    requires { length (map (λ p. p.now) pieces.now) ≡ length entries.now }
    ensures { IfOk result (λ s. string_bytes s ≡ entries_said 1 (map (λ p. p.now) pieces.now) entries.now) }
{
    let mut out = String::new(alloc);
    for at in 0..entries.len() {
        push_entry(alloc, &mut out, at + 1, pieces[at], &entries[at])?;
    }
    Ok(out)
}

/// The answer, by what is said of the pieces.
fn said_answer(alloc: Global, said: &str) -> Result<Line, NoMemory>
    ensures { IfOk result (λ line. answer_of line ≡ said_answer said.now) }
{
    if said.is_empty() {
        return nothing(alloc);
    }
    let mut text = match String::from_str(alloc, "of the script these are refused:") {
        Ok(text) => text,
        Err(_) => return Err(NoMemory),
    };
    push(&mut text, said)?;
    Ok(Line {
        text,
        refused: true,
    })
}

/// What is written of a script where these tests are stored.
pub fn script_answer(
    alloc: Global,
    dialect: Dialect,
    script: &str,
    tests: &Tests,
) -> Result<Line, NoMemory>
    ensures { IfOk result (λ line. IsScriptAnswer (known tests.now) dialect script.now (answer_of line)) }
{
    match parse_records(alloc, dialect, script, tests) {
        Ok(read) => {
            let pieces = entry_pieces(alloc, script)?;
            let said = entries_said(alloc, pieces.as_slice(), read.entries.as_slice())?;
            said_answer(alloc, said.as_str())
        }
        Err(ScriptFault::Memory) => Err(NoMemory),
        Err(fault) => refused_at(alloc, &Refusal::Script(fault), "", None),
    }
}
