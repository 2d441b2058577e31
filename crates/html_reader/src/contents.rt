//! Names and contents, from what a page writes.
ghost use Rattle.std.specs.Prelude.{◌≡◌, ◌==◌, not, IfOk, if◌then◌else◌, string_bytes};
ghost use Rattle.std.specs.List.{list_all, list_any};
ghost use Rattle.std.specs.Char.{is_ascii_uppercase};
ghost use Rattle.std.specs.Str.{str_to_ascii_lowercase};
ghost use Rattle.html_reader.specs.inner.Pieces.{owned_bytes};
ghost use Rattle.html_reader.specs.Contents.{without_newline, meant};

use crate::owned::Owned;
use char_refs::decode_refs;
use std::alloc::Global;
use text_base::{NoMemory, byte_at, part};

fn has_upper(name: &str) -> bool
    ensures { result ≡ list_any is_ascii_uppercase name.now }
{
    name.as_bytes().iter().any(|b| b.is_ascii_uppercase())
}

/// A name in ASCII lower case. It takes memory only where a letter changes.
#[tactic(auto, using(crate::proofs::ContentLemmas::lower_same))]
pub fn lower_name<'p>(alloc: Global, name: &'p str) -> Result<Owned<'p>, NoMemory>
    ensures { IfOk result (λ n. owned_bytes n ≡ str_to_ascii_lowercase name.now) }
{
    if has_upper(name) {
        let lower = name.to_ascii_lowercase(alloc)?;
        return Ok(Owned::Made(lower));
    }
    Ok(Owned::Page(name))
}

fn has_no_reference(raw: &str) -> bool
    ensures { result ≡ list_all (λ c. not (c == 38)) raw.now }
{
    raw.as_bytes().iter().all(|b| !(*b == b'&'))
}

/// The text with its references decoded, where they count. It takes memory only where a `&` stands.
#[tactic(auto, using(crate::proofs::ContentLemmas::plain_meant))]
pub fn meant<'p>(alloc: Global, raw: &'p str, refs: bool) -> Result<Owned<'p>, NoMemory>
    ensures { IfOk result (λ t. owned_bytes t ≡ meant raw.now refs) }
{
    if !refs {
        return Ok(Owned::Page(raw));
    }
    if has_no_reference(raw) {
        return Ok(Owned::Page(raw));
    }
    let decoded = decode_refs(alloc, raw)?;
    Ok(Owned::Made(decoded))
}

/// The text without a first newline.
fn past_newline(text: &str) -> &str
    ensures { result.now ≡ without_newline text.now }
{
    if byte_at(text, 0) == b'\n' {
        part(text, 1, text.len())
    } else {
        text
    }
}

fn made_past_newline(alloc: Global, text: String) -> Result<String, NoMemory>
    ensures { IfOk result (λ t. string_bytes t ≡ without_newline (string_bytes text)) }
{
    let made = String::from_str(alloc, past_newline(text.as_str()))?;
    Ok(made)
}

fn drop_newline<'p>(alloc: Global, text: Owned<'p>) -> Result<Owned<'p>, NoMemory>
    ensures { IfOk result (λ t. owned_bytes t ≡ without_newline (owned_bytes text.entry)) }
{
    match text {
        Owned::Page(text) => Ok(Owned::Page(past_newline(text))),
        Owned::Made(text) => {
            let made = made_past_newline(alloc, text)?;
            Ok(Owned::Made(made))
        }
    }
}

/// The content of a text, of which a first newline does not count where `takes` tells it.
pub fn content<'p>(
    alloc: Global,
    raw: &'p str,
    refs: bool,
    takes: bool,
) -> Result<Owned<'p>, NoMemory>
    ensures { IfOk result (λ t. owned_bytes t ≡ (if takes then without_newline (meant raw.now refs) else meant raw.now refs)) }
{
    let meant = meant(alloc, raw, refs)?;
    if takes {
        return drop_newline(alloc, meant);
    }
    Ok(meant)
}
