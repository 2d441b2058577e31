//! Strings in quotes, in which the quote stands doubled.
ghost use Rattle.std.specs.Prelude.{◌≡◌, ◌≢◌, ◌<◌, false, option_map, string_bytes, IfOk};
ghost use Rattle.query_script.specs.Cuts.{is_quote};
ghost use Rattle.query_script.specs.inner.Reader.{unquoted, read_string};

use std::alloc::Global;
use text_base::{NoMemory, Txt, byte_at, find_byte, part};

fn is_quote(byte: u8) -> bool
    ensures { result ≡ is_quote byte }
{
    byte == b'"' || byte == b'\''
}

/// What the string stands for of which this is all after the quote that opens it.
fn unquoted(alloc: Global, quote: u8, text: &str) -> Result<Option<String>, NoMemory>
    requires some { quote ≢ 0 }
    requires ascii { quote < 128 }
    ensures { IfOk result (λ found. option_map string_bytes found ≡ unquoted quote false text.now) }
{
    let mut value = String::new(alloc);
    let mut at: usize = 0;
    while at < text.len() {
        let end = find_byte(text, quote, at);
        value.push_str(part(text, at, end))?;
        if end >= text.len() {
            return Ok(None);
        }
        if end + 1 >= text.len() {
            return Ok(Some(value));
        }
        if byte_at(text, end + 1) != quote {
            return Ok(None);
        }
        value.push_str(part(text, end, end + 1))?;
        at = end + 2;
    }
    Ok(None)
}

/// What the string stands for that the text is, where it is one.
#[tactic(auto, using(crate::proofs::StepLemmas::string_at, crate::proofs::StepLemmas::quote_some, crate::proofs::StepLemmas::quote_ascii, crate::proofs::StepLemmas::past_quote))]
pub(crate) fn read_string(alloc: Global, text: &str) -> Result<Option<Txt>, NoMemory>
    ensures { IfOk result (λ found. found ≡ read_string text.now) }
{
    if text.is_empty() {
        return Ok(None);
    }
    let quote = byte_at(text, 0);
    if !is_quote(quote) {
        return Ok(None);
    }
    match unquoted(alloc, quote, part(text, 1, text.len()))? {
        None => Ok(None),
        Some(value) => Ok(Some(Txt::from_string(value))),
    }
}
