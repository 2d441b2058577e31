//! How many bytes are left of a limit.
ghost use Rattle.std.specs.Prelude.{◌≡◌, ◌+◌, ◌<◌, length, encode_utf8_all, IfSome, IfNone};
ghost use Rattle.query_chain.specs.Items.{bytes_of};
ghost use Rattle.page_records.specs.Records.{strings_in};

use query_script::FieldValue;
use text_base::Txt;

/// What is left of so many bytes after a text; None where it has more.
fn after_text(text: &Txt, left: usize) -> Option<usize>
    ensures rest { IfSome result (λ n. n + length (encode_utf8_all text.now) ≡ left) }
    ensures over { IfNone result (left < length (encode_utf8_all text.now)) }
{
    let len = text.as_str().len();
    if len > left {
        return None;
    }
    Some(left - len)
}

/// What is left of them after texts; None where they have more together.
fn after_texts(texts: &[Txt], left: usize) -> Option<usize>
    ensures rest { IfSome result (λ n. n + bytes_of texts.now ≡ left) }
    ensures over { IfNone result (left < bytes_of texts.now) }
{
    let mut rest = left;
    for text in texts {
        let Some(next) = after_text(text, rest) else {
            return None;
        };
        rest = next;
    }
    Some(rest)
}

/// What is left of them after the strings of a value; None where they have more together.
pub fn after_value(value: &FieldValue, left: usize) -> Option<usize>
    ensures rest { IfSome result (λ n. n + bytes_of (strings_in value.now) ≡ left) }
    ensures over { IfNone result (left < bytes_of (strings_in value.now)) }
{
    match value {
        FieldValue::All(texts) => after_texts(texts.as_slice(), left),
        FieldValue::One(Some(text)) => after_text(text, left),
        FieldValue::One(None) | FieldValue::Refused(_) => Some(left),
    }
}
