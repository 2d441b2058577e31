//! The tests on the values of attributes. Selectors Level 3, sections 6.3, 6.4 and 6.6.3. None
//! takes memory.
ghost use Rattle.std.specs.Prelude.{◌≡◌};
ghost use Rattle.std.specs.Str.{chars};
ghost use Rattle.css_meaning.specs.Attributes as spec;

use crate::texts::{begins_in_any_case, is_text, stops_or_dash};
use css_selectors::Op;
use text_base::{ByteKind, Space5, begins, ends, includes, is_empty, is_white, run_end};

/// Any byte but a space, a tab, a line feed, a carriage return or a form feed.
#[derive(Clone, Copy)]
struct NotSpace5;

impl ByteKind for NotSpace5 {
    ghost use Rattle.css_meaning.specs.inner.Kinds.{not_space5, not_space5_wide};

    ghost test = { λ _. not_space5 };

    fn has(&self, byte: u8) -> bool {
        !is_white(byte)
    }

    ghost keeps_characters = { λ _. not_space5_wide };
}

/// Whether the wanted text is one of the words of the value that white space parts.
fn has_word(value: &str, wanted: &str) -> bool
    ensures { result ≡ spec.word_test (chars value.now) (chars wanted.now) }
{
    let bytes = value.as_bytes();
    let mut at = run_end(value, &Space5, 0);
    while at < bytes.len() {
        let end = run_end(value, &NotSpace5, at);
        if &bytes[at..end] == wanted.as_bytes() {
            return true;
        }
        at = run_end(value, &Space5, end);
    }
    false
}

/// Whether the value is the wanted text, or begins with it and `-`.
fn has_dash(value: &str, wanted: &str) -> bool
    ensures { result ≡ spec.dash_test (chars value.now) (chars wanted.now) }
{
    begins(value, wanted) && stops_or_dash(value.as_bytes(), wanted.len())
}

/// Whether the value of an attribute is as the operator asks. It takes no memory. Selectors Level 3,
/// section 6.3.
pub fn value_passes(op: Op, value: &str, wanted: &str) -> bool
    ensures { result ≡ spec.op_test op (chars value.now) (chars wanted.now) }
{
    match op {
        Op::Exists => true,
        Op::Equals => is_text(value, wanted),
        Op::Word => has_word(value, wanted),
        Op::Dash => has_dash(value, wanted),
        Op::Prefix => !is_empty(wanted) && begins(value, wanted),
        Op::Suffix => !is_empty(wanted) && ends(value, wanted),
        Op::Substring => !is_empty(wanted) && includes(value, wanted),
    }
}

/// Whether the value is the wanted language, or begins with it and `-`. ASCII letter case is
/// ignored. It takes no memory. Selectors Level 3, section 6.6.3.
pub fn is_language(value: &str, wanted: &str) -> bool
    ensures { result ≡ spec.lang_test (chars value.now) (chars wanted.now) }
{
    begins_in_any_case(value.as_bytes(), wanted.as_bytes())
        && stops_or_dash(value.as_bytes(), wanted.len())
}
