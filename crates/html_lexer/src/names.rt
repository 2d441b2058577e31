ghost use Rattle.std.specs.Prelude.{◌≡◌, ◌≤◌, ◌+◌, ◌&&◌, ◌||◌, length, drop};
ghost use Rattle.std.specs.Str.{str_eq_ignore_ascii_case};
ghost use Rattle.html_lexer.specs.Names.{is_one_of, void_names, newline_names, literal_names, texts, is_raw, is_escapable, is_plaintext, has_letters, closes};

use crate::kinds::Gap;
use text_base::{ByteKind, byte_at};

static VOID: [&str; 14] = [
    "area", "base", "br", "col", "embed", "hr", "img", "input", "link", "meta", "param", "source",
    "track", "wbr",
];

static NEWLINE: [&str; 3] = ["pre", "textarea", "listing"];

static LITERAL: [&str; 6] = ["script", "style", "iframe", "xmp", "noembed", "noframes"];

static ESCAPABLE: [&str; 2] = ["title", "textarea"];

/// The elements with no content and no end tag, in lower case.
#[tactic(auto, unfolding(crate::specs::Names::void_names))]
pub fn void_names() -> &'static [&'static str]
    ensures { texts result.now ≡ void_names }
{
    &VOID
}

/// The elements whose content may begin with a newline that does not count, in lower case.
#[tactic(auto, unfolding(crate::specs::Names::newline_names))]
pub fn newline_names() -> &'static [&'static str]
    ensures { texts result.now ≡ newline_names }
{
    &NEWLINE
}

/// The elements whose content is raw text in which references do not count, in lower case.
#[tactic(auto, unfolding(crate::specs::Names::literal_names))]
pub fn literal_names() -> &'static [&'static str]
    ensures { texts result.now ≡ literal_names }
{
    &LITERAL
}

/// Whether two names differ in the case of ASCII letters alone. Most differ in length, so that is looked at first.
fn same_letters(name: &str, other: &str) -> bool
    ensures { result ≡ str_eq_ignore_ascii_case name.now other.now }
{
    name.len() == other.len() && name.eq_ignore_ascii_case(other)
}

/// Whether a name is one of these, in any letter case.
fn is_one_of(names: &[&str], name: &str) -> bool
    ensures { result ≡ is_one_of (texts names.now) name.now }
{
    for entry in names {
        if same_letters(entry, name) {
            return true;
        }
    }
    false
}

fn is_literal(name: &str) -> bool
    ensures { result ≡ is_one_of literal_names name.now }
{
    is_one_of(literal_names(), name)
}

/// Whether the content of this element, named in any letter case, may begin with a newline that does not count.
pub fn takes_newline(name: &str) -> bool
    ensures { result ≡ is_one_of newline_names name.now }
{
    is_one_of(newline_names(), name)
}

/// Whether references count in the raw text of this element.
#[tactic(auto, unfolding(crate::specs::Names::escapable_names))]
pub fn is_escapable(name: &str) -> bool
    ensures { result ≡ is_escapable name.now }
{
    is_one_of(&ESCAPABLE, name)
}

/// Whether the content of this element is raw text.
pub fn is_raw(name: &str) -> bool
    ensures { result ≡ is_raw name.now }
{
    is_literal(name) || is_escapable(name)
}

/// Whether a start tag that was read whole is refused.
pub fn is_refused(name: &str, slash: bool) -> bool
    ensures { result ≡ (is_plaintext name.now || (slash && is_raw name.now)) }
{
    same_letters(name, "plaintext") || (slash && is_raw(name))
}

/// Whether these letters stand at a place, in any case.
pub fn has_letters(text: &str, at: usize, name: &str) -> bool
    requires { at ≤ length text.now }
    ensures { result ≡ has_letters text.now at name.now }
{
    let end = at + name.len();
    if end <= text.len() {
        text.as_bytes()[at..end].eq_ignore_ascii_case(name.as_bytes())
    } else {
        false
    }
}

/// Whether the end tag stands at a place that ends raw text of this name.
#[tactic(auto, using(crate::proofs::RawLemmas::closes_at, text_base::proofs::Boundaries::in_text))]
pub fn closes(text: &str, at: usize, name: &str) -> bool
    requires { at ≤ length text.now }
    ensures { result ≡ closes name.now (drop at text.now) }
{
    if byte_at(text, at) == b'<' && byte_at(text, at + 1) == b'/' {
        if has_letters(text, at + 2, name) {
            let after = byte_at(text, at + 2 + name.len());
            Gap.has(after) || after == b'>'
        } else {
            false
        }
    } else {
        false
    }
}
