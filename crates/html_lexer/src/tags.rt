ghost use Rattle.std.specs.Prelude.{◌≡◌, ◌+◌, ◌<◌, ◌≤◌, ℕ, true, List, length, slice_index};
ghost use Rattle.text_base.specs.Text.{IsPlace};
ghost use Rattle.html_lexer.specs.Kinds.{is_attr_byte};
ghost use Rattle.html_lexer.specs.Tags.{quoted, valued, named, attr_at, TagComesTo};
ghost use Rattle.html_lexer.specs.Cuts.{IsPart, LeadsOn};

use crate::kinds::{AttrByte, BareByte, Gap};
use text_base::{ByteKind, PageReason, Space5, byte_at, find_byte, run_end};

/// Where an attribute and its parts stand.
#[derive(Clone, Copy, Debug, PartialEq, Eq)]
pub struct Attribute {
    pub name: usize,
    pub name_to: usize,
    pub value: usize,
    pub value_to: usize,
    pub to: usize,
}

/// What a start tag has next.
#[derive(Clone, Copy, Debug, PartialEq, Eq)]
pub enum AttrStep {
    Reads(Attribute),
    Closes {
        attrs_to: usize,
        to: usize,
        slash: bool,
    },
    Refuses(PageReason),
}

/// The attribute whose value stands in quotes, which open at `v`.
#[tactic(auto, using(crate::proofs::TagLemmas::quoted_leads))]
fn quoted(text: &str, name: usize, name_to: usize, v: usize) -> AttrStep
    requires within { v < length text.now }
    requires ascii { slice_index text.now v < 128 }
    requires name { IsPart text.now name name_to }
    ensures step { result ≡ quoted text.now name name_to v }
    ensures bounds { LeadsOn text.now v result }
{
    let q = find_byte(text, byte_at(text, v), v + 1);
    if q < text.len() {
        AttrStep::Reads(Attribute {
            name,
            name_to,
            value: v + 1,
            value_to: q,
            to: q + 1,
        })
    } else {
        AttrStep::Refuses(PageReason::BadTag)
    }
}

/// The attribute whose value begins at `v`.
#[tactic(auto, using(crate::proofs::TagLemmas::cut_out, text_base::proofs::Boundaries::in_text))]
fn valued(text: &str, name: usize, name_to: usize, v: usize) -> AttrStep
    requires within { v ≤ length text.now }
    requires place { IsPlace text.now v }
    requires name { IsPart text.now name name_to }
    ensures step { result ≡ valued text.now name name_to v }
    ensures bounds { (i : ℕ) → i < v → LeadsOn text.now i result }
{
    let first = byte_at(text, v);
    if first == b'"' {
        quoted(text, name, name_to, v)
    } else if first == b'\'' {
        quoted(text, name, name_to, v)
    } else {
        let end = run_end(text, &BareByte, v);
        AttrStep::Reads(Attribute {
            name,
            name_to,
            value: v,
            value_to: end,
            to: end,
        })
    }
}

/// The attribute that begins at a place.
#[tactic(auto, using(crate::proofs::TagLemmas::is_part, crate::proofs::TagLemmas::cut_out, text_base::proofs::Boundaries::past_byte))]
fn named(text: &str, at: usize) -> AttrStep
    requires within { at < length text.now }
    requires place { IsPlace text.now at }
    requires begins { is_attr_byte (slice_index text.now at) ≡ true }
    ensures step { result ≡ named text.now at }
    ensures bounds { (i : ℕ) → i ≤ at → LeadsOn text.now i result }
{
    let name_to = run_end(text, &AttrByte, at);
    let sign = run_end(text, &Space5, name_to);
    if byte_at(text, sign) == b'=' {
        valued(text, at, name_to, run_end(text, &Space5, sign + 1))
    } else {
        AttrStep::Reads(Attribute {
            name: at,
            name_to,
            value: name_to,
            value_to: name_to,
            to: name_to,
        })
    }
}

/// What a start tag has at a place.
pub fn attr_at(text: &str, at: usize) -> AttrStep
    requires within { at ≤ length text.now }
    requires place { IsPlace text.now at }
    ensures step { result ≡ attr_at text.now at }
    ensures bounds { LeadsOn text.now at result }
{
    let k = run_end(text, &Gap, at);
    let byte = byte_at(text, k);
    if byte == b'>' {
        if at < k && byte_at(text, k - 1) == b'/' {
            AttrStep::Closes {
                attrs_to: k - 1,
                to: k + 1,
                slash: true,
            }
        } else {
            AttrStep::Closes {
                attrs_to: k,
                to: k + 1,
                slash: false,
            }
        }
    } else if k >= text.len() {
        AttrStep::Refuses(PageReason::BadTag)
    } else if AttrByte.has(byte) {
        named(text, k)
    } else {
        AttrStep::Refuses(PageReason::BadAttribute)
    }
}

/// What a start tag comes to, from a place at which its name has ended.
pub fn tag_end(text: &str, from: usize) -> AttrStep
    requires within { from ≤ length text.now }
    requires place { IsPlace text.now from }
    ensures comes { TagComesTo text.now from result }
    ensures bounds { LeadsOn text.now from result }
{
    let mut at = from;
    loop {
        match attr_at(text, at) {
            AttrStep::Reads(attribute) => at = attribute.to,
            AttrStep::Closes {
                attrs_to,
                to,
                slash,
            } => return AttrStep::Closes {
                attrs_to,
                to,
                slash,
            },
            AttrStep::Refuses(reason) => return AttrStep::Refuses(reason),
        }
    }
}
