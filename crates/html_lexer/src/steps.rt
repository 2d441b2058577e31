ghost use Rattle.std.specs.Prelude.{◌≡◌, ◌+◌, ◌<◌, ◌≤◌, ℕ, true, false, length, slice_index};
ghost use Rattle.text_base.specs.Text.{is_letter, IsPlace};
ghost use Rattle.html_lexer.specs.Steps.{end_tag_at, comment_at, doctype_at, query_at, declaration_at, other_at, StartAt, MarkupAt, StepAt, starts_at};
ghost use Rattle.html_lexer.specs.Cuts.{Cuts};

use crate::kinds::{Gap, NameByte};
use crate::names::{has_letters, is_escapable, is_refused};
use crate::scans::{plain_end, raw_end};
use crate::tags::{AttrStep, tag_end};
use text_base::{
    ByteKind, PageReason, Space5, byte_at, find_byte, find_text, is_letter, part, run_end,
};

/// Where the parts of a token stand, which begins where it was looked for.
#[derive(Clone, Copy, Debug, PartialEq, Eq)]
pub enum TokenAt {
    Start {
        name_to: usize,
        attrs_to: usize,
        to: usize,
        slash: bool,
    },
    End {
        name_to: usize,
        to: usize,
    },
    Text {
        to: usize,
        refs: bool,
    },
    Comment {
        text_from: usize,
        text_to: usize,
        to: usize,
    },
    Doctype {
        to: usize,
    },
}

/// What a page has at a place before its end.
#[derive(Clone, Copy, Debug, PartialEq, Eq)]
pub enum Step {
    Gives(TokenAt),
    Fails(PageReason),
}

/// The end tag at a place.
#[tactic(auto, using(text_base::proofs::Boundaries::before_ascii, text_base::proofs::Boundaries::after_ascii, text_base::proofs::Boundaries::past_ascii, crate::proofs::PlainLemmas::plain_moves, crate::proofs::PlainLemmas::letter_is_name))]
fn end_tag_at(text: &str, at: usize) -> Step
    requires within { at + 2 ≤ length text.now }
    requires place { IsPlace text.now (at + 2) }
    ensures step { result ≡ end_tag_at text.now at }
    ensures cut { Cuts text.now at result }
{
    if is_letter(byte_at(text, at + 2)) {
        let name_to = run_end(text, &NameByte, at + 2);
        let end = run_end(text, &Space5, name_to);
        if byte_at(text, end) == b'>' {
            return Step::Gives(TokenAt::End {
                name_to,
                to: end + 1,
            });
        }
    }
    Step::Fails(PageReason::BadTag)
}

/// The comment whose text begins at a place.
#[tactic(auto, using(text_base::proofs::Boundaries::before_ascii, text_base::proofs::Boundaries::after_ascii, text_base::proofs::Boundaries::past_ascii, crate::proofs::PlainLemmas::plain_moves, crate::proofs::PlainLemmas::letter_is_name))]
fn comment_at(text: &str, from: usize) -> Step
    requires within { from ≤ length text.now }
    requires place { IsPlace text.now from }
    ensures step { result ≡ comment_at text.now from }
    ensures cut { (i : ℕ) → i < from → Cuts text.now i result }
{
    let first = byte_at(text, from);
    if first == b'>' {
        return Step::Fails(PageReason::BadComment);
    }
    if first == b'-' && byte_at(text, from + 1) == b'>' {
        return Step::Fails(PageReason::BadComment);
    }
    let end = find_text(text, b"-->", from);
    if end >= text.len() {
        return Step::Fails(PageReason::BadComment);
    }
    let body = part(text, from, end);
    if find_text(body, b"--!>", 0) < body.len() {
        return Step::Fails(PageReason::BadComment);
    }
    Step::Gives(TokenAt::Comment {
        text_from: from,
        text_to: end,
        to: end + 3,
    })
}

/// The doctype at a place.
#[tactic(auto, using(crate::proofs::PlainLemmas::past_bracket))]
fn doctype_at(text: &str, at: usize) -> Step
    requires { at ≤ length text.now }
    ensures step { result ≡ doctype_at text.now at }
    ensures cut { Cuts text.now at result }
{
    let end = find_byte(text, b'>', at);
    if end < text.len() {
        Step::Gives(TokenAt::Doctype { to: end + 1 })
    } else {
        Step::Fails(PageReason::BadMarkup)
    }
}

/// The comment that `<?` begins at a place.
#[tactic(auto, using(crate::proofs::PlainLemmas::past_bracket))]
fn query_at(text: &str, at: usize) -> Step
    requires within { at + 1 ≤ length text.now }
    requires place { IsPlace text.now (at + 1) }
    ensures step { result ≡ query_at text.now at }
    ensures cut { Cuts text.now at result }
{
    let end = find_byte(text, b'>', at + 1);
    if end < text.len() {
        Step::Gives(TokenAt::Comment {
            text_from: at + 1,
            text_to: end,
            to: end + 1,
        })
    } else {
        Step::Fails(PageReason::BadMarkup)
    }
}

/// What `<!` begins at a place.
#[tactic(auto, using(text_base::proofs::Boundaries::in_text, text_base::proofs::Boundaries::past_byte))]
fn declaration_at(text: &str, at: usize) -> Step
    requires { at + 2 ≤ length text.now }
    ensures step { result ≡ declaration_at text.now at }
    ensures cut { Cuts text.now at result }
{
    if byte_at(text, at + 2) == b'-' && byte_at(text, at + 3) == b'-' {
        comment_at(text, at + 4)
    } else if has_letters(text, at + 2, "doctype") {
        doctype_at(text, at)
    } else {
        Step::Fails(PageReason::BadMarkup)
    }
}

/// What begins at a place where no start tag does.
#[tactic(auto, using(text_base::proofs::Boundaries::in_text, text_base::proofs::Boundaries::past_byte, crate::proofs::PlainLemmas::other_moves))]
fn other_at(text: &str, at: usize) -> Step
    requires within { at < length text.now }
    requires other { starts_at text.now at ≡ false }
    ensures step { result ≡ other_at text.now at }
    ensures cut { Cuts text.now at result }
{
    let second = byte_at(text, at + 1);
    if byte_at(text, at) == b'<' && second == b'/' {
        return end_tag_at(text, at);
    }
    if byte_at(text, at) == b'<' && second == b'!' {
        return declaration_at(text, at);
    }
    if byte_at(text, at) == b'<' && second == b'?' {
        return query_at(text, at);
    }
    Step::Gives(TokenAt::Text {
        to: plain_end(text, at),
        refs: true,
    })
}

/// The start tag whose name begins after a place and ends at `name_to`.
#[tactic(auto, using(text_base::proofs::Boundaries::before_ascii, text_base::proofs::Boundaries::after_ascii, text_base::proofs::Boundaries::past_ascii, crate::proofs::PlainLemmas::plain_moves, crate::proofs::PlainLemmas::letter_is_name))]
fn start_at(text: &str, at: usize, name_to: usize) -> Step
    requires order { at + 1 ≤ name_to }
    requires within { name_to ≤ length text.now }
    requires start { IsPlace text.now (at + 1) }
    requires place { IsPlace text.now name_to }
    ensures step { StartAt text.now at name_to result }
    ensures cut { Cuts text.now at result }
{
    let after = byte_at(text, name_to);
    if Gap.has(after) || after == b'>' {
        match tag_end(text, name_to) {
            AttrStep::Reads(_) => Step::Fails(PageReason::BadTag),
            AttrStep::Closes {
                attrs_to,
                to,
                slash,
            } => {
                if is_refused(part(text, at + 1, name_to), slash) {
                    return Step::Fails(PageReason::BadTag);
                }
                Step::Gives(TokenAt::Start {
                    name_to,
                    attrs_to,
                    to,
                    slash,
                })
            }
            AttrStep::Refuses(reason) => Step::Fails(reason),
        }
    } else {
        Step::Fails(PageReason::BadTag)
    }
}

/// What begins at a place outside raw text.
#[tactic(auto, using(text_base::proofs::Boundaries::in_text, text_base::proofs::Boundaries::past_byte))]
fn markup_at(text: &str, at: usize) -> Step
    requires { at < length text.now }
    ensures step { MarkupAt text.now at result }
    ensures cut { Cuts text.now at result }
{
    if byte_at(text, at) == b'<' && is_letter(byte_at(text, at + 1)) {
        start_at(text, at, run_end(text, &NameByte, at + 1))
    } else {
        other_at(text, at)
    }
}

/// What a page has at a place, where the token before it is a start tag of this name, or no start
/// tag and the name is empty.
pub fn step_at(text: &str, name: &str, at: usize) -> Step
    requires within { at < length text.now }
    requires place { IsPlace text.now at }
    ensures step { StepAt text.now name.now at result }
    ensures cut { Cuts text.now at result }
{
    let raw = raw_end(text, name, at);
    if at < raw {
        return Step::Gives(TokenAt::Text {
            to: raw,
            refs: is_escapable(name),
        });
    }
    markup_at(text, at)
}
