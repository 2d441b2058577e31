ghost use Rattle.std.specs.Prelude.{◌≡◌, ◌+◌, ◌<◌, ◌≤◌, [], true, IfOk, IfSome, Some, length, slice_index};
ghost use Rattle.std.specs.List.{All};
ghost use Rattle.text_base.specs.Text.{IsPlace};
ghost use Rattle.css_lexer.specs.Comments.{opens_comment, comment_len, Comments};
ghost use Rattle.css_lexer.specs.inner.Pushing.{EndsAfter, EndsIfSome};
ghost use Rattle.css_lexer.specs.Tokens.{starts_ident, symbol_at, token, NameAt, HashAt, QuotedAt, TokenAt, IsLexed, SitsIn, most_selector};

use crate::contents::{Content, read_content};
use crate::rules::{Rule, kind_of_one, kind_of_two, rule_at};
use crate::tokens::{CssKind, CssToken};
use sqlite_items::Items;
use std::alloc::Global;
use text_base::{
    ByteKind, NoMemory, SelectorFault, Space5, Txt, byte_at, find_text, is_digit, run_end,
};

/// The most bytes that a selector may have.
pub const SELECTOR_LIMIT: usize = 16384;

/// An ASCII digit.
#[derive(Clone, Copy)]
struct Digit;

impl ByteKind for Digit {
    ghost use Rattle.text_base.specs.Text.{is_digit};
    ghost use Rattle.css_lexer.specs.inner.Kinds.{digit_narrow};

    ghost test = { λ _. is_digit };

    fn has(&self, byte: u8) -> bool {
        is_digit(byte)
    }

    ghost keeps_characters = { λ _. digit_narrow };
}

/// Whether `/*` stands at a place.
fn opens_comment(text: &str, at: usize) -> bool
    requires { at ≤ length text.now }
    ensures { result ≡ opens_comment text.now at }
{
    byte_at(text, at) == b'/' && byte_at(text, at + 1) == b'*'
}

/// How long the comment at a place is, or 0.
#[tactic(auto, using(crate::proofs::CommentLemmas::comment_is, crate::proofs::CommentLemmas::no_comment, crate::proofs::CommentLemmas::not_closed, crate::proofs::CommentLemmas::opening_fits))]
fn comment_len(text: &str, at: usize) -> usize
    requires within { at ≤ length text.now }
    requires place { IsPlace text.now at }
    ensures len { result ≡ comment_len text.now at }
    ensures place { IsPlace text.now (at + result) }
{
    if !opens_comment(text, at) {
        return 0;
    }
    let closing = find_text(text, b"*/", at + 2);
    if closing < text.len() {
        closing + 2 - at
    } else {
        0
    }
}

/// The first place from a place on at which no comment stands.
fn past_comments(text: &str, from: usize) -> usize
    requires within { from ≤ length text.now }
    requires place { IsPlace text.now from }
    ensures comments { Comments text.now from result }
    ensures place { IsPlace text.now result }
    ensures order { from ≤ result }
{
    let mut at = from;
    loop {
        let n = comment_len(text, at);
        if n == 0 {
            return at;
        }
        at += n;
    }
}

/// A token without a value.
fn plain_token(alloc: Global, kind: CssKind, from: usize, to: usize) -> CssToken
    ensures { result ≡ token kind from to [] }
{
    CssToken {
        kind,
        from,
        to,
        value: Txt::from_string(String::new(alloc)),
    }
}

/// The token of one or two characters at a place, or none.
fn symbol_at(alloc: Global, text: &str, at: usize) -> Option<CssToken>
    requires within { at < length text.now }
    ensures token { result ≡ symbol_at text.now at }
    ensures ends { EndsIfSome text.now at result }
{
    let byte = byte_at(text, at);
    match kind_of_two(byte, byte_at(text, at + 1)) {
        Some(kind) => Some(plain_token(alloc, kind, at, at + 2)),
        None => match kind_of_one(byte) {
            Some(kind) => Some(plain_token(alloc, kind, at, at + 1)),
            None => None,
        },
    }
}

/// The Function or the Ident at a place.
fn read_name(alloc: Global, text: &str, at: usize) -> Result<CssToken, NoMemory>
    requires within { at < length text.now }
    requires place { IsPlace text.now at }
    requires ident { starts_ident text.now at ≡ true }
    ensures name { IfOk result (NameAt text.now at) }
    ensures ends { IfOk result (EndsAfter text.now at) }
{
    let read = read_content(alloc, text, Content::Name, at)?;
    if byte_at(text, read.end) == b'(' {
        Ok(CssToken {
            kind: CssKind::Function,
            from: at,
            to: read.end + 1,
            value: read.value,
        })
    } else {
        Ok(CssToken {
            kind: CssKind::Ident,
            from: at,
            to: read.end,
            value: read.value,
        })
    }
}

/// The Hash at a place, or none where no name character stands after the `#`.
fn read_hash(alloc: Global, text: &str, at: usize) -> Result<Option<CssToken>, NoMemory>
    requires within { at < length text.now }
    requires hash { slice_index text.now at ≡ 35 }
    ensures hash { IfOk result (HashAt text.now at) }
    ensures ends { IfOk result (EndsIfSome text.now at) }
{
    let read = read_content(alloc, text, Content::Name, at + 1)?;
    if read.end == at + 1 {
        return Ok(None);
    }
    Ok(Some(CssToken {
        kind: CssKind::Hash,
        from: at,
        to: read.end,
        value: read.value,
    }))
}

/// The string at a place, or none where its quote does not stand after its content.
fn read_quoted(
    alloc: Global,
    text: &str,
    content: Content,
    quote: u8,
    at: usize,
) -> Result<Option<CssToken>, NoMemory>
    requires within { at < length text.now }
    requires quote { slice_index text.now at ≡ quote }
    requires some { 0 < quote }
    requires ascii { quote < 128 }
    ensures quoted { IfOk result (QuotedAt content quote text.now at) }
    ensures ends { IfOk result (EndsIfSome text.now at) }
{
    let read = read_content(alloc, text, content, at + 1)?;
    if byte_at(text, read.end) == quote {
        Ok(Some(CssToken {
            kind: CssKind::Quoted,
            from: at,
            to: read.end + 1,
            value: read.value,
        }))
    } else {
        Ok(None)
    }
}

/// The token that begins at a place, or none.
fn read_token(alloc: Global, text: &str, at: usize) -> Result<Option<CssToken>, NoMemory>
    requires within { at < length text.now }
    requires place { IsPlace text.now at }
    ensures token { IfOk result (TokenAt text.now at) }
    ensures ends { IfOk result (EndsIfSome text.now at) }
{
    match rule_at(text, at) {
        Rule::Space => {
            let end = run_end(text, &Space5, at);
            Ok(Some(plain_token(alloc, CssKind::Space, at, end)))
        }
        Rule::Name => {
            let name = read_name(alloc, text, at)?;
            Ok(Some(name))
        }
        Rule::Hash => read_hash(alloc, text, at),
        Rule::Double => read_quoted(alloc, text, Content::Double, b'"', at),
        Rule::Single => read_quoted(alloc, text, Content::Single, b'\'', at),
        Rule::Digits => {
            let end = run_end(text, &Digit, at);
            Ok(Some(plain_token(alloc, CssKind::Digits, at, end)))
        }
        Rule::Symbol => Ok(symbol_at(alloc, text, at)),
    }
}

/// The tokens of a selector, in order. `Long` where the text has more than `SELECTOR_LIMIT` bytes, else `Text`
/// where after some tokens no token begins; a comment that does not end is no token. Places are
/// bytes, values are characters. After Selectors Level 3, section 10.
pub fn css_tokens(alloc: Global, text: &str) -> Result<Items<CssToken>, SelectorFault>
    ensures lexed { IsLexed text.now result }
    ensures places { IfOk result (All (SitsIn text.now)) }
{
    if text.len() > SELECTOR_LIMIT {
        return Err(SelectorFault::Long);
    }
    let mut tokens = Items::new(alloc);
    let mut at = past_comments(text, 0);
    while at < text.len() {
        let token = match read_token(alloc, text, at) {
            Ok(Some(token)) => token,
            Ok(None) => return Err(SelectorFault::Text),
            Err(_) => return Err(SelectorFault::Memory),
        };
        let to = token.to;
        if tokens.push(token).is_err() {
            return Err(SelectorFault::Memory);
        }
        at = past_comments(text, to);
    }
    Ok(tokens)
}
