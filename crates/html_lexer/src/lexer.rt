ghost use Rattle.std.specs.Prelude.{◌≡◌, ◌<◌, ◌≤◌, [], length, IfOk, IfSome};
ghost use Rattle.text_base.specs.Text.{IsPlace};
ghost use Rattle.html_lexer.specs.Cuts.{IsCut};
ghost use Rattle.html_lexer.specs.Lexing.{IsNext};
ghost use Rattle.html_lexer.specs.Tokens.{view, tok_at, end_of, name_after};

use crate::steps::{Step, TokenAt, step_at};
use std::marker::Model;
use text_base::{PageFault, part};

/// A token of a page, from the byte `from` to before the byte `to`. The texts are slices of the page.
#[derive(Clone, Copy, Debug)]
pub enum Token<'t> {
    /// A start tag. `attrs` is what stands between its name and its `>`, or its `/>` where `slash`
    /// is true.
    Start {
        from: usize,
        to: usize,
        name: &'t str,
        attrs: &'t str,
        slash: bool,
    },
    /// An end tag.
    End {
        from: usize,
        to: usize,
        name: &'t str,
    },
    /// A text, in which references count where `refs` says so.
    Text {
        from: usize,
        to: usize,
        raw: &'t str,
        refs: bool,
    },
    /// A comment.
    Comment {
        from: usize,
        to: usize,
        text: &'t str,
    },
    /// A doctype.
    Doctype {
        from: usize,
        to: usize,
    },
}

impl<'t> Token<'t> {
    /// The byte before which the token ends.
    fn end(self) -> usize
        ensures { result ≡ end_of (view self.entry) }
    {
        match self {
            Token::Start { to, .. }
            | Token::End { to, .. }
            | Token::Text { to, .. }
            | Token::Comment { to, .. }
            | Token::Doctype { to, .. } => to,
        }
    }

    /// The name of a start tag as it is written, and the empty text for another token.
    pub fn name_after(self) -> &'t str
        ensures { result.now ≡ name_after (view self.entry) }
    {
        match self {
            Token::Start { name, .. } => name,
            _ => "",
        }
    }
}

/// The token of a page that begins at a place and whose parts stand at these.
fn token_at<'t>(text: &'t str, from: usize, parts: TokenAt) -> Token<'t>
    requires place { IsPlace text.now from }
    requires cut { IsCut text.now from parts }
    ensures token { view result ≡ tok_at text.now from parts }
    ensures moves { from < end_of (view result) }
    ensures end { IsPlace text.now (end_of (view result)) }
{
    match parts {
        TokenAt::Start {
            name_to,
            attrs_to,
            to,
            slash,
        } => Token::Start {
            from,
            to,
            name: part(text, from + 1, name_to),
            attrs: part(text, name_to, attrs_to),
            slash,
        },
        TokenAt::End { name_to, to } => Token::End {
            from,
            to,
            name: part(text, from + 2, name_to),
        },
        TokenAt::Text { to, refs } => Token::Text {
            from,
            to,
            raw: part(text, from, to),
            refs,
        },
        TokenAt::Comment {
            text_from,
            text_to,
            to,
        } => Token::Comment {
            from,
            to,
            text: part(text, text_from, text_to),
        },
        TokenAt::Doctype { to } => Token::Doctype { from, to },
    }
}

/// Reads a page, token by token.
#[derive(Drop)]
pub struct Lexer<'t> {
    text: &'t str,
    at: usize,
    // of the start tag just read, or empty
    name: &'t str,
}

impl<'t> Model for Lexer<'t> {
    ghost use Rattle.std.specs.Prelude.{◌≤◌, length};
    ghost use Rattle.text_base.specs.Text.{IsPlace};
    ghost use Rattle.html_lexer.specs.State.{Reading};

    ghost Value = { Reading };

    ghost view = { λ a. record { text = a.text.now; at = a.at; name = a.name.now } };

    ghost invariant = { λ a. (a.at ≤ length a.text.now) × IsPlace a.text.now a.at };
}

impl<'t> Lexer<'t> {
    /// The lexer of a page, before its first token.
    #[tactic(auto, using(text_base::proofs::Boundaries::at_start))]
    pub fn new(text: &'t str) -> Lexer<'t>
        ensures { result ≡ record { text = text.now; at = 0; name = [] } }
    {
        Lexer {
            text,
            at: 0,
            name: "",
        }
    }

    /// The next token, or None after the last, or the page's lexical fault. After None and after a
    /// fault the next call gives the same.
    pub fn next(&mut self) -> Result<Option<Token<'t>>, PageFault>
        ensures next { IsNext self.old result self.new }
        ensures moves { IfOk result (λ token. IfSome token (λ _. self.old.at < self.new.at)) }
        ensures within { self.new.at ≤ length self.old.text }
    {
        let text = self.text;
        let from = self.at;
        if from >= text.len() {
            return Ok(None);
        }
        match step_at(text, self.name, from) {
            Step::Fails(reason) => Err(PageFault { reason, at: from }),
            Step::Gives(parts) => {
                let token = token_at(text, from, parts);
                self.at = token.end();
                self.name = token.name_after();
                Ok(Some(token))
            }
        }
    }
}
