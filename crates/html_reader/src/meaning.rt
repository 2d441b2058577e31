//! What the tree takes of a token.
ghost use Rattle.std.specs.Prelude.{◌≡◌, ◌≢◌, [], IfOk};
ghost use Rattle.html_lexer.specs.Attributes.{IsAttrs};
ghost use Rattle.html_lexer.specs.Tokens.{view, start_tok};
ghost use Rattle.html_reader.specs.Contents.{takes_newline};
ghost use Rattle.html_reader.specs.inner.States.{tag_of, tok_of, from_of, HasKeptAttributes};
ghost use Rattle.html_reader.specs.Pages.{Means};
ghost use Rattle.html_reader.specs.Tokens.{starts};
ghost use Rattle.html_reader.specs.inner.Keeping.{IsReadable, begin_of, is_start};

use crate::contents::{content, lower_name};
use crate::keeping::keep_attrs;
use crate::tables::{is_foreign, is_void, may_omit_end};
use crate::token::{StartTag, Token};
use html_lexer::{Token as Lexed, takes_newline};
use std::alloc::Global;
use text_base::NoMemory;

/// Whether a text directly after a start tag of this name loses a first newline.
#[tactic(auto, unfolding(crate::specs::Contents::newline_names))]
fn loses_newline(name: &str) -> bool
    ensures { result ≡ takes_newline name.now }
{
    takes_newline(name)
}

/// Whether a token is a start tag.
pub fn is_start(token: Lexed<'_>) -> bool
    ensures { result ≡ is_start (view token.entry) }
{
    matches!(token, Lexed::Start { .. })
}

/// A start tag as the tree takes it, with what the tables say of its name.
fn start_tag<'p>(
    alloc: Global,
    name: &'p str,
    attrs: &'p str,
    slash: bool,
) -> Result<StartTag<'p>, NoMemory>
    requires some { name.now ≢ [] }
    requires attrs { IsAttrs attrs.now }
    ensures means { IfOk result (λ t. Means [] (start_tok 0 0 name.now attrs.now slash) (starts (tag_of t))) }
    ensures kept { IfOk result (λ t. HasKeptAttributes (starts (tag_of t))) }
{
    let name = lower_name(alloc, name)?;
    let attrs = keep_attrs(alloc, attrs)?;
    let void = is_void(name.as_str());
    let omits = may_omit_end(name.as_str());
    let foreign = is_foreign(name.as_str());
    Ok(StartTag {
        name,
        attrs,
        slash,
        void,
        omits,
        foreign,
    })
}

/// What the tree takes of a token. `before` is the name of the start tag directly before it, and empty where no start
/// tag stands there.
pub fn token_of<'p>(alloc: Global, token: Lexed<'p>, before: &str) -> Result<Token<'p>, NoMemory>
    requires { IsReadable (view token) }
    ensures means { IfOk result (λ t. Means before.now (view token.entry) (tok_of t)) }
    ensures kept { IfOk result (λ t. HasKeptAttributes (tok_of t)) }
    ensures from { IfOk result (λ t. from_of t ≡ begin_of (view token.entry)) }
{
    match token {
        Lexed::Start {
            from,
            to: _,
            name,
            attrs,
            slash,
        } => {
            let tag = start_tag(alloc, name, attrs, slash)?;
            Ok(Token::Start { from, tag })
        }
        Lexed::End { from, to: _, name } => {
            let name = lower_name(alloc, name)?;
            Ok(Token::End { from, name })
        }
        Lexed::Text {
            from,
            to: _,
            raw,
            refs,
        } => {
            let content = content(alloc, raw, refs, loses_newline(before))?;
            Ok(Token::Text { from, content })
        }
        Lexed::Comment { from, to: _, text } => Ok(Token::Comment {
            from,
            content: text,
        }),
        Lexed::Doctype { from, to: _ } => Ok(Token::Doctype { from }),
    }
}
