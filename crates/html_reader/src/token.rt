//! Tokens of a page, as its tree takes them.
ghost use Rattle.std.specs.Prelude.{◌≡◌};
ghost use Rattle.html_reader.specs.inner.Pieces.{owned_bytes};
ghost use Rattle.html_reader.specs.Tables.{is_void, may_omit_end, is_foreign};

use crate::owned::Owned;

/// An attribute that is kept, its name in ASCII lower case, its value decoded.
#[derive(Debug, Drop)]
pub struct Attr<'p> {
    pub name: Owned<'p>,
    pub value: Owned<'p>,
}

/// A start tag, its name in ASCII lower case, and whether it ended with a slash. What the tables say of the name is
/// looked up once.
#[derive(Debug, Drop)]
pub struct StartTag<'p> {
    pub name: Owned<'p>,
    pub attrs: Vec<Attr<'p>>,
    pub slash: bool,
    pub void: bool,
    pub omits: bool,
    pub foreign: bool,
    ghost void_by_name: { void ≡ is_void (owned_bytes name) },
    ghost omits_by_name: { omits ≡ may_omit_end (owned_bytes name) },
    ghost foreign_by_name: { foreign ≡ is_foreign (owned_bytes name) },
}

/// A token of a page, with the byte at which it begins. The name of an end tag is in ASCII lower case, and a text has
/// its content.
#[derive(Debug, Drop)]
pub enum Token<'p> {
    Start { from: usize, tag: StartTag<'p> },
    End { from: usize, name: Owned<'p> },
    Text { from: usize, content: Owned<'p> },
    Comment { from: usize, content: &'p str },
    Doctype { from: usize },
}
