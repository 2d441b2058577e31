//! Texts of a page.
ghost use Rattle.std.specs.Prelude.{◌≡◌, ◌≢◌, ◌++◌, [], OnOk, string_bytes};
ghost use Rattle.std.specs.Str.{chars};
ghost use Rattle.doc_model.specs.Pieces.{piece_text};
ghost use Rattle.html_reader.specs.inner.Pieces.{owned_bytes};

use doc_model::Piece;
use std::alloc::Global;
use text_base::NoMemory;

/// A text that is a slice of the page, or one that was made from it.
#[derive(Debug, Drop)]
pub enum Owned<'p> {
    Page(&'p str),
    Made(String),
}

#[tactic(auto, using(crate::proofs::PieceLemmas::some_chars))]
fn made_piece<'p, 'q>(text: &'q str) -> Piece<'p, 'q>
    ensures text { piece_text result ≡ chars text.now }
    ensures some { text.now ≢ [] → piece_text result ≢ [] }
{
    Piece::Made(text)
}

#[tactic(auto, using(crate::proofs::PieceLemmas::some_chars))]
fn page_piece<'p, 'q>(text: &'p str) -> Piece<'p, 'q>
    ensures text { piece_text result ≡ chars text.now }
    ensures some { text.now ≢ [] → piece_text result ≢ [] }
{
    Piece::Page(text)
}

impl<'p> Owned<'p> {
    /// The text.
    pub fn as_str(&self) -> &str
        ensures { result.now ≡ owned_bytes self.now }
    {
        match self {
            Owned::Page(text) => text,
            Owned::Made(text) => text.as_str(),
        }
    }

    /// The text, as a tree that grows takes it.
    pub fn piece(&self) -> Piece<'p, '_>
        ensures text { piece_text result ≡ chars (owned_bytes self.now) }
        ensures some { owned_bytes self.now ≢ [] → piece_text result ≢ [] }
    {
        match self {
            Owned::Page(text) => page_piece(text),
            Owned::Made(text) => made_piece(text.as_str()),
        }
    }

    /// Adds a text at the end.
    pub fn push(&mut self, alloc: Global, more: &str) -> Result<(), NoMemory>
        ensures { OnOk result (owned_bytes self.new ≡ owned_bytes self.old ++ more.now) }
    {
        match self {
            Owned::Made(text) => {
                text.push_str(more)?;
                Ok(())
            }
            Owned::Page(text) => {
                let mut made = String::from_str(alloc, *text)?;
                made.push_str(more)?;
                *self = Owned::Made(made);
                Ok(())
            }
        }
    }
}
