//! Rows that are kept, and the texts that they keep.
ghost use Rattle.std.specs.Prelude.{◌≡◌, ℕ, List, encode_utf8_all};
ghost use Rattle.std.specs.Str.{chars};

use crate::Kind;
use std::marker::Model;
use text_base::Txt;

/// What a row keeps as its name or its text.
pub trait RowText {
    /// Its characters.
    ghost characters: { Self → List ℕ };

    /// The text. It takes no memory.
    fn as_str(&self) -> &str
        ensures chars { chars result.now ≡ characters self.now }
        ensures bytes { result.now ≡ encode_utf8_all (characters self.now) };
}

impl RowText for Txt {
    ghost characters = { λ t. t };

    fn as_str(&self) -> &str {
        Txt::as_str(self)
    }
}

/// The text, of which contracts know that it is text.
fn itself(text: &str) -> &str
    ensures same { result.now ≡ text.now }
    ensures bytes { result.now ≡ encode_utf8_all (chars text.now) }
{
    text
}

impl<'a> RowText for &'a str {
    ghost characters = { λ t. chars t.now };

    fn as_str(&self) -> &str {
        itself(self)
    }
}

/// A row with the first row after it that is not below it. Contracts see the characters of its name and its text.
#[derive(Drop)]
pub struct KeptRow<X: RowText> {
    pub(crate) kind: Kind,
    pub(crate) name: X,
    pub(crate) text: X,
    pub(crate) parent: u32,
    pub(crate) end: u32,
}

impl<X: RowText> Model for KeptRow<X> {
    ghost use Rattle.doc_model.specs.KeptRows.{Kept};

    ghost Value = { Kept };

    ghost view = { λ r. record { row = record { kind = r.kind; name = X.characters r.name; text = X.characters r.text; parent = r.parent }; end = r.end } };
}
