//! The names of a selector against those of a document. Selectors Level 3, section 6.1.
ghost use Rattle.std.specs.Prelude.{◌≡◌, ◌<◌, length};
ghost use Rattle.std.specs.Str.{chars, bytes_eq};
ghost use Rattle.css_meaning.specs.Names as names;
ghost use Rattle.css_meaning.specs.Names.{folded};

use crate::texts::{is_lowered, is_text};
use css_selectors::Dialect;
use doc_model::{Tree, WantedName};
use text_base::Txt;

/// Whether a name of a document is the one that is written in a selector: in the HTML dialect the
/// written one counts in ASCII lower case. It takes no memory. Selectors Level 3, section 6.1.
pub fn is_named(dialect: Dialect, written: &str, name: &str) -> bool
    ensures { result ≡ bytes_eq (chars name.now) (folded dialect (chars written.now)) }
{
    match dialect {
        Dialect::Generic => is_text(name, written),
        Dialect::Html => is_lowered(name.as_bytes(), written.as_bytes()),
    }
}

/// A name as it is written in a selector of the dialect.
#[derive(Clone, Copy)]
pub struct Written<'a> {
    pub dialect: Dialect,
    pub name: &'a str,
}

impl<'a> WantedName for Written<'a> {
    ghost wanted = { λ w. folded w.dialect (chars w.name.now) };

    fn is(&self, name: &str) -> bool {
        is_named(self.dialect, self.name, name)
    }
}

/// Whether the row has the name, where there is one. Selectors Level 3, section 6.1.
pub fn has_name<T: Tree>(tree: &T, dialect: Dialect, name: &Option<Txt>, e: u32) -> bool
    requires { e < length (T.document tree.now) }
    ensures { result ≡ names.has_name (T.document tree.now) dialect name.now e }
{
    match name {
        None => true,
        Some(name) => is_named(dialect, name.as_str(), tree.name(e)),
    }
}
