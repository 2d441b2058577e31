//! Elements whose markup is told by their names.
ghost use Rattle.std.specs.Prelude.{◌≡◌};
ghost use Rattle.std.specs.Str.{chars};
ghost use Rattle.markup_out.specs.Names.{is_void, is_raw, takes_newline};

use html_lexer::{literal_names, newline_names, void_names};
use text_base::is_among;

/// Whether the element has no content and no end tag.
pub fn is_void(name: &str) -> bool
    ensures { result ≡ is_void (chars name.now) }
{
    is_among(void_names(), name)
}

/// Whether texts in the element are written as they are.
pub fn is_raw(name: &str) -> bool
    ensures { result ≡ is_raw (chars name.now) }
{
    is_among(literal_names(), name)
}

/// Whether a newline at the beginning of the element's content does not count.
pub fn takes_newline(name: &str) -> bool
    ensures { result ≡ takes_newline (chars name.now) }
{
    is_among(newline_names(), name)
}
