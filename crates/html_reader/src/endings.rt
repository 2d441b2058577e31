//! Which ends the next token inserts.
ghost use Rattle.std.specs.Prelude.{◌≡◌, ◌||◌};
ghost use Rattle.std.specs.List.{list_any};
ghost use Rattle.html_reader.specs.Words.{ends_at};
ghost use Rattle.html_reader.specs.inner.Pieces.{owned_bytes};
ghost use Rattle.html_reader.specs.inner.States.{tok_of, next_of, is_foreign_tag, is_single_last};

use crate::tables::start_ends;
use crate::token::{StartTag, Token};

fn any_foreign(tags: &[StartTag<'_>]) -> bool
    ensures { result ≡ list_any is_foreign_tag tags.now }
{
    for tag in tags {
        if tag.foreign {
            return true;
        }
    }
    false
}

fn is_single_last(tags: &[StartTag<'_>], tag: &StartTag<'_>) -> bool
    ensures { result ≡ is_single_last tags.now tag.now }
{
    tag.void || (tag.slash && any_foreign(tags))
}

fn token_ends(tag: &StartTag<'_>, next: &Token<'_>) -> bool
    ensures { result ≡ ends_at (owned_bytes tag.now.name) (Some (tok_of next.now)) }
{
    match next {
        Token::Start {
            from: _,
            tag: other,
        } => tag.omits && start_ends(tag.name.as_str(), other.name.as_str()),
        Token::End {
            from: _,
            name: other,
        } => tag.omits && tag.name.as_str() != other.as_str(),
        _ => false,
    }
}

fn ends_at(tag: &StartTag<'_>, next: Option<&Token<'_>>) -> bool
    ensures { result ≡ ends_at (owned_bytes tag.now.name) (next_of next.entry) }
{
    match next {
        None => tag.omits,
        Some(next) => token_ends(tag, next),
    }
}

/// Whether an end is inserted for the innermost open tag, the last of these, before the next token or the end.
pub fn tag_ends(tags: &[StartTag<'_>], tag: &StartTag<'_>, next: Option<&Token<'_>>) -> bool
    ensures { result ≡ (is_single_last tags.now tag.now || ends_at (owned_bytes tag.now.name) (next_of next.entry)) }
{
    is_single_last(tags, tag) || ends_at(tag, next)
}
