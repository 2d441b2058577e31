//! Combinators, after the grammar of Selectors Level 3, section 10.1.
ghost use Rattle.std.specs.Prelude.{◌≡◌, ◌≤◌, length};
ghost use Rattle.css_parser.specs.Links as links;
ghost use Rattle.css_parser.specs.inner.Reading.{EndsLink};

use crate::pieces::LinkRead;
use crate::places::{skip, stands};
use css_lexer::{CssKind, CssToken};
use css_selectors::Link;

/// The link, and the first place from a place on at which no Space stands.
fn linked(tokens: &[CssToken], link: Link, at: usize) -> LinkRead
    requires { at ≤ length tokens.now }
    ensures read { result ≡ links.linked tokens.now link at }
    ensures order { at ≤ result.end }
    ensures within { result.end ≤ length tokens.now }
{
    LinkRead {
        link,
        end: skip(tokens, at),
    }
}

/// The combinator at a place, if one stands there.
#[tactic(auto, unfolding(crate::specs::Links::combinator))]
pub(crate) fn combinator(tokens: &[CssToken], at: usize) -> Option<LinkRead>
    requires { at ≤ length tokens.now }
    ensures read { result ≡ links.combinator tokens.now at }
    ensures ends { EndsLink tokens.now at result }
{
    let sign = skip(tokens, at);
    if stands(tokens, sign, CssKind::Greater) {
        Some(linked(tokens, Link::Child, sign + 1))
    } else if stands(tokens, sign, CssKind::Plus) {
        Some(linked(tokens, Link::Next, sign + 1))
    } else if stands(tokens, sign, CssKind::Tilde) {
        Some(linked(tokens, Link::Later, sign + 1))
    } else if at < sign {
        Some(linked(tokens, Link::Descendant, at))
    } else {
        None
    }
}

/// The sign before a relative, and the place behind it and the Space after it.
#[tactic(auto, unfolding(crate::specs::Links::sign))]
pub(crate) fn sign(tokens: &[CssToken], at: usize) -> LinkRead
    requires { at ≤ length tokens.now }
    ensures read { result ≡ links.sign tokens.now at }
    ensures order { at ≤ result.end }
    ensures within { result.end ≤ length tokens.now }
{
    if stands(tokens, at, CssKind::Greater) {
        linked(tokens, Link::Child, at + 1)
    } else if stands(tokens, at, CssKind::Plus) {
        linked(tokens, Link::Next, at + 1)
    } else if stands(tokens, at, CssKind::Tilde) {
        linked(tokens, Link::Later, at + 1)
    } else {
        LinkRead {
            link: Link::Descendant,
            end: at,
        }
    }
}
