//! The names of pseudo-classes, after Selectors Level 3, section 6.6, and `contains`.
ghost use Rattle.std.specs.Prelude.{◌≡◌};
ghost use Rattle.css_parser.specs.Names as spec;

use crate::pieces::{Piece, Plain};
use css_selectors::{Nth, Pseudo};

/// Which position of 1 the class is, if it is one.
fn first_or_last(name: &str) -> Option<Nth>
    ensures { result ≡ spec.first_or_last name.now }
{
    if name.eq_ignore_ascii_case("first-child") {
        Some(Nth::Child)
    } else if name.eq_ignore_ascii_case("last-child") {
        Some(Nth::LastChild)
    } else if name.eq_ignore_ascii_case("first-of-type") {
        Some(Nth::OfType)
    } else if name.eq_ignore_ascii_case("last-of-type") {
        Some(Nth::LastOfType)
    } else {
        None
    }
}

/// The classes of a user's actions, and of what a document does not tell.
fn never_holds(name: &str) -> Option<Pseudo>
    ensures { result ≡ spec.never_holds name.now }
{
    if name.eq_ignore_ascii_case("hover") {
        Some(Pseudo::Never)
    } else if name.eq_ignore_ascii_case("active") {
        Some(Pseudo::Never)
    } else if name.eq_ignore_ascii_case("focus") {
        Some(Pseudo::Never)
    } else if name.eq_ignore_ascii_case("target") {
        Some(Pseudo::Never)
    } else if name.eq_ignore_ascii_case("visited") {
        Some(Pseudo::Never)
    } else {
        None
    }
}

fn state(name: &str) -> Option<Pseudo>
    ensures { result ≡ spec.state name.now }
{
    if name.eq_ignore_ascii_case("link") {
        Some(Pseudo::Link)
    } else if name.eq_ignore_ascii_case("checked") {
        Some(Pseudo::Checked)
    } else if name.eq_ignore_ascii_case("enabled") {
        Some(Pseudo::Enabled)
    } else if name.eq_ignore_ascii_case("disabled") {
        Some(Pseudo::Disabled)
    } else {
        never_holds(name)
    }
}

fn pseudo_called(name: &str) -> Option<Pseudo>
    ensures { result ≡ spec.pseudo_called name.now }
{
    if name.eq_ignore_ascii_case("only-child") {
        Some(Pseudo::OnlyChild)
    } else if name.eq_ignore_ascii_case("only-of-type") {
        Some(Pseudo::OnlyOfType)
    } else if name.eq_ignore_ascii_case("empty") {
        Some(Pseudo::Empty)
    } else if name.eq_ignore_ascii_case("root") {
        Some(Pseudo::Root)
    } else {
        state(name)
    }
}

/// The pseudo-class of a name without an argument.
#[tactic(auto, unfolding(crate::specs::Names::class_called))]
pub(crate) fn class_called(name: &str) -> Piece
    ensures { result ≡ spec.class_called name.now }
{
    match first_or_last(name) {
        Some(kind) => Piece::Plain(Plain::Nth(kind, 0, 1)),
        None => match pseudo_called(name) {
            Some(pseudo) => Piece::Plain(Plain::Pseudo(pseudo)),
            None => Piece::Unknown,
        },
    }
}

/// Which position the class counts, if its argument is `an+b`.
#[tactic(auto, unfolding(crate::specs::Names::nth_called))]
pub(crate) fn nth_called(name: &str) -> Option<Nth>
    ensures { result ≡ spec.nth_called name.now }
{
    if name.eq_ignore_ascii_case("nth-child") {
        Some(Nth::Child)
    } else if name.eq_ignore_ascii_case("nth-last-child") {
        Some(Nth::LastChild)
    } else if name.eq_ignore_ascii_case("nth-of-type") {
        Some(Nth::OfType)
    } else if name.eq_ignore_ascii_case("nth-last-of-type") {
        Some(Nth::LastOfType)
    } else {
        None
    }
}
