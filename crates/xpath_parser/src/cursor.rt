ghost use Rattle.std.specs.Prelude.{◌≡◌, ◌<◌, ◌^◌, length, option_copied};
ghost use Rattle.xpath_parser.specs.Reader as spec;
ghost use Rattle.xpath_parser.specs.inner.Parsing.{Gives};

use crate::refusal::Refusal;
use crate::term::Term;
use std::marker::Model;

/// The terms that are left to be read.
#[derive(Drop)]
pub struct Cursor<'a> {
    left: &'a [Term],
}

impl<'a> Model for Cursor<'a> {
    ghost use Rattle.std.specs.Prelude.{List, length, ◌<◌, ◌^◌};
    ghost use Rattle.xpath_parser.specs.declared.term.Term.{Term as TermValue};

    ghost Value = { List TermValue };

    ghost view = { λ c. c.left.now };

    ghost invariant = { λ c. length c.left.now < 2 ^ 32 };
}

pub const OPEN_ROUND: u8 = 1;

pub const CLOSE_ROUND: u8 = 2;

pub const OPEN_SQUARE: u8 = 3;

pub const CLOSE_SQUARE: u8 = 4;

pub const COMMA: u8 = 5;

pub const SLASH: u8 = 6;

pub const DOUBLE_SLASH: u8 = 7;

pub const DOUBLE_COLON: u8 = 8;

/// The number of a term that stands for itself, or 0.
fn mark(term: Option<&Term>) -> u8
    ensures { result ≡ spec.mark (option_copied term.entry) }
{
    match term {
        Some(Term::OpenRound) => OPEN_ROUND,
        Some(Term::CloseRound) => CLOSE_ROUND,
        Some(Term::OpenSquare) => OPEN_SQUARE,
        Some(Term::CloseSquare) => CLOSE_SQUARE,
        Some(Term::Comma) => COMMA,
        Some(Term::Slash) => SLASH,
        Some(Term::DoubleSlash) => DOUBLE_SLASH,
        Some(Term::DoubleColon) => DOUBLE_COLON,
        _ => 0,
    }
}

impl<'a> Cursor<'a> {
    pub fn new(left: &'a [Term]) -> Cursor<'a>
        requires { length left.now < 2 ^ 32 }
        ensures { result ≡ left.now }
    {
        Cursor { left }
    }

    pub fn len(&self) -> usize
        ensures value { result ≡ length self.now }
        ensures small { result < 2 ^ 32 }
    {
        self.left.len()
    }

    /// The term that comes next.
    pub fn peek(&self) -> Option<&'a Term>
        ensures { option_copied result ≡ spec.peek self.now }
    {
        self.left.first()
    }

    /// Goes past the next term.
    pub fn skip(&mut self)
        ensures { self.new ≡ spec.rest self.old }
    {
        if let Some((_, rest)) = self.left.split_first() {
            self.left = rest;
        }
    }

    /// Whether the next term has this number.
    pub fn sees(&self, number: u8) -> bool
        ensures { result ≡ spec.sees number self.now }
    {
        mark(self.peek()) == number
    }

    /// Goes past the term with this number, which must come next.
    pub fn expect(&mut self, number: u8) -> Result<(), Refusal>
        ensures { Gives (spec.expect number self.old) result self.new }
    {
        if self.sees(number) {
            self.skip();
            Ok(())
        } else {
            Err(Refusal::Syntax)
        }
    }
}
