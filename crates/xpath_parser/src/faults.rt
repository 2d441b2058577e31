//! The refusals that stand at one term.
ghost use Rattle.std.specs.Prelude.{◌≡◌, ◌≤◌, length};
ghost use Rattle.xpath_parser.specs.Faults as spec;
ghost use Rattle.xpath_parser.specs.Shapes.{takes};

use crate::expression::Func;
use crate::term::Term;
use text_base::XPathFault;

/// The commas up to the bracket that closes the one before the terms, without those in brackets
/// further in.
fn commas(terms: &[Term]) -> usize
    ensures value { result ≡ spec.commas 0 terms.now }
    ensures within { result ≤ length terms.now }
{
    let mut depth = 0usize;
    let mut count = 0usize;
    for term in terms {
        match term {
            Term::OpenRound | Term::OpenSquare => depth += 1,
            Term::CloseRound | Term::CloseSquare => {
                if depth == 0 {
                    return count;
                }
                depth -= 1;
            }
            Term::Comma => {
                if depth == 0 {
                    count += 1;
                }
            }
            _ => {}
        }
    }
    count
}

/// How many arguments a function has, by the terms after its name. At most 64 brackets are open at
/// a term, so that no term is counted for more than 64 functions.
fn argument_count(after: &[Term]) -> usize
    ensures { result ≡ spec.argument_count after.now }
{
    match after {
        [Term::OpenRound, Term::CloseRound, ..] => 0,
        [Term::OpenRound, rest @ ..] => commas(rest) + 1,
        _ => 0,
    }
}

/// Whether the function takes so many arguments, XPath 1.0, section 4.
pub fn takes(function: Func, count: usize) -> bool
    ensures { result ≡ takes function count }
{
    match function {
        Func::Last | Func::Position | Func::True | Func::False => count == 0,
        Func::Count | Func::Id | Func::Boolean | Func::Not | Func::Lang => count == 1,
        Func::Sum | Func::Floor | Func::Ceiling | Func::Round => count == 1,
        Func::LocalName | Func::NamespaceUri | Func::Name | Func::Str => count <= 1,
        Func::StringLength | Func::NormalizeSpace | Func::Number => count <= 1,
        Func::Concat => count >= 2,
        Func::StartsWith | Func::Contains => count == 2,
        Func::SubstringBefore | Func::SubstringAfter | Func::Stored(_) => count == 2,
        Func::Substring => count >= 2 && count <= 3,
        Func::Translate => count == 3,
    }
}

/// Why a term is refused, if it is, with the terms after it.
fn fault_at(term: &Term, after: &[Term]) -> Option<XPathFault>
    ensures { result ≡ spec.fault_at term.now after.now }
{
    match term {
        Term::Fraction => Some(XPathFault::Fraction),
        Term::TooLarge => Some(XPathFault::Range),
        Term::Div => Some(XPathFault::Div),
        Term::Variable => Some(XPathFault::Variable),
        Term::Prefixed => Some(XPathFault::Prefix),
        Term::UnknownFunction => Some(XPathFault::Function),
        Term::Function(function) => {
            if takes(*function, argument_count(after)) {
                None
            } else {
                Some(XPathFault::Arguments)
            }
        }
        _ => None,
    }
}

/// The first refusal in the order of the text.
pub fn first_fault(terms: &[Term]) -> Option<XPathFault>
    ensures { result ≡ spec.first_fault terms.now }
{
    for at in 0..terms.len() {
        let fault = fault_at(&terms[at], &terms[at + 1..]);
        if fault.is_some() {
            return fault;
        }
    }
    None
}
