ghost use Rattle.std.specs.Prelude.{◌≡◌, ◌≢◌, ◌<◌, ◌^◌, false, length, map, IfOk, IfErr};
ghost use Rattle.text_base.specs.declared.reasons.XPathFault.TheVariants as fault;
ghost use Rattle.test_registry.specs.Names.{Known};
ghost use Rattle.test_registry.specs.View.{known};
ghost use Rattle.xpath_lexer.specs.Places.{lexeme_of};
ghost use Rattle.xpath_parser.specs.declared.expression.Expr.{Expr as ExprValue};
ghost use Rattle.xpath_parser.specs.Asking.{AsksNone, AsksOnly};
ghost use Rattle.xpath_parser.specs.Faults.{IsFit, IsFaultOver, IsXPathFault};
ghost use Rattle.xpath_parser.specs.Grammar.{ReadsWhole};
ghost use Rattle.xpath_parser.specs.Reading.{ReadsAs, ReadsOver};
ghost use Rattle.xpath_parser.specs.Terms.{terms_over};
ghost use Rattle.xpath_parser.specs.Typed.{expression};

use crate::depth::is_shallow;
use crate::expression::Expr;
use crate::faults::first_fault;
use crate::refusal::Refusal;
use crate::shapes::typing;
use crate::term::Term;
use crate::terms::terms_of;
use crate::typed::Typed;
use crate::whole::read;
use std::alloc::Global;
use test_registry::Tests;
use text_base::{Seq, XPathFault};
use xpath_lexer::{XTok, xpath_tokens};

/// The tokens of a text in which not too many brackets are open.
#[tactic(auto, using(crate::proofs::Fit::few_tokens, crate::proofs::Fit::lexer_fault))]
fn fit_tokens(alloc: Global, text: &str) -> Result<Seq<XTok>, XPathFault>
    ensures fit { IfOk result (λ ws. IsFit text.now (map lexeme_of ws)) }
    ensures few { IfOk result (λ ws. length ws < 2 ^ 32) }
    ensures fault { IfErr result (λ e. e ≢ fault.Memory → (tests : Known) → IsFaultOver tests text.now e) }
{
    let tokens = xpath_tokens(alloc, text)?;
    if is_shallow(tokens.as_slice()) {
        Ok(tokens)
    } else {
        Err(XPathFault::Deep)
    }
}

/// The terms of a text in which not too many brackets are open.
#[tactic(auto, using(crate::proofs::Fit::few_terms))]
fn fit_terms(alloc: Global, tokens: &[XTok], tests: &Tests) -> Result<Seq<Term>, XPathFault>
    requires { length tokens.now < 2 ^ 32 }
    ensures value { IfOk result (λ ts. ts ≡ terms_over (known tests.now) (map lexeme_of tokens.now)) }
    ensures few { IfOk result (λ ts. length ts < 2 ^ 32) }
    ensures memory { IfErr result (λ e. e ≡ fault.Memory) }
{
    match terms_of(alloc, tokens, tests) {
        Ok(terms) => Ok(terms),
        Err(_) => Err(XPathFault::Memory),
    }
}

/// The expression that the terms read as.
fn read_terms(alloc: Global, terms: &[Term]) -> Result<Expr, XPathFault>
    requires { length terms.now < 2 ^ 32 }
    ensures found { IfOk result (λ x. ReadsWhole terms.now x) }
    ensures syntax { IfErr result (λ e. e ≢ fault.Memory → (e ≡ fault.Syntax) × ((x : ExprValue) → ReadsWhole terms.now x → ⊥)) }
{
    match read(alloc, terms) {
        Ok(found) => Ok(found),
        Err(Refusal::Syntax) => Err(XPathFault::Syntax),
        Err(Refusal::Memory) => Err(XPathFault::Memory),
    }
}

/// The expression that an XPath text reads as, XPath 1.0, sections 2 and 3, where tests are stored: the name of a test
/// reads as a function of two arguments of any type that gives a boolean. The expression calls only stored tests.
///
/// A text is refused for the first of these that stands: `Long`, `Text`, `Deep`, `Syntax`; the first
/// in the order of the text of `Fraction`, `Range`, `Div`, `Variable`, `Prefix`, `Function` and
/// `Arguments`; `WrongType`. `Memory` may be answered for each text.
pub fn parse_xpath_with(alloc: Global, text: &str, tests: &Tests) -> Result<Typed, XPathFault>
    ensures ok { IfOk result (λ t. ReadsOver (known tests.now) text.now (expression t)) }
    ensures asks { IfOk result (λ t. AsksOnly (known tests.now) (expression t)) }
    ensures fault { IfErr result (λ e. e ≢ fault.Memory → IsFaultOver (known tests.now) text.now e) }
{
    let tokens = fit_tokens(alloc, text)?;
    let terms = fit_terms(alloc, tokens.as_slice(), tests)?;
    let expr = read_terms(alloc, terms.as_slice())?;
    if let Some(fault) = first_fault(terms.as_slice()) {
        return Err(fault);
    }
    let (shape, right) = typing(&expr);
    if !right {
        return Err(XPathFault::WrongType);
    }
    Ok(Typed::new(expr, shape))
}

/// The expression of XPath 1.0 alone that a text reads as, which calls no stored test. A text is refused as by
/// `parse_xpath_with` where no tests are stored.
#[tactic(auto, using(crate::proofs::Asking::asks_none))]
pub fn parse_xpath(alloc: Global, text: &str) -> Result<Typed, XPathFault>
    ensures ok { IfOk result (λ t. ReadsAs text.now (expression t)) }
    ensures asks { IfOk result (λ t. AsksNone (expression t)) }
    ensures fault { IfErr result (λ e. e ≢ fault.Memory → IsXPathFault text.now e) }
{
    parse_xpath_with(alloc, text, &Tests::new(alloc))
}
