//! Why a selector is refused, and why an expression is.
ghost use Rattle.std.specs.Prelude.{◌≢◌, IfOk};
ghost use Rattle.extract_call.specs.Answers.{answer_of};
ghost use Rattle.query_script.specs.Queries.{IsCssFault};
ghost use Rattle.test_registry.specs.View.{known};
ghost use Rattle.xpath_parser.specs.Faults.{IsFaultOver};
ghost use Rattle.why_call.specs.Selectors.{IsSelectorTold, IsSelectorAnswer, IsExpressionAnswer};

use crate::answers::{nothing, refused_at};
use css_parser::parse_selectors;
use css_selectors::Dialect;
use css_translate::translate;
use extract_call::Line;
use refusal_places::{selector_place, xpath_place};
use refusal_texts::Refusal;
use std::alloc::Global;
use test_registry::Tests;
use text_base::{NoMemory, SelectorFault, XPathFault};
use xpath_parser::parse_xpath_with;

/// The place that is told of a refused selector.
fn told_place(alloc: Global, text: &str, fault: SelectorFault) -> Result<Option<usize>, NoMemory>
    ensures { IfOk result (IsSelectorTold fault text.now) }
{
    match fault {
        SelectorFault::XPathLong => Ok(None),
        _ => selector_place(alloc, text),
    }
}

/// What is written of a refused selector.
fn selector_refused(
    alloc: Global,
    dialect: Dialect,
    text: &str,
    fault: SelectorFault,
) -> Result<Line, NoMemory>
    requires { IsCssFault dialect text.now fault }
    ensures { IfOk result (λ line. IsSelectorAnswer dialect text.now (answer_of line)) }
{
    let _ = dialect;
    let place = told_place(alloc, text, fault)?;
    refused_at(alloc, &Refusal::Css(fault), text, place)
}

/// What is written of a selector.
pub fn selector_answer(alloc: Global, dialect: Dialect, text: &str) -> Result<Line, NoMemory>
    ensures { IfOk result (λ line. IsSelectorAnswer dialect text.now (answer_of line)) }
{
    match parse_selectors(alloc, text) {
        Ok(list) => match translate(alloc, dialect, &list) {
            Ok(_) => nothing(alloc),
            Err(SelectorFault::XPathLong) => {
                selector_refused(alloc, dialect, text, SelectorFault::XPathLong)
            }
            Err(_) => Err(NoMemory),
        },
        Err(SelectorFault::Memory) => Err(NoMemory),
        Err(fault) => selector_refused(alloc, dialect, text, fault),
    }
}

/// What is written of a refused expression.
fn expression_refused(
    alloc: Global,
    text: &str,
    fault: XPathFault,
    tests: &Tests,
) -> Result<Line, NoMemory>
    requires { IsFaultOver (known tests.now) text.now fault }
    ensures { IfOk result (λ line. IsExpressionAnswer (known tests.now) text.now (answer_of line)) }
{
    let place = xpath_place(alloc, text, tests)?;
    refused_at(alloc, &Refusal::XPath(fault), text, place)
}

/// What is written of an expression where these tests are stored.
pub fn expression_answer(alloc: Global, text: &str, tests: &Tests) -> Result<Line, NoMemory>
    ensures { IfOk result (λ line. IsExpressionAnswer (known tests.now) text.now (answer_of line)) }
{
    match parse_xpath_with(alloc, text, tests) {
        Ok(_) => nothing(alloc),
        Err(XPathFault::Memory) => Err(NoMemory),
        Err(fault) => expression_refused(alloc, text, fault, tests),
    }
}
