//! Steps that are kept or refused.
ghost use Rattle.std.specs.Prelude.{◌≡◌, true, IfOk};
ghost use Rattle.test_registry.specs.View.{known};
ghost use Rattle.xpath_parser.specs.Shapes.{is_nodes};
ghost use Rattle.query_script.specs.declared.steps.RawStep.TheVariants.{Css, XPath, Keep};
ghost use Rattle.query_script.specs.Ordered.{IsOrderedChainOver, IsStoredChain};
ghost use Rattle.query_script.specs.Queries.{IsFound, IsFoundInOrder, IsFoundStored};
ghost use Rattle.query_script.specs.inner.Reader.{AreFound};

use crate::script::{Chain, ChainStep, Reason, Take};
use crate::steps::RawStep;
use css_parser::parse_selectors;
use css_selectors::Dialect;
use css_translate::translate;
use std::alloc::Global;
use test_registry::Tests;
use text_base::{NoMemory, SelectorFault, Seq, Txt, XPathFault};
use xpath_parser::parse_xpath_with;
use xpath_values::Shape;

/// A step that is kept, with whether nodes come of it, or why it is refused.
#[derive(Debug, Drop)]
pub enum Found {
    Kept(ChainStep, bool),
    Refused(Reason),
}

/// A selector as a step on nodes.
fn css_step(alloc: Global, dialect: Dialect, text: &Txt, tests: &Tests) -> Result<Found, NoMemory>
    ensures is { IfOk result (IsFound (known tests.now) dialect true (Css text.now)) }
    ensures ordered { IfOk result (IsFoundInOrder (known tests.now) true) }
    ensures stored { IfOk result (IsFoundStored (known tests.now)) }
{
    match parse_selectors(alloc, text.as_str()) {
        Ok(list) => match translate(alloc, dialect, &list) {
            Ok(xpath) => Ok(Found::Kept(ChainStep::Query(Txt::from_string(xpath)), true)),
            Err(SelectorFault::XPathLong) => {
                Ok(Found::Refused(Reason::Css(SelectorFault::XPathLong)))
            }
            Err(_) => Err(NoMemory),
        },
        Err(SelectorFault::Memory) => Err(NoMemory),
        Err(fault) => Ok(Found::Refused(Reason::Css(fault))),
    }
}

fn is_nodes(shape: Shape) -> bool
    ensures { result ≡ is_nodes shape }
{
    match shape {
        Shape::Nodes => true,
        Shape::Str => false,
        Shape::Num => false,
        Shape::Bool => false,
    }
}

/// An XPath text as a step on nodes.
fn xpath_step(alloc: Global, dialect: Dialect, text: &Txt, tests: &Tests) -> Result<Found, NoMemory>
    ensures is { IfOk result (IsFound (known tests.now) dialect true (XPath text.now)) }
    ensures ordered { IfOk result (IsFoundInOrder (known tests.now) true) }
    ensures stored { IfOk result (IsFoundStored (known tests.now)) }
{
    match parse_xpath_with(alloc, text.as_str(), tests) {
        Ok(typed) => {
            let nodes = is_nodes(typed.shape());
            Ok(Found::Kept(ChainStep::Query(Txt::of(alloc, text.as_str())?), nodes))
        }
        Err(XPathFault::Memory) => Err(NoMemory),
        Err(fault) => Ok(Found::Refused(Reason::XPath(fault))),
    }
}

/// The stored test of that name as a step, which gives nodes where nodes come to it.
fn keep_step(
    alloc: Global,
    nodes: bool,
    name: &Txt,
    text: &Txt,
    tests: &Tests,
) -> Result<Found, NoMemory>
    ensures is { IfOk result (λ found. (dialect : _) → IsFound (known tests.now) dialect nodes (Keep name.now text.now) found) }
    ensures ordered { IfOk result (IsFoundInOrder (known tests.now) nodes) }
    ensures stored { IfOk result (IsFoundStored (known tests.now)) }
{
    match tests.find(name.as_str()) {
        None => Ok(Found::Refused(Reason::Test)),
        Some(kind) => {
            let text = Txt::of(alloc, text.as_str())?;
            Ok(Found::Kept(ChainStep::Keep(kind, text), nodes))
        }
    }
}

/// What a step is kept as where these tests are stored, with whether nodes come of it, or why it is
/// refused.
///
/// Nodes come to the step or not. A css step is kept as its XPath, an xpath step and a re step as
/// the text of its string, a keep step as the kind of its test and the text of its string. A css or
/// xpath step on strings is refused as `Order`, a name that no test has as `Test`, a selector as
/// `Css` and an XPath text as `XPath`. The kind of a keep step that is kept is stored.
pub fn find_step(
    alloc: Global,
    dialect: Dialect,
    nodes: bool,
    raw: &RawStep,
    tests: &Tests,
) -> Result<Found, NoMemory>
    ensures is { IfOk result (IsFound (known tests.now) dialect nodes raw.now) }
    ensures ordered { IfOk result (IsFoundInOrder (known tests.now) nodes) }
    ensures stored { IfOk result (IsFoundStored (known tests.now)) }
{
    match raw {
        RawStep::Css(text) => {
            if !nodes {
                return Ok(Found::Refused(Reason::Order));
            }
            css_step(alloc, dialect, text, tests)
        }
        RawStep::XPath(text) => {
            if !nodes {
                return Ok(Found::Refused(Reason::Order));
            }
            xpath_step(alloc, dialect, text, tests)
        }
        RawStep::Re(text) => {
            let pattern = Txt::of(alloc, text.as_str())?;
            Ok(Found::Kept(ChainStep::Match(pattern), false))
        }
        RawStep::Keep(name, text) => keep_step(alloc, nodes, name, text, tests),
    }
}

/// The steps that are kept, with the end, or the reason of the first that is refused.
pub(crate) fn chain_of(
    alloc: Global,
    dialect: Dialect,
    written: &[RawStep],
    take: Take,
    tests: &Tests,
) -> Result<Chain, NoMemory>
    ensures found { IfOk result (AreFound (known tests.now) dialect written.now take) }
    ensures ordered { IfOk result (IsOrderedChainOver (known tests.now)) }
    ensures stored { IfOk result (IsStoredChain (known tests.now)) }
{
    let mut kept = Vec::new(alloc);
    let mut nodes = true;
    for one in written {
        match find_step(alloc, dialect, nodes, one, tests)? {
            Found::Kept(step, after) => {
                kept.push(step)?;
                nodes = after;
            }
            Found::Refused(why) => return Ok(Chain::Refused(why)),
        }
    }
    Ok(Chain::Steps(Seq::from_vec(kept), take))
}
