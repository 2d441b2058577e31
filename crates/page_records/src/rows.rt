//! The steps of a block.
ghost use Rattle.std.specs.Prelude.{◌≡◌, true, IfOk};
ghost use Rattle.test_registry.specs.View.{known};
ghost use Rattle.page_records.specs.Blocks.{is_query};
ghost use Rattle.page_records.specs.inner.Contents.{IsRowFound, AreRowsFound};

use css_selectors::Dialect;
use query_script::{ChainStep, Found, RawStep, Reason, find_step};
use std::alloc::Global;
use test_registry::Tests;
use text_base::NoMemory;

/// A step of which rows come, or why it is refused.
#[derive(Drop)]
pub(crate) enum RowFound {
    Kept(ChainStep),
    Refused(Reason),
}

/// The steps of a block, or the reason of the first that is refused.
#[derive(Drop)]
pub(crate) enum Rows {
    Kept(Vec<ChainStep>),
    Refused(Reason),
}

/// A query on nodes of which rows come. Strings are out of order: another query on them would be, and so are they at the end.
fn row_query(
    alloc: Global,
    dialect: Dialect,
    raw: &RawStep,
    tests: &Tests,
) -> Result<RowFound, NoMemory>
    requires { is_query raw.now ≡ true }
    ensures { IfOk result (IsRowFound (known tests.now) dialect raw.now) }
{
    match find_step(alloc, dialect, true, raw, tests)? {
        Found::Kept(step, true) => Ok(RowFound::Kept(step)),
        Found::Kept(_, false) => Ok(RowFound::Refused(Reason::Order)),
        Found::Refused(why) => Ok(RowFound::Refused(why)),
    }
}

/// The step of a block that a written step is.
fn row_step(
    alloc: Global,
    dialect: Dialect,
    raw: &RawStep,
    tests: &Tests,
) -> Result<RowFound, NoMemory>
    ensures { IfOk result (IsRowFound (known tests.now) dialect raw.now) }
{
    match raw {
        RawStep::Css(_) => row_query(alloc, dialect, raw, tests),
        RawStep::XPath(_) => row_query(alloc, dialect, raw, tests),
        RawStep::Re(_) => Ok(RowFound::Refused(Reason::Order)),
        RawStep::Keep(_, _) => Ok(RowFound::Refused(Reason::Order)),
    }
}

/// The steps of a block that the written steps are.
pub(crate) fn row_steps(
    alloc: Global,
    dialect: Dialect,
    written: &[RawStep],
    tests: &Tests,
) -> Result<Rows, NoMemory>
    ensures { IfOk result (AreRowsFound (known tests.now) dialect written.now) }
{
    let mut kept = Vec::new(alloc);
    for one in written {
        match row_step(alloc, dialect, one, tests)? {
            RowFound::Kept(step) => kept.push(step)?,
            RowFound::Refused(why) => return Ok(Rows::Refused(why)),
        }
    }
    Ok(Rows::Kept(kept))
}
