//! The steps of a field, read and built.
ghost use Rattle.std.specs.Prelude.{◌≡◌, true, map, All, IfOk, IsErrOf};
ghost use Rattle.std.specs.List.{list_any};
ghost use Rattle.test_registry.specs.View.{known};
ghost use Rattle.query_chain.specs.Tasks.{is_refused, IsAction, AreActions};
ghost use Rattle.query_chain.specs.inner.Readiness.{IsReadable};
ghost use Rattle.query_chain.specs.inner.Steps.{action_of, IsUsable};

use crate::pattern::{BuildFault, build};
use query_script::ChainStep;
use regex::Regex;
use std::alloc::Global;
use test_registry::{TestKind, Tests};
use text_base::Txt;
use xpath_parser::{Typed, parse_xpath_with};

/// A step that was read or built.
#[derive(Drop)]
pub enum ReadyStep {
    Query(Typed),
    Match(Regex),
    Keep(TestKind, Txt),
}

/// Reads the step's query, or builds its pattern. It is Pattern only where the step searches for what is no pattern.
fn prepare_step(alloc: Global, step: &ChainStep, tests: &Tests) -> Result<ReadyStep, BuildFault>
    requires { IsReadable (known tests.now) step.now }
    ensures does { IfOk result (λ r. IsAction (known tests.now) step.now (action_of r)) }
    ensures usable { IfOk result IsUsable }
    ensures refused { IsErrOf result BuildFault.Pattern → is_refused step.now ≡ true }
{
    match step {
        ChainStep::Query(text) => match parse_xpath_with(alloc, text.as_str(), tests) {
            Ok(query) => Ok(ReadyStep::Query(query)),
            Err(_) => Err(BuildFault::Memory),
        },
        ChainStep::Match(pattern) => Ok(ReadyStep::Match(build(alloc, pattern.as_str())?)),
        ChainStep::Keep(kind, text) => Ok(ReadyStep::Keep(*kind, Txt::of(alloc, text.as_str())?)),
    }
}

/// Reads and builds all steps, from left to right. It is Pattern only where one of them searches for what is no pattern.
pub fn prepare_all(
    alloc: Global,
    steps: &[ChainStep],
    tests: &Tests,
) -> Result<Vec<ReadyStep>, BuildFault>
    requires { All (IsReadable (known tests.now)) steps.now }
    ensures does { IfOk result (λ v. AreActions (known tests.now) steps.now (map action_of v.items)) }
    ensures usable { IfOk result (λ v. All IsUsable v.items) }
    ensures refused { IsErrOf result BuildFault.Pattern → list_any is_refused steps.now ≡ true }
{
    let mut ready = Vec::new(alloc);
    for step in steps {
        ready.push(prepare_step(alloc, step, tests)?)?;
    }
    Ok(ready)
}
