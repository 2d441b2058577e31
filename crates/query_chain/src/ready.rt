//! A field that is ready to run.
ghost use Rattle.std.specs.Prelude.{IfOk};
ghost use Rattle.test_registry.specs.View.{known};
ghost use Rattle.query_script.specs.Ordered.{IsOrderedOver, KeepsStored};
ghost use Rattle.query_chain.specs.Tasks.{IsTaskOver, TaskAsks};

use crate::pattern::BuildFault;
use crate::ready_steps::{ReadyStep, prepare_all};
use query_script::{Chain, Field, Reason, Take};
use std::alloc::Global;
use std::marker::Model;
use test_registry::Tests;
use text_base::NoMemory;

/// What is left to do of a chain.
#[derive(Drop)]
pub(crate) enum ReadyChain {
    /// Nothing: the field is refused.
    Refused(Reason),
    /// The steps, and which texts are taken at the end.
    Steps(Vec<ReadyStep>, Take),
}

/// A field whose queries are read and whose patterns are built: contracts see what it has to do.
#[derive(Drop)]
pub struct Ready {
    pub(crate) chain: ReadyChain,
}

impl Model for Ready {
    ghost use Rattle.query_chain.specs.Tasks.{Task};

    ghost Value = { Task };

    ghost use Rattle.std.specs.Coded.{codes};
    ghost use Rattle.xpath_parser.specs.contracts.expression.Expr as e;

    ghost coded = { Prim.hlevel (codes, e.the_row.coded) };

    ghost use Rattle.query_chain.specs.inner.Readiness.{task_of, IsSound};

    ghost view = { λ r. task_of r.chain };

    ghost invariant = { λ r. IsSound r.chain };
}

/// Reads the queries of a field over the stored tests and builds its patterns, once for all the rows and documents on which it
/// is to run. It asks only tests that are stored. The only error is want of memory, and a pattern that takes more of it than
/// `regex` allows is one such.
pub fn prepare_with(alloc: Global, field: &Field, tests: &Tests) -> Result<Ready, NoMemory>
    requires ordered { IsOrderedOver (known tests.now) field.now }
    requires stored { KeepsStored (known tests.now) field.now }
    ensures task { IfOk result (IsTaskOver (known tests.now) field.now) }
    ensures asks { IfOk result (TaskAsks (known tests.now)) }
{
    match &field.chain {
        Chain::Refused(reason) => Ok(Ready {
            chain: ReadyChain::Refused(*reason),
        }),
        Chain::Steps(steps, end) => match prepare_all(alloc, steps.as_slice(), tests) {
            Ok(ready) => Ok(Ready {
                chain: ReadyChain::Steps(ready, *end),
            }),
            Err(BuildFault::Pattern) => Ok(Ready {
                chain: ReadyChain::Refused(Reason::Pattern),
            }),
            Err(BuildFault::Memory) => Err(NoMemory),
        },
    }
}
