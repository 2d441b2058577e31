//! The step that `//` stands for, and a child step behind it, which together are one step down.
ghost use Rattle.std.specs.Prelude.{◌≡◌, ◌≤◌, length, IsTrue};
ghost use Rattle.doc_model.specs.declared.Axis.TheVariants as axis_is;
ghost use Rattle.xpath_eval.specs.inner.Steps.{EndsBelow, IsAllBelow, IsTestedChild};

use crate::tests_of_rows::are_tests;
use doc_model::{Axis, NodeTest};
use xpath_parser::Step;

/// Whether a step gives a row and all rows below it.
pub fn is_all_below(step: &Step) -> bool
    ensures { IsTrue result → IsAllBelow step.now }
{
    matches!(step.axis, Axis::DescendantOrSelf)
        && matches!(step.test, NodeTest::Node)
        && step.predicates.len() == 0
}

fn is_child(axis: Axis) -> bool
    ensures { IsTrue result → axis ≡ axis_is.Child }
{
    matches!(axis, Axis::Child)
}

/// Whether a step goes to children, and its predicates are seen to ask about the row alone.
pub fn is_tested_child(step: &Step) -> bool
    ensures { IsTrue result → IsTestedChild step.now }
{
    is_child(step.axis) && are_tests(step.predicates.as_slice())
}

/// Whether the last two steps are such steps.
pub fn ends_below(steps: &[Step]) -> bool
    ensures long { IsTrue result → 2 ≤ length steps.now }
    ensures steps { IsTrue result → EndsBelow steps.now }
{
    let len = steps.len();
    if len < 2 {
        return false;
    }
    is_all_below(&steps[len - 2]) && is_tested_child(&steps[len - 1])
}
