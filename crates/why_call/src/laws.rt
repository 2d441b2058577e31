//! Laws of the definitions that the contracts cite.
ghost use Rattle.why_call.specs.inner.Below.{Below};
ghost use Rattle.why_call.specs.Laws.{OnePlan, SameReason, WordsLaw};

use extract_call::laws_below as laws_of_lines;
use refusal_places::one_place;
use xpath_parser::{never_both, one_fault};

/// The laws of the crates below, from which those of this crate follow.
pub fn laws_below()
    ensures { Below }
{
    laws_of_lines();
    one_fault();
    never_both();
    one_place();
}

/// Each question has at most one plan, whichever tests are stored.
pub fn one_plan()
    ensures { OnePlan }
{
    laws_below();
}

/// The words have the form of a question exactly where they are the words of that question.
#[tactic(auto, using(crate::proofs::Forms::words_read))]
pub fn words_of_questions()
    ensures { WordsLaw }
{}

/// The reason that is given is the one in the line that `extract` gives for the same selector, expression, page or script.
pub fn same_reason()
    ensures { SameReason }
{
    laws_below();
}
