ghost use Rattle.css_selectors.specs.Examples.{WorkedSelectors};

/// How specific some selectors are, and what keeps some from being well made.
#[tactic(auto, using(crate::proofs::Worked::worked))]
pub fn worked_selectors()
    ensures { WorkedSelectors }
{}
