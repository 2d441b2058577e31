ghost use Rattle.css_printed.specs.Examples.{WorkedTexts};
ghost use Rattle.css_printed.specs.LiteralLaw.{LiteralLaw};
ghost use Rattle.css_printed.specs.PrintedLaw.{PrintedLaw};
ghost use Rattle.css_printed.specs.WrongTexts.{WrongTexts};

/// The printed text of each well made list of texts, where it is no longer than an XPath text may be, reads as one
/// expression, which gives from each row what the list answers there. Selectors Level 3, section 8.
#[tactic(auto, using(crate::proofs::Theorem::printed_law))]
pub fn printed_texts_keep_meaning()
    ensures { PrintedLaw }
{}

/// The literal of a text reads as an expression whose value is the text, at every row of every document. XPath 1.0,
/// sections 3.7 and 4.2.
#[tactic(auto, using(crate::proofs::LiteralMeaning::literal_law))]
pub fn literals_stand_for_texts()
    ensures { LiteralLaw }
{}

/// The texts of some selectors.
#[tactic(auto, using(crate::proofs::Worked::worked))]
pub fn worked_texts()
    ensures { WorkedTexts }
{}

/// Some texts that do not keep the meaning of a selector: a slip in the templates and in what they are read as would print these.
#[tactic(auto, using(crate::proofs::Refuted::refuted))]
pub fn wrong_texts()
    ensures { WrongTexts }
{}
