ghost use Rattle.css_parser.specs.Examples.{WorkedLists};
ghost use Rattle.css_parser.specs.Laws.{HasListOrFault, HasNormalForm, HasOneReading, HasOneFault, HasTexts, IsListOrFault, IsReadAlike, IsWellMade, KeepsEnds};

/// Each text is accepted as one list, which is well made, or has one fault, and not both. The names
/// and values of a list that is accepted of a text in UTF-8 are texts.
#[tactic(auto, using(crate::proofs::SelectingLemmas::one_fault))]
pub fn one_list_or_fault()
    ensures one_list { HasOneReading }
    ensures one_fault { HasOneFault }
    ensures not_both { IsListOrFault }
    ensures some { HasListOrFault }
    ensures well_made { IsWellMade }
    ensures texts { HasTexts }
{}

/// The grammar of choices has no depth. Whether a choice is read, and where it ends, depends on what
/// stands in it alone: not on how deep it stands, nor on how much of it is kept.
pub fn choices_without_depth()
    ensures alike { IsReadAlike }
    ensures ends { KeepsEnds }
{}

/// Each list that is well made, of texts and writable is accepted of its plain text, where that is
/// not longer than a selector may be. The plain text has an element or `*` in each compound, each
/// name and string in escapes, and an empty comment after each token.
pub fn normal_form()
    ensures { HasNormalForm }
{}

/// Some selectors as they are typed are accepted as these lists.
#[tactic(auto, using(crate::proofs::WorkedRows::worked))]
pub fn worked_lists()
    ensures { WorkedLists }
{}
