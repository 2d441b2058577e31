//! Laws of the definitions that the contracts cite.
ghost use Rattle.query_script.specs.Laws.{FieldSelectorsAreTexts, SelectorsAreTexts};
ghost use Rattle.query_script.specs.Laws.{HasFieldReason, HasOneCut, HasOneFault, HasOneReading, IsReadOrRefused, HasReading, QueriesRun, ReadsMore, TestsStored};

/// Where tests are stored, each text reads as one list of fields or is refused as a whole, for one
/// reason and not both.
#[tactic(auto, using(crate::proofs::Unique::one_script_fault, crate::proofs::Unique::read_or_refused))]
pub fn read_or_refused()
    ensures one_reading { HasOneReading }
    ensures one_fault { HasOneFault }
    ensures not_both { IsReadOrRefused }
    ensures some { HasReading }
{}

/// A text is one list of steps at most, though each step may be written in several ways.
pub fn one_cut()
    ensures { HasOneCut }
{}

/// A field of a script is refused for its name, its chain, the order of its steps, the name of a
/// test, or the text of a query; never for what running it may give, for what a block of records
/// alone may have, nor for want of memory.
pub fn reasons_of_fields()
    ensures { HasFieldReason }
{}

/// A field that has no reason where no tests are stored is the same field where some are.
pub fn reads_more()
    ensures { ReadsMore }
{}

/// The queries of each field can be run one after the other, and the tests that it keeps items by
/// are stored.
pub fn queries_run()
    ensures run { QueriesRun }
    ensures stored { TestsStored }
{}

/// The selectors of a script that is UTF-8 are UTF-8, and so are those of a piece that is.
pub fn selectors_are_texts()
    ensures of_script { SelectorsAreTexts }
    ensures of_field { FieldSelectorsAreTexts }
{}
