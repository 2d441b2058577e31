ghost use Rattle.xpath_parser.specs.Laws.{AsksStored, FoundExactly, LevelsCut, NeverBoth, NoneLooser, OneExpression, OneFault, OneReading, ReadOrRefused, ReadsMore, TakenNames};

/// The grammar of XPath 1.0 reads a list of terms as at most one expression.
pub fn one_reading()
    ensures { OneReading }
{}

/// A text reads as at most one expression.
pub fn one_expression()
    ensures { OneExpression }
{}

/// Reading from the left finds exactly what the grammar reads.
pub fn found_exactly()
    ensures { FoundExactly }
{}

/// A text that reads where no tests are stored reads as the same expression where some are.
pub fn reads_more()
    ensures { ReadsMore }
{}

/// What a text reads as calls only tests that are stored.
pub fn asks_stored()
    ensures { AsksStored }
{}

/// No stored test has the name of a node type or of a function, and it may have each other name of XPath 1.0.
pub fn taken_names()
    ensures { TakenNames }
{}

/// A text is refused for at most one reason.
pub fn one_fault()
    ensures { OneFault }
{}

/// Each text reads as an expression or is refused.
pub fn read_or_refused()
    ensures { ReadOrRefused }
{}

/// No text reads as an expression and is refused.
pub fn never_both()
    ensures { NeverBoth }
{}

/// Each level is cut at all of its operators outside brackets, of which a `-` that is a sign is none.
pub fn levels_cut()
    ensures { LevelsCut }
{}

/// Outside brackets, an operand has no operator that joins more loosely.
pub fn none_looser()
    ensures { NoneLooser }
{}
