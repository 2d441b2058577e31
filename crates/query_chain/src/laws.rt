ghost use Rattle.query_chain.specs.Laws.{OneValue, AValue};

/// On a document a field has at most one value from a row on, where the same tests are stored.
pub fn one_value()
    ensures { OneValue }
{}

/// And each ordered field has one.
pub fn a_value()
    ensures { AValue }
{}
