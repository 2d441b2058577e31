ghost use Rattle.refusal_places.specs.Laws.{OneSelectorPlace, OneXPathPlace};

/// Each text is refused at one place at most.
pub fn one_place()
    ensures selectors { OneSelectorPlace }
    ensures xpaths { OneXPathPlace }
{}
