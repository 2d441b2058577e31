ghost use Rattle.xpath_lexer.specs.Laws.{OneSpelling};

/// At most one list of tokens spells a text.
pub fn one_spelling()
    ensures { OneSpelling }
{}
