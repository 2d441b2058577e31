ghost use Rattle.css_translate.specs.AcceptedLaw.{AcceptedLaw};

/// The printed text of each list that a text in UTF-8 is accepted as, where it is no longer than an XPath text may be, reads
/// as one expression, which gives from each row what the list answers there.
pub fn accepted_lists_keep_meaning()
    ensures { AcceptedLaw }
{}
