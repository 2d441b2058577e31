//! What holds of the bytes of all pages.
ghost use Rattle.text_base.specs.DecodingLaws.{DecodedTexts};

/// The text that a page's bytes decode to is UTF-8, and has no more bytes than they are: what is within a limit stays
/// within it.
pub fn decoded_texts()
    ensures { DecodedTexts }
{}
