//! Names and values as texts. A text is a list of characters wherever it is read, and these functions
//! do no more than say so.
ghost use Rattle.std.specs.Prelude.{◌≡◌, true};
ghost use Rattle.css_selectors.specs.Texts.{IsText, element_text};

use text_base::Txt;

/// The name or value is a text.
pub fn read(text: &Txt)
    ensures { IsText text.now }
{
    let _read = text.as_str();
}

/// The name of an element is a text, where there is one.
pub fn read_element(element: &Option<Txt>)
    ensures { element_text element.now ≡ true }
{
    match element {
        None => {}
        Some(name) => read(name),
    }
}

/// The name and the value are texts.
pub fn read_both(name: &Txt, value: &Txt)
    ensures name { IsText name.now }
    ensures value { IsText value.now }
{
    read(name);
    read(value);
}
