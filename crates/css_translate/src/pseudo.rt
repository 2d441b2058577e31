ghost use Rattle.std.specs.Prelude.{◌≡◌, ◌++◌, OnOk, string_bytes};
ghost use Rattle.css_selectors.specs.declared.selector.Pseudo.TheVariants as pseudo;
ghost use Rattle.css_printed.specs.Simples.{html_text, pseudo_text};

use crate::positions::push_nth;
use crate::pushing::push;
use css_selectors::{Dialect, Nth, Pseudo};
use std::alloc::Global;
use text_base::{NoMemory, Txt};

/// `[count(preceding-sibling::*) = 0][count(following-sibling::*) = 0]`
fn push_only_child(
    alloc: Global,
    out: &mut String,
    dialect: Dialect,
    element: &Option<Txt>,
) -> Result<(), NoMemory>
    ensures { OnOk result (string_bytes out.new ≡ string_bytes out.old ++ pseudo_text dialect element.now pseudo.OnlyChild) }
{
    push_nth(alloc, out, dialect, element, Nth::Child, 0, 1)?;
    push_nth(alloc, out, dialect, element, Nth::LastChild, 0, 1)
}

/// `[count(preceding-sibling::name) = 0][count(following-sibling::name) = 0]`
fn push_only_of_type(
    alloc: Global,
    out: &mut String,
    dialect: Dialect,
    element: &Option<Txt>,
) -> Result<(), NoMemory>
    ensures { OnOk result (string_bytes out.new ≡ string_bytes out.old ++ pseudo_text dialect element.now pseudo.OnlyOfType) }
{
    push_nth(alloc, out, dialect, element, Nth::OfType, 0, 1)?;
    push_nth(alloc, out, dialect, element, Nth::LastOfType, 0, 1)
}

/// Appends the predicate in the HTML dialect, and `[0]` in the other.
fn push_html(out: &mut String, dialect: Dialect, text: &str) -> Result<(), NoMemory>
    ensures { OnOk result (string_bytes out.new ≡ string_bytes out.old ++ html_text dialect text.now) }
{
    match dialect {
        Dialect::Generic => push(out, "[0]"),
        Dialect::Html => push(out, text),
    }
}

/// `[@href and (self::a or ..)]`
fn push_link(out: &mut String, dialect: Dialect, element: &Option<Txt>) -> Result<(), NoMemory>
    ensures { OnOk result (string_bytes out.new ≡ string_bytes out.old ++ pseudo_text dialect element.now pseudo.Link) }
{
    push_html(
        out,
        dialect,
        "[@href and (self::a or self::area or self::link)]",
    )
}

/// `[(@selected and self::option) or (@checked and self::input and (..))]`
fn push_checked(out: &mut String, dialect: Dialect, element: &Option<Txt>) -> Result<(), NoMemory>
    ensures { OnOk result (string_bytes out.new ≡ string_bytes out.old ++ pseudo_text dialect element.now pseudo.Checked) }
{
    push_html(
        out,
        dialect,
        "[(@selected and self::option) or (@checked and self::input and (@type = 'checkbox' or @type = 'radio'))]",
    )
}

/// `[not(@disabled) and (self::button or ..)]`
fn push_enabled(out: &mut String, dialect: Dialect, element: &Option<Txt>) -> Result<(), NoMemory>
    ensures { OnOk result (string_bytes out.new ≡ string_bytes out.old ++ pseudo_text dialect element.now pseudo.Enabled) }
{
    push_html(
        out,
        dialect,
        "[not(@disabled) and (self::button or self::fieldset or self::input or self::optgroup or self::option or self::select or self::textarea)]",
    )
}

/// `[@disabled and (self::button or ..)]`
fn push_disabled(out: &mut String, dialect: Dialect, element: &Option<Txt>) -> Result<(), NoMemory>
    ensures { OnOk result (string_bytes out.new ≡ string_bytes out.old ++ pseudo_text dialect element.now pseudo.Disabled) }
{
    push_html(
        out,
        dialect,
        "[@disabled and (self::button or self::fieldset or self::input or self::optgroup or self::option or self::select or self::textarea)]",
    )
}

/// Appends the predicates of a pseudo-class.
pub fn push_pseudo(
    alloc: Global,
    out: &mut String,
    dialect: Dialect,
    element: &Option<Txt>,
    which: Pseudo,
) -> Result<(), NoMemory>
    ensures { OnOk result (string_bytes out.new ≡ string_bytes out.old ++ pseudo_text dialect element.now which) }
{
    match which {
        Pseudo::OnlyChild => push_only_child(alloc, out, dialect, element),
        Pseudo::OnlyOfType => push_only_of_type(alloc, out, dialect, element),
        Pseudo::Empty => push(out, "[not(*) and not(text())]"),
        Pseudo::Root => push(out, "[not(parent::*)]"),
        Pseudo::Never => push(out, "[0]"),
        Pseudo::Link => push_link(out, dialect, element),
        Pseudo::Checked => push_checked(out, dialect, element),
        Pseudo::Enabled => push_enabled(out, dialect, element),
        Pseudo::Disabled => push_disabled(out, dialect, element),
    }
}
