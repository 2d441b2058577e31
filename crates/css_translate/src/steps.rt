ghost use Rattle.std.specs.Prelude.{◌≡◌, ◌++◌, OnOk, string_bytes, codes};
ghost use Rattle.css_printed.specs.Names.{element_text};
ghost use Rattle.css_printed.specs.Links.{next_text, first_text, step_text};
ghost use Rattle.css_translate.specs.inner.Pieces.{link_text};

use crate::names::push_element;
use crate::pushing::push;
use css_selectors::{Dialect, Link};
use std::alloc::Global;
use text_base::{NoMemory, Txt};

/// The axis and the element: `descendant::name`
fn push_on(
    alloc: Global,
    out: &mut String,
    dialect: Dialect,
    axis: &str,
    element: &Option<Txt>,
) -> Result<(), NoMemory>
    ensures { OnOk result (string_bytes out.new ≡ string_bytes out.old ++ (axis.now ++ element_text dialect element.now)) }
{
    push(out, axis)?;
    push_element(alloc, out, dialect, element)
}

/// `[self::name]`, or nothing where there is no name
fn push_own_name(
    alloc: Global,
    out: &mut String,
    dialect: Dialect,
    element: &Option<Txt>,
) -> Result<(), NoMemory>
    ensures { OnOk result (string_bytes out.new ≡ string_bytes out.old ++ next_text dialect element.now) }
{
    match element {
        None => Ok(()),
        Some(_) => {
            push(out, "[self::")?;
            push_element(alloc, out, dialect, element)?;
            push(out, "]")
        }
    }
}

/// `following-sibling::*[1][self::name]`
fn push_next(
    alloc: Global,
    out: &mut String,
    dialect: Dialect,
    element: &Option<Txt>,
) -> Result<(), NoMemory>
    ensures { OnOk result (string_bytes out.new ≡ string_bytes out.old ++ (codes "following-sibling::*[1]" ++ next_text dialect element.now)) }
{
    push(out, "following-sibling::*[1]")?;
    push_own_name(alloc, out, dialect, element)
}

/// Appends a part's axis and element, where no other step stands before it.
fn push_first_step(
    alloc: Global,
    out: &mut String,
    dialect: Dialect,
    link: Link,
    element: &Option<Txt>,
) -> Result<(), NoMemory>
    ensures { OnOk result (string_bytes out.new ≡ string_bytes out.old ++ first_text dialect link element.now) }
{
    match link {
        Link::First => push_on(alloc, out, dialect, "descendant-or-self::", element),
        Link::Descendant => push_on(alloc, out, dialect, "descendant::", element),
        Link::Child => push_on(alloc, out, dialect, "child::", element),
        Link::Next => push_next(alloc, out, dialect, element),
        Link::Later => push_on(alloc, out, dialect, "following-sibling::", element),
    }
}

/// The same behind a `/`.
fn push_further_step(
    alloc: Global,
    out: &mut String,
    dialect: Dialect,
    link: Link,
    element: &Option<Txt>,
) -> Result<(), NoMemory>
    ensures { OnOk result (string_bytes out.new ≡ string_bytes out.old ++ (codes "/" ++ first_text dialect link element.now)) }
{
    push(out, "/")?;
    push_first_step(alloc, out, dialect, link, element)
}

/// Appends a part's axis and element, behind the step of the part before it.
fn push_step(
    alloc: Global,
    out: &mut String,
    dialect: Dialect,
    link: Link,
    element: &Option<Txt>,
) -> Result<(), NoMemory>
    ensures { OnOk result (string_bytes out.new ≡ string_bytes out.old ++ step_text dialect link element.now) }
{
    match link {
        Link::First => push_first_step(alloc, out, dialect, Link::First, element),
        Link::Descendant => push_further_step(alloc, out, dialect, Link::Descendant, element),
        Link::Child => push_on(alloc, out, dialect, "/", element),
        Link::Next => push_further_step(alloc, out, dialect, Link::Next, element),
        Link::Later => push_further_step(alloc, out, dialect, Link::Later, element),
    }
}

/// Appends a part's axis and element, where the part is the first of a relative or stands behind another.
pub fn push_link(
    alloc: Global,
    out: &mut String,
    dialect: Dialect,
    is_first: bool,
    link: Link,
    element: &Option<Txt>,
) -> Result<(), NoMemory>
    ensures { OnOk result (string_bytes out.new ≡ string_bytes out.old ++ link_text dialect is_first link element.now) }
{
    if is_first {
        push_first_step(alloc, out, dialect, link, element)
    } else {
        push_step(alloc, out, dialect, link, element)
    }
}
