//! What stands before and after the content of a row.
ghost use Rattle.std.specs.Prelude.{◌≡◌, ◌<◌, length, flat_map, OnOk, IfOk};
ghost use Rattle.doc_model.specs.Document.{row};
ghost use Rattle.doc_model.specs.declared.Kind.TheVariants as kind;
ghost use Rattle.markup_out.specs.inner.Adding.{Adds};
ghost use Rattle.markup_out.specs.inner.Content.{before, before_of, after, Begins, EndsOwn};
ghost use Rattle.markup_out.specs.Markup.{children, attribute_markup, attributes, start_tag, newline_first, newline, end_tag, text_markup, comment_markup};

use crate::escapes::push_escaped;
use crate::names::{is_raw, is_void, takes_newline};
use crate::output::Output;
use doc_model::{Kind, Tree, is_attribute};
use text_base::{NoMemory, byte_at};

/// ` name="value"`
fn push_attribute<T: Tree>(tree: &T, r: u32, back: bool, out: &mut Output) -> Result<(), NoMemory>
    requires { r < length (T.document tree.now) }
    ensures { OnOk result (Adds out.old out.new (attribute_markup back (T.document tree.now) r)) }
{
    out.push(" ")?;
    out.push(tree.name(r))?;
    out.push("=\"")?;
    push_escaped(out, back, true, tree.text(r))?;
    out.push("\"")
}

/// Writes the attributes of an element, and gives the row after them.
fn push_attributes<T: Tree>(tree: &T, x: u32, back: bool, out: &mut Output) -> Result<u32, NoMemory>
    requires row { x < length (T.document tree.now) }
    requires element { (row (T.document tree.now) x).kind ≡ kind.Element }
    ensures adds { OnOk result (Adds out.old out.new (flat_map (attribute_markup back (T.document tree.now)) (attributes (T.document tree.now) x))) }
    ensures end { IfOk result (λ e. EndsOwn (T.document tree.now) x e) }
{
    let len = tree.len();
    let mut r = x + 1;
    while r < len && is_attribute(tree, r) {
        push_attribute(tree, r, back, out)?;
        r += 1;
    }
    Ok(r)
}

/// `<name attributes>`, and the row after the attributes.
fn push_start_tag<T: Tree>(tree: &T, x: u32, back: bool, out: &mut Output) -> Result<u32, NoMemory>
    requires row { x < length (T.document tree.now) }
    requires element { (row (T.document tree.now) x).kind ≡ kind.Element }
    ensures adds { OnOk result (Adds out.old out.new (start_tag back (T.document tree.now) x)) }
    ensures end { IfOk result (λ e. EndsOwn (T.document tree.now) x e) }
{
    out.push("<")?;
    out.push(tree.name(x))?;
    let end = push_attributes(tree, x, back, out)?;
    out.push(">")?;
    Ok(end)
}

/// Whether the content of the row x, which begins at y if there is any, begins with a text that begins with a newline.
fn newline_first<T: Tree>(tree: &T, x: u32, y: u32) -> bool
    requires { EndsOwn (T.document tree.now) x y }
    ensures { result ≡ newline_first (T.document tree.now) (children (T.document tree.now) x) }
{
    if y >= tree.len() {
        return false;
    }
    if tree.parent(y) != x {
        return false;
    }
    match tree.kind(y) {
        Kind::Text => byte_at(tree.text(y), 0) == b'\n',
        _ => false,
    }
}

/// Writes the newline after the start tag of an element whose content begins with one that would not count.
fn push_newline<T: Tree>(
    tree: &T,
    x: u32,
    y: u32,
    back: bool,
    out: &mut Output,
) -> Result<(), NoMemory>
    requires row { x < length (T.document tree.now) }
    requires own { EndsOwn (T.document tree.now) x y }
    ensures { OnOk result (Adds out.old out.new (newline back (T.document tree.now) x)) }
{
    if back && takes_newline(tree.name(x)) && newline_first(tree, x, y) {
        return out.push("\n");
    }
    Ok(())
}

/// An element's start tag, and the row at which its content begins: a void element's at its end.
fn push_element<T: Tree>(tree: &T, x: u32, back: bool, out: &mut Output) -> Result<u32, NoMemory>
    requires row { x < length (T.document tree.now) }
    requires element { (row (T.document tree.now) x).kind ≡ kind.Element }
    ensures adds { OnOk result (Adds out.old out.new (before_of back kind.Element (T.document tree.now) x)) }
    ensures begins { IfOk result (λ y. Begins back (T.document tree.now) x y) }
{
    let content = push_start_tag(tree, x, back, out)?;
    if is_void(tree.name(x)) {
        return Ok(tree.end(x));
    }
    push_newline(tree, x, content, back, out)?;
    Ok(content)
}

/// A text, as it is in some elements, or escaped.
fn push_text<T: Tree>(tree: &T, x: u32, back: bool, out: &mut Output) -> Result<(), NoMemory>
    requires { x < length (T.document tree.now) }
    ensures { OnOk result (Adds out.old out.new (text_markup back (T.document tree.now) x)) }
{
    if is_raw(tree.name(tree.parent(x))) {
        out.push(tree.text(x))
    } else {
        push_escaped(out, back, false, tree.text(x))
    }
}

/// `<!--text-->`
fn push_comment<T: Tree>(tree: &T, x: u32, out: &mut Output) -> Result<(), NoMemory>
    requires { x < length (T.document tree.now) }
    ensures { OnOk result (Adds out.old out.new (comment_markup (T.document tree.now) x)) }
{
    out.push("<!--")?;
    out.push(tree.text(x))?;
    out.push("-->")
}

/// Writes what stands before the content of a row, and gives the row at which the content begins.
pub fn push_before<T: Tree>(tree: &T, x: u32, back: bool, out: &mut Output) -> Result<u32, NoMemory>
    requires { x < length (T.document tree.now) }
    ensures adds { OnOk result (Adds out.old out.new (before back (T.document tree.now) x)) }
    ensures begins { IfOk result (λ y. Begins back (T.document tree.now) x y) }
{
    match tree.kind(x) {
        Kind::Element => return push_element(tree, x, back, out),
        Kind::Root => {}
        Kind::Attribute => push_escaped(out, back, true, tree.text(x))?,
        Kind::Text => push_text(tree, x, back, out)?,
        Kind::Comment => push_comment(tree, x, out)?,
    }
    Ok(x + 1)
}

/// `</name>`
fn push_end_tag<T: Tree>(tree: &T, x: u32, out: &mut Output) -> Result<(), NoMemory>
    requires { x < length (T.document tree.now) }
    ensures { OnOk result (Adds out.old out.new (end_tag (T.document tree.now) x)) }
{
    out.push("</")?;
    out.push(tree.name(x))?;
    out.push(">")
}

/// Writes what stands after the content of a row.
pub fn push_after<T: Tree>(tree: &T, x: u32, out: &mut Output) -> Result<(), NoMemory>
    requires { x < length (T.document tree.now) }
    ensures { OnOk result (Adds out.old out.new (after (T.document tree.now) x)) }
{
    if matches!(tree.kind(x), Kind::Element) && !is_void(tree.name(x)) {
        return push_end_tag(tree, x, out);
    }
    Ok(())
}
