//! What a selector matches. Selectors Level 3, sections 4 to 8, and Selectors Level 4, sections 4.2 to
//! 4.5. Nothing here takes memory.
ghost use Rattle.std.specs.Prelude.{◌≡◌, ◌<◌, ◌&&◌, true, length, map, reverse, IfSome};
ghost use Rattle.std.specs.List.{list_all, list_any};
ghost use Rattle.doc_model.specs.Document.{is_element};
ghost use Rattle.css_meaning.specs.Holding as spec;
ghost use Rattle.css_meaning.specs.Matching.{matches_by};
ghost use Rattle.css_meaning.specs.Names as names;
ghost use Rattle.css_meaning.specs.inner.Searching as search;

use crate::attributes::attribute_holds;
use crate::contents::contains_text;
use crate::languages::lang_holds;
use crate::names::has_name;
use crate::nth::is_nth;
use crate::pseudo_classes::pseudo_holds;
use crate::searching::{Outcome, follow, start};
use crate::siblings::position;
use css_selectors::{Compound, Dialect, Op, Part, Relative, Selector, Simple, Test};
use doc_model::{Tree, is_element};
use text_base::Txt;

/// Whether the test holds at the row. Selectors Level 3, section 6.
#[cycle(matching)]
#[tactic(auto, using(crate::proofs::HoldsAt::at_element, crate::proofs::HoldsAt::at_id, crate::proofs::HoldsAt::at_class, crate::proofs::HoldsAt::at_attr, crate::proofs::HoldsAt::at_nth, crate::proofs::HoldsAt::at_pseudo, crate::proofs::HoldsAt::at_contains, crate::proofs::HoldsAt::at_lang, crate::proofs::HoldsAt::at_any, crate::proofs::HoldsAt::at_has))]
fn test_holds<T: Tree>(tree: &T, dialect: Dialect, test: &Test, e: u32) -> bool
    requires { e < length (T.document tree.now) }
    ensures { result ≡ spec.test_holds (T.document tree.now) dialect test.now e }
{
    match test {
        Test::Element(name) => has_name(tree, dialect, name, e),
        Test::Id(id) => attribute_holds(tree, dialect, "id", Op::Equals, id.as_str(), e),
        Test::Class(class) => attribute_holds(tree, dialect, "class", Op::Word, class.as_str(), e),
        Test::Attr(name, op, value) => {
            attribute_holds(tree, dialect, name.as_str(), *op, value.as_str(), e)
        }
        Test::Nth(kind, a, b) => is_nth(*a, *b, position(tree, *kind, e)),
        Test::Pseudo(pseudo) => pseudo_holds(tree, dialect, *pseudo, e),
        Test::Contains(text) => contains_text(tree, e, text.as_str()),
        Test::Lang(range) => lang_holds(tree, dialect, range.as_str(), e),
        Test::Any(_, list) => any_holds(tree, dialect, list.as_slice(), e),
        Test::Has(list) => one_leads_on(tree, dialect, list.as_slice(), e),
    }
}

/// Whether the simple selector holds at the row: a negated one where its test does not. Selectors
/// Level 3, section 6.6.7.
#[cycle(matching)]
#[tactic(auto, using(crate::proofs::HoldsAt::at_simple))]
fn simple_holds<T: Tree>(tree: &T, dialect: Dialect, simple: &Simple, e: u32) -> bool
    requires { e < length (T.document tree.now) }
    ensures { result ≡ spec.simple_holds (T.document tree.now) dialect simple.now e }
{
    let held = test_holds(tree, dialect, &simple.test, e);
    if simple.negated { !held } else { held }
}

/// Whether each of the simple selectors holds at the row.
#[cycle(matching)]
fn all_hold<T: Tree>(tree: &T, dialect: Dialect, simples: &[Simple], e: u32) -> bool
    requires { e < length (T.document tree.now) }
    ensures { result ≡ list_all (λ x. spec.simple_holds (T.document tree.now) dialect x e) simples.now }
{
    for simple in simples {
        if !simple_holds(tree, dialect, simple, e) {
            return false;
        }
    }
    true
}

/// Whether the row is an element of the name, where there is one, at which each of the simple
/// selectors holds. Selectors Level 3, section 4.
#[cycle(matching)]
fn element_holds<T: Tree>(
    tree: &T,
    dialect: Dialect,
    element: &Option<Txt>,
    simples: &[Simple],
    e: u32,
) -> bool
    requires { e < length (T.document tree.now) }
    ensures { result ≡ (is_element (T.document tree.now) e && (names.has_name (T.document tree.now) dialect element.now e && list_all (λ x. spec.simple_holds (T.document tree.now) dialect x e) simples.now)) }
{
    is_element(tree, e)
        && has_name(tree, dialect, element, e)
        && all_hold(tree, dialect, simples, e)
}

/// Whether the compound selector holds at the row, which is then an element. Selectors Level 3,
/// section 4.
#[cycle(matching)]
#[tactic(auto, using(crate::proofs::HoldsAt::at_compound))]
fn compound_holds<T: Tree>(tree: &T, dialect: Dialect, compound: &Compound, e: u32) -> bool
    requires { e < length (T.document tree.now) }
    ensures { result ≡ spec.compound_holds (T.document tree.now) dialect compound.now e }
{
    element_holds(
        tree,
        dialect,
        &compound.element,
        compound.simples.as_slice(),
        e,
    )
}

/// Whether one of the compounds holds at the row. Selectors Level 4, section 4.2.
#[cycle(matching)]
fn any_holds<T: Tree>(tree: &T, dialect: Dialect, compounds: &[Compound], e: u32) -> bool
    requires { e < length (T.document tree.now) }
    ensures { result ≡ list_any (λ c. spec.compound_holds (T.document tree.now) dialect c e) compounds.now }
{
    for compound in compounds {
        if compound_holds(tree, dialect, compound, e) {
            return true;
        }
    }
    false
}

/// Whether one of the relatives leads on from the row. Selectors Level 4, section 4.5.
#[cycle(matching)]
fn one_leads_on<T: Tree>(tree: &T, dialect: Dialect, relatives: &[Relative], e: u32) -> bool
    requires { e < length (T.document tree.now) }
    ensures { result ≡ list_any (λ r. spec.relative_holds (T.document tree.now) dialect r e) relatives.now }
{
    for relative in relatives {
        if leads_on(tree, dialect, relative, e) {
            return true;
        }
    }
    false
}

/// Whether the parts lead on from the row to some other: each row that may be the last is tried.
#[cycle(matching)]
fn leads_on<T: Tree>(tree: &T, dialect: Dialect, relative: &Relative, e: u32) -> bool
    requires { e < length (T.document tree.now) }
    ensures { result ≡ spec.relative_holds (T.document tree.now) dialect relative.now e }
{
    let parts = relative.parts.as_slice();
    if parts.is_empty() {
        return true;
    }
    for y in 0..tree.len() {
        if leads_back(tree, dialect, parts, Some(e), y) {
            return true;
        }
    }
    false
}

/// Whether the parts, read from the last at the row, lead back to the row where they start, or to
/// any. Selectors Level 3, section 8.
#[cycle(matching)]
fn leads_back<T: Tree>(
    tree: &T,
    dialect: Dialect,
    parts: &[Part],
    from: Option<u32>,
    e: u32,
) -> bool
    requires row { e < length (T.document tree.now) }
    requires from { IfSome from (λ x. x < length (T.document tree.now)) }
    ensures { result ≡ search.leads_back (T.document tree.now) dialect from (reverse parts.now) e }
{
    if parts.is_empty() {
        return false;
    }
    let mut search = start(parts.len(), e);
    'tries: loop {
        let part = &parts[search.at.left - 1];
        let simples = part.simples.as_slice();
        let held = element_holds(tree, dialect, &part.element, simples, search.at.row);
        match follow(tree, from, part.link, held, search) {
            Outcome::Found => return true,
            Outcome::Failed => return false,
            Outcome::Onward(onward) => search = onward,
        }
    }
}

/// Whether the selector matches the row, read from the right: its last part holds there, and what
/// stands before that part matches a row to which the row stands as the part's link says. The link
/// of the first part is not asked, and no row stands to another by the link First: in a well made
/// selector the first part has it, and no other. Selectors Level 3, sections 5 to 8. It takes no
/// memory.
pub fn matches<T: Tree>(tree: &T, dialect: Dialect, selector: &Selector, e: u32) -> bool
    requires { e < length (T.document tree.now) }
    ensures { result ≡ matches_by (T.document tree.now) dialect selector.now.parts e }
{
    leads_back(tree, dialect, selector.parts.as_slice(), None, e)
}
