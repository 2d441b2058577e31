//! Axes that are looked up.
ghost use Rattle.std.specs.Prelude.{◌≡◌, ◌<◌, ◌≤◌, ◌+◌, ◌-◌, ◌*◌, ◌^◌, ◌++◌, ℕ, [], ◌∷◌, true, if◌then◌else◌, length, nat_lt, slice_get, OnOk, OnErr, IfOk};
ghost use Rattle.std.specs.Option.{ForSome};
ghost use Rattle.std.specs.List.{find};
ghost use Rattle.std.specs.Str.{chars};
ghost use Rattle.doc_model.specs.Document.{row, rows, is_element, is_element_kind};
ghost use Rattle.doc_model.specs.Attributes.{has_id};
ghost use Rattle.doc_model.specs.Axes.{axis_list};
ghost use Rattle.doc_model.specs.RowLists.{IsFront};
ghost use Rattle.step_index.specs.Named.{is_named, named, GrowsByFront};
ghost use Rattle.step_index.specs.Named as spec;
ghost use Rattle.step_index.specs.inner.Alike.{HasAlike};
ghost use Rattle.step_index.specs.Siblings.{HasChildren, children_before};
ghost use Rattle.step_index.specs.inner.Tables.{HasNames, HasIds};

use crate::alike::Alike;
use crate::children::Children;
use crate::ids::{Ids, walk_id};
use crate::look_ups::{count_before, looked_up, number_before, row_before};
use crate::names::Names;
use crate::steps::Steps;
use doc_model::{
    Axes, Axis, Kind, NodeTest, Tree, is_element, walk_any, walk_count, walk_first, walk_into,
};
use std::alloc::Global;
use std::marker::Brand;
use std::sync::ledger::{Blank, Ledger};
use text_base::{NoMemory, Txt};

/// A document with tables over it, so that elements are looked up by name, by attribute `id` and among their siblings.
#[derive(Drop)]
pub struct Indexed<T: Tree> {
    tree: T,
    names: Names,
    ids: Option<Ids>,
    children: Children,
    alike: Alike,
    ghost named: { HasNames (T.document tree) names (length (T.document tree)) },
    ghost identified: { ForSome ids (λ t. HasIds (T.document tree) t (length (T.document tree))) },
    ghost counted: { HasChildren (T.document tree) children.ranks.items children.counts.items (length (T.document tree)) },
    ghost grouped: { HasAlike (T.document tree) alike.before.items alike.after.items },
}

impl<T: Tree + Drop> Indexed<T> {
    /// Keeps the tree's document and makes the tables.
    pub fn new(alloc: Global, tree: T) -> Result<Indexed<T>, NoMemory>
        ensures { IfOk result (λ t. ⟦<Indexed<T> as Tree>⟧.document t ≡ T.document tree) }
    {
        let ids = Ids::of(alloc, &tree)?;
        Indexed::with_ids(alloc, tree, Some(ids))
    }

    /// The same without the table by attribute `id`: `first_id` looks at the rows one by one.
    pub fn without_ids(alloc: Global, tree: T) -> Result<Indexed<T>, NoMemory>
        ensures { IfOk result (λ t. ⟦<Indexed<T> as Tree>⟧.document t ≡ T.document tree) }
    {
        Indexed::with_ids(alloc, tree, None)
    }

    /// The tables, with this one by attribute `id`.
    fn with_ids(alloc: Global, tree: T, ids: Option<Ids>) -> Result<Indexed<T>, NoMemory>
        requires { ForSome ids (λ t. HasIds (T.document tree) t (length (T.document tree))) }
        ensures { IfOk result (λ t. ⟦<Indexed<T> as Tree>⟧.document t ≡ T.document tree) }
    {
        let names = Names::of(alloc, &tree)?;
        let children = Children::of(alloc, &tree)?;
        let alike = Alike::of(alloc, &tree, &names)?;
        Ok(Indexed {
            tree,
            names,
            ids,
            children,
            alike,
        })
    }
}

impl<T: Tree> Tree for Indexed<T> {
    ghost document = { λ t. T.document t.tree };

    ghost is_document = { λ t. T.is_document t.tree };

    ghost is_small = { λ t. T.is_small t.tree };

    fn len(&self) -> u32 {
        self.tree.len()
    }

    fn kind(&self, i: u32) -> Kind {
        self.tree.kind(i)
    }

    fn name(&self, i: u32) -> &str {
        self.tree.name(i)
    }

    fn text(&self, i: u32) -> &str {
        self.tree.text(i)
    }

    fn parent(&self, i: u32) -> u32 {
        self.tree.parent(i)
    }

    fn end(&self, i: u32) -> u32 {
        self.tree.end(i)
    }
}

impl<T: Tree> Indexed<T> {
    /// The first element in document order whose attribute `id` is the word. It takes no memory.
    pub fn first_id(&self, word: &str) -> Option<u32>
        ensures { result ≡ find (has_id (T.document self.now.tree) (chars word.now)) (rows (T.document self.now.tree)) }
    {
        match &self.ids {
            Some(ids) => ids.under(word),
            None => walk_id(&self.tree, word),
        }
    }

    /// The row at place `k`, from 0, of the elements of this name in document order. This is one step, and it takes
    /// no memory.
    pub fn row_at<L: Ledger>(&self, name: &str, k: u32, steps: &mut Steps<L>) -> Option<u32>
        ensures row { result ≡ slice_get (named (T.document self.now.tree) (chars name.now)) k }
        ensures one { steps.new ≡ steps.old + 1 }
    {
        looked_up(self.names.under(name), k, steps)
    }

    /// Appends the elements of this name below `x`, in document order. The steps are at most twice the answers and
    /// the binary digits of the number of rows, and 4. Where no memory is found, `out` grew by the first answers.
    pub fn named_below<L: Ledger>(
        &self,
        x: u32,
        name: &str,
        out: &mut Vec<u32>,
        steps: &mut Steps<L>,
    ) -> Result<(), NoMemory>
        requires { x < length (T.document self.now.tree) }
        ensures ok { OnOk result (out.new.items ≡ out.old.items ++ spec.named_below (T.document self.now.tree) x (chars name.now)) }
        ensures err { OnErr result (GrowsByFront out.old.items out.new.items (spec.named_below (T.document self.now.tree) x (chars name.now))) }
        ensures rose { steps.old ≤ steps.new }
        ensures cost { (digits : ℕ) → length (T.document self.now.tree) < 2 ^ digits
            → steps.new ≤ steps.old + (2 * (length (spec.named_below (T.document self.now.tree) x (chars name.now)) + digits) + 4) }
    {
        let list = self.names.under(name);
        let end = self.tree.end(x);
        let mut k = count_before(list, x + 1, steps);
        while let Some(y) = row_before(list, end, k, steps) {
            out.push(y)?;
            k += 1;
        }
        Ok(())
    }

    /// The same, with a counter over the blank ledger.
    fn fill_below<L: Ledger>(
        &self,
        x: u32,
        name: &Txt,
        out: &mut Vec<u32>,
        blank: Blank,
    ) -> Result<(), NoMemory>
        requires row { x < length (T.document self.now.tree) }
        requires name { blank.name ≡ L.name }
        requires parts { blank.parts ≡ L.parts }
        requires some { 0 < L.parts }
        ensures ok { OnOk result (out.new.items ≡ out.old.items ++ spec.named_below (T.document self.now.tree) x name.now) }
        ensures err { OnErr result (GrowsByFront out.old.items out.new.items (spec.named_below (T.document self.now.tree) x name.now)) }
    {
        let mut steps = Steps::<L>::new(blank);
        self.named_below(x, name.as_str(), out, &mut steps)
    }

    /// The same, for a caller that counts nothing.
    fn below_into(&self, x: u32, name: &Txt, out: &mut Vec<u32>) -> Result<(), NoMemory>
        requires { x < length (T.document self.now.tree) }
        ensures ok { OnOk result (out.new.items ≡ out.old.items ++ spec.named_below (T.document self.now.tree) x name.now) }
        ensures err { OnErr result (GrowsByFront out.old.items out.new.items (spec.named_below (T.document self.now.tree) x name.now)) }
    {
        self.fill_below::<Brand>(x, name, out, Blank::new(1))
    }

    /// The row, if it is an element of this name.
    fn push_named(&self, x: u32, name: &str, out: &mut Vec<u32>) -> Result<(), NoMemory>
        requires { x < length (T.document self.now.tree) }
        ensures ok { OnOk result (out.new.items ≡ out.old.items ++ (if is_named (T.document self.now.tree) (chars name.now) x then x ∷ [] else [])) }
        ensures err { OnErr result (out.new.items ≡ out.old.items) }
    {
        if is_named(&self.tree, x, name) {
            out.push(x)?;
        }
        Ok(())
    }

    /// How many elements stand after an element among its siblings.
    fn children_after(&self, x: u32) -> u32
        requires row { x < length (T.document self.now.tree) }
        requires element { is_element (T.document self.now.tree) x ≡ true }
        ensures { children_before (T.document self.now.tree) (is_element (T.document self.now.tree)) (row (T.document self.now.tree) x).parent (length (T.document self.now.tree))
            ≡ children_before (T.document self.now.tree) (is_element (T.document self.now.tree)) (row (T.document self.now.tree) x).parent x + 1 + result }
    {
        let all = self.children.below(self.tree.parent(x));
        let before = self.children.before(x);
        all - before - 1
    }

    /// How many elements of its name stand after an element among its siblings.
    fn alike_after(&self, x: u32) -> u32
        requires row { x < length (T.document self.now.tree) }
        requires element { is_element (T.document self.now.tree) x ≡ true }
        ensures { let doc = T.document self.now.tree in
            children_before doc (is_named doc (row doc x).name) (row doc x).parent (length doc)
            ≡ children_before doc (is_named doc (row doc x).name) (row doc x).parent x + 1 + result }
    {
        self.alike.after(x)
    }

    /// Whether so much is below `x` that it is looked up, and not walked.
    fn is_wide(&self, x: u32) -> bool
        requires { x < length (T.document self.now.tree) }
    {
        self.tree.end(x) - x > 64
    }

    /// How many elements of this name are below `x`.
    fn count_below(&self, x: u32, name: &str) -> u32
        requires { x < length (T.document self.now.tree) }
        ensures { result ≡ length (axis_list (T.document self.now.tree) x Axis.Descendant (NodeTest.Name (chars name.now))) }
    {
        let list = self.names.under(name);
        let end = self.tree.end(x);
        let to = number_before(list, end);
        let from = number_before(list, x + 1);
        to - from
    }

    /// How many elements of this name follow `x`: those that do not stand before its end.
    fn count_following(&self, x: u32, name: &str) -> u32
        requires { x < length (T.document self.now.tree) }
        ensures { result ≡ length (axis_list (T.document self.now.tree) x Axis.Following (NodeTest.Name (chars name.now))) }
    {
        let list = self.names.under(name);
        let end = self.tree.end(x);
        let len = self.tree.len();
        let all = number_before(list, len);
        let before = number_before(list, end);
        all - before
    }

    /// How many elements of this name precede `x`: those before it that it is not below.
    fn count_preceding(&self, x: u32, test: &NodeTest, name: &str) -> u32
        requires row { x < length (T.document self.now.tree) }
        requires named { test.now ≡ NodeTest.Name (chars name.now) }
        ensures { result ≡ length (axis_list (T.document self.now.tree) x Axis.Preceding test.now) }
    {
        let list = self.names.under(name);
        let before = number_before(list, x);
        let above = walk_count(&self.tree, x, Axis::Ancestor, test);
        before - above
    }

    /// How many rows are on the axis of `x` that have the name.
    fn count_named(&self, x: u32, axis: Axis, test: &NodeTest, name: &str) -> u32
        requires row { x < length (T.document self.now.tree) }
        requires named { test.now ≡ NodeTest.Name (chars name.now) }
        ensures { result ≡ length (axis_list (T.document self.now.tree) x axis test.now) }
    {
        match axis {
            Axis::Descendant => {
                if self.is_wide(x) {
                    return self.count_below(x, name);
                }
            }
            Axis::Following => return self.count_following(x, name),
            Axis::Preceding => return self.count_preceding(x, test, name),
            _ => {}
        }
        if is_named(&self.tree, x, name) {
            match axis {
                Axis::PrecedingSibling => return self.alike.before(x),
                Axis::FollowingSibling => return self.alike_after(x),
                _ => {}
            }
        }
        walk_count(&self.tree, x, axis, test)
    }

    /// Whether a row is on the axis of `x` that has the name.
    fn has_named(&self, x: u32, axis: Axis, test: &NodeTest, name: &str) -> bool
        requires row { x < length (T.document self.now.tree) }
        requires named { test.now ≡ NodeTest.Name (chars name.now) }
        ensures { result ≡ nat_lt 0 (length (axis_list (T.document self.now.tree) x axis test.now)) }
    {
        match axis {
            Axis::Descendant => {
                if self.is_wide(x) {
                    return self.count_below(x, name) > 0;
                }
            }
            Axis::Following => return self.count_following(x, name) > 0,
            _ => {}
        }
        if is_named(&self.tree, x, name) {
            match axis {
                Axis::PrecedingSibling | Axis::FollowingSibling => {
                    return self.count_named(x, axis, test, name) > 0;
                }
                _ => {}
            }
        }
        walk_any(&self.tree, x, axis, test)
    }
}

/// Whether the row is an element of this name.
fn is_named<T: Tree>(tree: &T, y: u32, name: &str) -> bool
    requires { y < length (T.document tree.now) }
    ensures { result ≡ is_named (T.document tree.now) (chars name.now) y }
{
    match tree.kind(y) {
        Kind::Element => tree.name(y) == name,
        _ => false,
    }
}

impl<T: Tree> Axes for Indexed<T> {
    fn axis_into(
        &self,
        x: u32,
        axis: Axis,
        test: &NodeTest,
        out: &mut Vec<u32>,
    ) -> Result<(), NoMemory> {
        if let NodeTest::Name(name) = test {
            match axis {
                Axis::Descendant => return self.below_into(x, name, out),
                Axis::DescendantOrSelf => {
                    self.push_named(x, name.as_str(), out)?;
                    return self.below_into(x, name, out);
                }
                _ => {}
            }
        }
        walk_into(&self.tree, x, axis, test, out)
    }

    fn axis_count(&self, x: u32, axis: Axis, test: &NodeTest) -> u32 {
        if let NodeTest::AnyName = test {
            if let Axis::Child = axis {
                return self.children.below(x);
            }
            if is_element(&self.tree, x) {
                match axis {
                    Axis::PrecedingSibling => return self.children.before(x),
                    Axis::FollowingSibling => return self.children_after(x),
                    _ => {}
                }
            }
        }
        if let NodeTest::Name(name) = test {
            return self.count_named(x, axis, test, name.as_str());
        }
        walk_count(&self.tree, x, axis, test)
    }

    fn axis_first(&self, x: u32, axis: Axis, test: &NodeTest) -> Option<u32> {
        walk_first(&self.tree, x, axis, test)
    }

    fn axis_any(&self, x: u32, axis: Axis, test: &NodeTest) -> bool {
        if let NodeTest::AnyName = test {
            if let Axis::Child = axis {
                return self.children.below(x) > 0;
            }
        }
        if let NodeTest::Name(name) = test {
            return self.has_named(x, axis, test, name.as_str());
        }
        walk_any(&self.tree, x, axis, test)
    }
}
