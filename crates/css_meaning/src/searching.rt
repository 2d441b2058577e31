//! The search for the parts of a selector among the rows, from the last part to the first.
ghost use Rattle.std.specs.Prelude.{◌≡◌, ◌<◌, ◌-◌, ℕ, true, false, length, slice_index_or, List, MatchOption, Option, IfSome};
ghost use Rattle.css_selectors.specs.declared.selector.Part.{out-Part};
ghost use Rattle.css_meaning.specs.Holding.{holds};
ghost use Rattle.css_meaning.specs.inner.Searching.{IsSearch, IsOnward, Follows, is_end, is_matched};

use crate::links::{earlier_sibling, is_linked};
use css_selectors::{Dialect, Link, Part};
use doc_model::Tree;

/// How many parts from the left are still to be matched, and the row where the last of them is
/// tried.
#[derive(Clone, Copy)]
pub struct Mark {
    pub left: usize,
    pub row: u32,
}

/// What is tried now, and where to go on if it fails: to the earlier siblings of one row, and then
/// to the rows above another. Row 0 has neither.
#[derive(Clone, Copy)]
pub struct Search {
    pub at: Mark,
    pub sibling: Mark,
    pub ancestor: Mark,
}

/// The search at a row, and from there upwards.
fn upwards(left: usize, row: u32) -> Search
    ensures at { result.at ≡ record { left = left; row = row } }
    ensures sibling { result.sibling ≡ record { left = left; row = 0 } }
    ensures ancestor { result.ancestor ≡ record { left = left; row = row } }
{
    let at = Mark { left, row };
    Search {
        at,
        sibling: Mark { left, row: 0 },
        ancestor: at,
    }
}

/// The search at a sibling, and from there over the earlier ones.
fn backwards(left: usize, row: u32, ancestor: Mark) -> Search
    ensures at { result.at ≡ record { left = left; row = row } }
    ensures sibling { result.sibling ≡ record { left = left; row = row } }
    ensures ancestor { result.ancestor ≡ ancestor }
{
    let at = Mark { left, row };
    Search {
        at,
        sibling: at,
        ancestor,
    }
}

/// Where to go on when the last part of the search holds, by the combinator before it. Whatever an
/// earlier place to go on to could lead to, the nearest that the combinator names can lead to as
/// well, so that this place takes the place of the other.
fn advance<T: Tree>(tree: &T, link: Link, search: Search) -> Option<Search>
    requires left { 1 < search.at.left }
    requires row { search.at.row < length (T.document tree.now) }
    ensures { (dialect : Dialect) (from : Option ℕ) (parts : List Part) (p : Part) → IsSearch (T.document tree.now) dialect from parts search → slice_index_or parts (search.at.left - 1) p ≡ p → (out-Part p).link ≡ link → holds (T.document tree.now) dialect p search.at.row ≡ true → MatchOption result (is_matched (T.document tree.now) dialect from parts search.at.left search.at.row ≡ false) (IsOnward (T.document tree.now) dialect from parts search) }
{
    let left = search.at.left - 1;
    let row = search.at.row;
    match link {
        Link::First => None,
        Link::Next => {
            let row = earlier_sibling(tree, row)?;
            Some(Search {
                at: Mark { left, row },
                ..search
            })
        }
        Link::Later => {
            let row = earlier_sibling(tree, row)?;
            Some(backwards(left, row, search.ancestor))
        }
        Link::Child => {
            let row = tree.parent(row);
            Some(Search {
                at: Mark { left, row },
                sibling: Mark { left, row: 0 },
                ..search
            })
        }
        Link::Descendant => Some(upwards(left, tree.parent(row))),
    }
}

/// The search for all parts at a row.
pub fn start(left: usize, row: u32) -> Search
    ensures at { result.at ≡ record { left = left; row = row } }
    ensures sibling { result.sibling ≡ record { left = left; row = 0 } }
    ensures ancestor { result.ancestor ≡ record { left = left; row = 0 } }
{
    let nowhere = Mark { left, row: 0 };
    Search {
        at: Mark { left, row },
        sibling: nowhere,
        ancestor: nowhere,
    }
}

/// What follows a try: the search has found what it looks for, it has failed, or it goes on.
pub enum Outcome {
    Found,
    Failed,
    Onward(Search),
}

/// Where to go on when the search fails at its row.
fn retry<T: Tree>(tree: &T, search: Search) -> Outcome
    requires sibling { search.sibling.row < length (T.document tree.now) }
    requires ancestor { search.ancestor.row < length (T.document tree.now) }
    ensures { (dialect : Dialect) (from : Option ℕ) (parts : List Part) → IsSearch (T.document tree.now) dialect from parts search → is_matched (T.document tree.now) dialect from parts search.at.left search.at.row ≡ false → Follows (T.document tree.now) dialect from parts search result }
{
    match earlier_sibling(tree, search.sibling.row) {
        Some(row) => Outcome::Onward(backwards(search.sibling.left, row, search.ancestor)),
        None if search.ancestor.row == 0 => Outcome::Failed,
        None => Outcome::Onward(upwards(search.ancestor.left, tree.parent(search.ancestor.row))),
    }
}

/// Whether a search ends at the row: anywhere, or where the row stands to the one it starts from as
/// the first part's combinator says.
fn ends<T: Tree>(tree: &T, from: Option<u32>, link: Link, row: u32) -> bool
    requires row { row < length (T.document tree.now) }
    requires from { IfSome from (λ x. x < length (T.document tree.now)) }
    ensures { result ≡ is_end (T.document tree.now) from link row }
{
    match from {
        None => true,
        Some(x) => is_linked(tree, link, x, row),
    }
}

/// What follows when the last part that is left holds at its row, or does not: the first part of all
/// ends the search where it may end.
pub fn follow<T: Tree>(
    tree: &T,
    from: Option<u32>,
    link: Link,
    held: bool,
    search: Search,
) -> Outcome
    requires from { IfSome from (λ x. x < length (T.document tree.now)) }
    requires at { search.at.row < length (T.document tree.now) }
    requires sibling { search.sibling.row < length (T.document tree.now) }
    requires ancestor { search.ancestor.row < length (T.document tree.now) }
    ensures { (dialect : Dialect) (parts : List Part) (p : Part) → IsSearch (T.document tree.now) dialect from parts search → slice_index_or parts (search.at.left - 1) p ≡ p → (out-Part p).link ≡ link → held ≡ holds (T.document tree.now) dialect p search.at.row → Follows (T.document tree.now) dialect from parts search result }
{
    if !held {
        return retry(tree, search);
    }
    if search.at.left > 1 {
        return match advance(tree, link, search) {
            Some(onward) => Outcome::Onward(onward),
            None => retry(tree, search),
        };
    }
    if ends(tree, from, link, search.at.row) {
        Outcome::Found
    } else {
        retry(tree, search)
    }
}
