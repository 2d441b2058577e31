//! The attributes that a start tag keeps.
ghost use Rattle.std.specs.Prelude.{◌≡◌, ◌≢◌, ◌+◌, ◌<◌, [], ◌∷◌, ◌++◌, length, map, OnOk, IfOk, if◌then◌else◌};
ghost use Rattle.std.specs.BTreeSet.{contains_text};
ghost use Rattle.html_lexer.specs.Attributes.{IsAttrs};
ghost use Rattle.char_refs.specs.References.{decoded};
ghost use Rattle.html_reader.specs.inner.Pieces.{owned_bytes};
ghost use Rattle.html_reader.specs.inner.States.{attr_of};
ghost use Rattle.html_reader.specs.inner.Kept.{AreKept};
ghost use Rattle.html_reader.specs.inner.Keeping.{has_name, HaveTexts, Knows, Keeps};

use crate::contents::{lower_name, meant};
use crate::owned::Owned;
use crate::token::Attr;
use html_lexer::Attrs;
use std::alloc::Global;
use std::collections::BTreeSet;
use text_base::NoMemory;

/// How many of the last attributes are looked through one by one. The names of those before them stand in a set, so
/// that a tag of many attributes takes no more than a logarithm for each.
const LAST: usize = 16;

/// The attributes that are kept so far.
#[derive(Drop)]
struct Keeping<'p> {
    alloc: Global,
    attrs: Vec<Attr<'p>>,
    /// The names of the first of them.
    names: BTreeSet<String>,
    known: usize,
}

fn any_named(attrs: &[Attr<'_>], name: &str) -> bool
    ensures { result ≡ has_name (map attr_of attrs.now) name.now }
{
    for attr in attrs {
        if attr.name.as_str() == name {
            return true;
        }
    }
    false
}

impl<'p> Keeping<'p> {
    fn new(alloc: Global) -> Keeping<'p>
        ensures none { result.attrs.items ≡ [] }
        ensures knows { Knows (contains_text result.names) result.attrs.items result.known }
    {
        Keeping {
            alloc,
            attrs: Vec::new(alloc),
            names: BTreeSet::new(alloc),
            known: 0,
        }
    }

    /// Tells whether one of the attributes has the name.
    fn is_taken(&self, name: &str) -> bool
        requires knows { Knows (contains_text self.now.names) self.now.attrs.items self.now.known }
        ensures { result ≡ has_name (map attr_of self.now.attrs.items) name.now }
    {
        if self.names.contains(name) {
            return true;
        }
        any_named(&self.attrs[self.known..], name)
    }

    /// Adds the name of the next attribute to the set.
    fn learn(&mut self) -> Result<(), NoMemory>
        requires knows { Knows (contains_text self.old.names) self.old.attrs.items self.old.known }
        requires more { self.old.known < length self.old.attrs.items }
        ensures same { self.new.attrs ≡ self.old.attrs }
        ensures knows { OnOk result (Knows (contains_text self.new.names) self.new.attrs.items self.new.known) }
    {
        let next = &self.attrs[self.known];
        let name = String::from_str(self.alloc, next.name.as_str())?;
        self.names.insert(name)?;
        self.known += 1;
        Ok(())
    }

    /// Adds an attribute at the end.
    fn push(&mut self, attr: Attr<'p>) -> Result<(), NoMemory>
        requires knows { Knows (contains_text self.old.names) self.old.attrs.items self.old.known }
        ensures pushed { OnOk result (self.new.attrs.items ≡ self.old.attrs.items ++ attr.entry ∷ []) }
        ensures knows { OnOk result (Knows (contains_text self.new.names) self.new.attrs.items self.new.known) }
    {
        self.attrs.push(attr)?;
        if self.attrs.len() - self.known > LAST {
            self.learn()?;
        }
        Ok(())
    }

    /// Keeps an attribute, unless one of its name is kept already. References in its value are decoded.
    fn add(&mut self, name: Owned<'p>, value: &'p str) -> Result<(), NoMemory>
        requires knows { Knows (contains_text self.old.names) self.old.attrs.items self.old.known }
        requires texts { HaveTexts (map attr_of self.old.attrs.items) }
        ensures added { OnOk result (map attr_of self.new.attrs.items ≡ (if has_name (map attr_of self.old.attrs.items) (owned_bytes name.entry) then map attr_of self.old.attrs.items
            else map attr_of self.old.attrs.items ++ record { name = owned_bytes name.entry; value = decoded value.now } ∷ [])) }
        ensures texts { OnOk result (HaveTexts (map attr_of self.new.attrs.items)) }
        ensures knows { OnOk result (Knows (contains_text self.new.names) self.new.attrs.items self.new.known) }
    {
        if self.is_taken(name.as_str()) {
            return Ok(());
        }
        let value = meant(self.alloc, value, true)?;
        self.push(Attr { name, value })
    }
}

/// The attributes that a start tag keeps, of what stands between its name and its end.
pub fn keep_attrs<'p>(alloc: Global, raw: &'p str) -> Result<Vec<Attr<'p>>, NoMemory>
    requires { IsAttrs raw.now }
    ensures keeps { IfOk result (λ attrs. Keeps raw.now (map attr_of attrs.items)) }
    ensures kept { IfOk result (λ attrs. AreKept (map attr_of attrs.items)) }
{
    let mut list = Attrs::new(raw);
    let mut keeping = Keeping::new(alloc);
    while let Some((name, value)) = list.next() {
        let lower = lower_name(alloc, name)?;
        keeping.add(lower, value)?;
    }
    let Keeping { attrs, .. } = keeping;
    Ok(attrs)
}
