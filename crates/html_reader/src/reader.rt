//! Reads tokens into a tree.
ghost use Rattle.std.specs.Prelude.{◌≡◌, ◌+◌, ◌<◌, ◌≤◌, ◌^◌, ◌++◌, List, [], ◌∷◌, length, map, OnOk, IfOk, IfErr, ◌&&◌, ◌==◌, not};
ghost use Rattle.std.specs.Prelude.{string_bytes, true};
ghost use Rattle.std.specs.Vec.{vec_len};
ghost use Rattle.html_reader.specs.Rows.{row_of_attribute, row_of_element};
ghost use Rattle.html_reader.specs.Places.{below, base, most_open, all_rows};
ghost use Rattle.doc_model.specs.Growing.{innermost};
ghost use Rattle.html_reader.specs.inner.Machine.{state, settled, held, opened, closed, shuts, is_empty, is_innermost, after_leaf};
ghost use Rattle.html_reader.specs.inner.Reached.{IsReached};
ghost use Rattle.html_reader.specs.inner.Taking.{LeadsTo, IsLed, Takes, AllBuild, EndRefused, size};
ghost use Rattle.doc_model.specs.Growing.{fresh as root_alone};
ghost use Rattle.html_reader.specs.inner.Kept.{AreKept, EndsInElement};
ghost use Rattle.html_reader.specs.inner.Pieces.{owned_bytes};
ghost use Rattle.doc_model.specs.Growing.{growing};
ghost use Rattle.html_reader.specs.inner.States.{the_state, tags_onto, grown_of, attr_of, tag_of, tok_of, next_of, most_rows, Steps, IsSound, HasKeptAttributes};
ghost use Rattle.text_base.specs.Text.{is_space5};
ghost use Rattle.std.specs.List.{list_all};
ghost use Rattle.html_reader.specs.Words.{is_shut};
ghost use Rattle.html_reader.specs.Tokens.{starts, comment, text};

use crate::endings::tag_ends;
use crate::owned::Owned;
use crate::token::{Attr, StartTag, Token};
use doc_model::{Grow, Piece};
use std::alloc::Global;
use text_base::{NoMemory, PageFault, PageReason, is_white};

/// What is known of the root element of a page.
#[derive(Clone, Copy, Debug, PartialEq, Eq)]
pub struct Root {
    /// It is made: no start tag `html` is the first one of the page.
    pub made: bool,
    /// There is something for it: a start tag, or for a made root a text that is not white space.
    pub some: bool,
}

/// Reads tokens into a tree.
#[derive(Drop)]
pub struct Reader<'p, G> {
    alloc: Global,
    tags: Vec<StartTag<'p>>,
    rooted: Root,
    grow: G,
    waits: Owned<'p>,
}

/// How many elements may be open, a made root counted.
const MOST_ELEMENTS: usize = 513;

/// How many start tags may be open: a made root is one of the elements.
fn most_open(made: bool) -> usize
    ensures { result ≡ most_open made }
{
    if made {
        MOST_ELEMENTS - 1
    } else {
        MOST_ELEMENTS
    }
}

/// Begins a document, with its root where it is made.
fn begin<'p, G: Grow<'p>>(grow: &mut G, made: bool) -> Result<(), NoMemory>
    requires { G.growing grow.old ≡ root_alone }
    ensures { OnOk result (grown_of (G.growing grow.new) [] ≡ base made) }
{
    if !made {
        return Ok(());
    }
    grow.element(Piece::Page("html"))
}

/// Gives the element that was just begun its attributes.
fn push_attrs<'p, G: Grow<'p>>(grow: &mut G, attrs: &[Attr<'p>]) -> Result<(), NoMemory>
    requires element { EndsInElement (G.growing grow.old) }
    requires kept { AreKept (map attr_of attrs.now) }
    requires room { length (G.growing grow.old).rows + length attrs.now < 2 ^ 32 }
    ensures { OnOk result (G.growing grow.new ≡ growing
        ((G.growing grow.old).rows ++ map (row_of_attribute (innermost (G.growing grow.old).open_rows)) (map attr_of attrs.now))
        (G.growing grow.old).open_rows) }
{
    for attr in attrs {
        grow.attr(attr.name.piece(), attr.value.piece())?;
    }
    Ok(())
}

fn is_blank(text: &str) -> bool
    ensures { result ≡ list_all is_space5 text.now }
{
    text.as_bytes().iter().all(|b| is_white(*b))
}

fn fault(reason: PageReason, at: usize) -> PageFault
    ensures reason { result.reason ≡ reason }
    ensures at { result.at ≡ at }
{
    PageFault { reason, at }
}

impl<'p, G: Grow<'p> + Drop> Reader<'p, G> {
    /// Tells whether no element is open, a made root counted.
    #[tactic(auto, using(crate::proofs::TestLemmas::none))]
    fn is_outermost(&self) -> bool
        ensures { result ≡ (not self.now.rooted.made && is_empty (tags_onto [] self.now.tags.items)) }
    {
        !self.rooted.made && self.tags.len() == 0
    }

    /// Gives the text that waits its row.
    fn flush(&mut self) -> Result<(), NoMemory>
        requires sound { IsSound (the_state self.old.tags.items self.old.rooted (G.growing self.old.grow) (owned_bytes self.old.waits)) }
        requires room { length (G.growing self.old.grow).rows + 1 < 2 ^ 32 }
        ensures grown { OnOk result (grown_of (G.growing self.new.grow) (owned_bytes self.new.waits) ≡ settled (grown_of (G.growing self.old.grow) (owned_bytes self.old.waits))) }
        ensures tags { self.new.tags ≡ self.old.tags }
        ensures rooted { self.new.rooted ≡ self.old.rooted }
    {
        if self.is_outermost() {
            self.waits = Owned::Page("");
            return Ok(());
        }
        if self.waits.as_str().is_empty() {
            return Ok(());
        }
        self.grow.text(self.waits.piece())?;
        self.waits = Owned::Page("");
        Ok(())
    }

    /// Begins an element.
    fn start(&mut self, tag: StartTag<'p>) -> Result<(), NoMemory>
        requires sound { IsSound (the_state self.old.tags.items self.old.rooted (G.growing self.old.grow) (owned_bytes self.old.waits)) }
        requires kept { HasKeptAttributes (starts (tag_of tag)) }
        requires room { length (G.growing self.old.grow).rows + 2 + length tag.attrs.items < 2 ^ 32 }
        ensures { OnOk result (the_state self.new.tags.items self.new.rooted (G.growing self.new.grow) (owned_bytes self.new.waits)
            ≡ opened (the_state self.old.tags.items self.old.rooted (G.growing self.old.grow) (owned_bytes self.old.waits)) (tag_of tag.entry)) }
    {
        self.flush()?;
        self.grow.element(tag.name.piece())?;
        push_attrs(&mut self.grow, tag.attrs.as_slice())?;
        self.tags.push(tag)?;
        self.rooted.some = true;
        Ok(())
    }

    /// Ends the innermost element.
    fn end(&mut self) -> Result<(), NoMemory>
        requires sound { IsSound (the_state self.old.tags.items self.old.rooted (G.growing self.old.grow) (owned_bytes self.old.waits)) }
        requires some { 0 < vec_len self.old.tags }
        requires room { length (G.growing self.old.grow).rows + 1 < 2 ^ 32 }
        ensures { OnOk result (the_state self.new.tags.items self.new.rooted (G.growing self.new.grow) (owned_bytes self.new.waits)
            ≡ closed (the_state self.old.tags.items self.old.rooted (G.growing self.old.grow) (owned_bytes self.old.waits))) }
    {
        self.flush()?;
        self.grow.close();
        let _last = self.tags.pop();
        Ok(())
    }

    /// Closes a made root, where no other element is open.
    fn close_root(&mut self) -> Result<(), NoMemory>
        requires sound { IsSound (the_state self.old.tags.items self.old.rooted (G.growing self.old.grow) (owned_bytes self.old.waits)) }
        requires none { is_empty (tags_onto [] self.old.tags.items) ≡ true }
        requires room { length (G.growing self.old.grow).rows + 1 < 2 ^ 32 }
        ensures open { OnOk result ((G.growing self.new.grow).open_rows ≡ []) }
        ensures rows { OnOk result ((G.growing self.new.grow).rows ≡ all_rows (grown_of (G.growing self.old.grow) (owned_bytes self.old.waits))) }
    {
        if !self.rooted.made {
            return Ok(());
        }
        self.flush()?;
        self.grow.close();
        Ok(())
    }

    /// Adds a comment.
    fn comment(&mut self, content: &'p str) -> Result<(), NoMemory>
        requires sound { IsSound (the_state self.old.tags.items self.old.rooted (G.growing self.old.grow) (owned_bytes self.old.waits)) }
        requires room { length (G.growing self.old.grow).rows + 2 < 2 ^ 32 }
        ensures { OnOk result (the_state self.new.tags.items self.new.rooted (G.growing self.new.grow) (owned_bytes self.new.waits) ≡ held (the_state self.old.tags.items self.old.rooted (G.growing self.old.grow) (owned_bytes self.old.waits)) (comment content.now)) }
    {
        self.flush()?;
        self.grow.comment(Piece::Page(content))?;
        Ok(())
    }

    /// Lets a text wait after those that wait already.
    fn wait(&mut self, content: Owned<'p>) -> Result<(), NoMemory>
        ensures waits { OnOk result (owned_bytes self.new.waits ≡ owned_bytes self.old.waits ++ owned_bytes content.entry) }
        ensures tags { self.new.tags ≡ self.old.tags }
        ensures rooted { OnOk result (self.new.rooted ≡ after_leaf self.old.rooted (text (owned_bytes content.entry))) }
        ensures grow { self.new.grow ≡ self.old.grow }
    {
        if self.rooted.made && !is_blank(content.as_str()) {
            self.rooted.some = true;
        }
        if self.waits.as_str().is_empty() {
            self.waits = content;
            return Ok(());
        }
        self.waits.push(self.alloc, content.as_str())?;
        Ok(())
    }

    #[tactic(auto, using(crate::proofs::TestLemmas::none))]
    fn has_none(&self) -> bool
        ensures { result ≡ is_empty (tags_onto [] self.now.tags.items) }
    {
        self.tags.len() == 0
    }

    /// Tells whether a start tag is a second root.
    fn is_second(&self) -> bool
        ensures { result ≡ (not self.now.rooted.made && (is_empty (tags_onto [] self.now.tags.items) && self.now.rooted.some)) }
    {
        !self.rooted.made && self.has_none() && self.rooted.some
    }

    #[tactic(auto, using(crate::proofs::TestLemmas::deep))]
    fn is_deep(&self) -> bool
        ensures { result ≡ (length (tags_onto [] self.now.tags.items) == most_open self.now.rooted.made) }
    {
        self.tags.len() == most_open(self.rooted.made)
    }

    /// Tells whether a text may not stand here.
    fn is_outside(&self, content: &str) -> bool
        ensures { result ≡ (not self.now.rooted.made && (is_empty (tags_onto [] self.now.tags.items) && not (list_all is_space5 content.now))) }
    {
        !self.rooted.made && self.has_none() && !is_blank(content)
    }

    /// Tells whether the innermost open element has the name.
    fn is_innermost(&self, name: &str) -> bool
        ensures { result ≡ is_innermost (tags_onto [] self.now.tags.items) name.now }
    {
        match self.tags.last() {
            None => false,
            Some(tag) => tag.name.as_str() == name,
        }
    }

    /// Tells whether the next token, or the end, inserts an end.
    fn is_shut(&self, next: Option<&Token<'p>>) -> bool
        ensures { result ≡ is_shut (tags_onto [] self.now.tags.items) (next_of next.entry) }
    {
        match self.tags.last() {
            None => false,
            Some(tag) => tag_ends(self.tags.as_slice(), tag, next),
        }
    }

    /// Inserts the ends that the next token, or the end of the text, asks for.
    fn shut_ends(&mut self, next: Option<&Token<'p>>) -> Result<(), NoMemory>
        requires reached { IsReached (next_of next) (the_state self.old.tags.items self.old.rooted (G.growing self.old.grow) (owned_bytes self.old.waits)) }
        requires room { length (G.growing self.old.grow).rows + length (tags_onto [] self.old.tags.items) + 1 < 2 ^ 32 }
        ensures { OnOk result (the_state self.new.tags.items self.new.rooted (G.growing self.new.grow) (owned_bytes self.new.waits)
            ≡ shuts (next_of next.entry) (the_state self.old.tags.items self.old.rooted (G.growing self.old.grow) (owned_bytes self.old.waits))) }
    {
        while self.is_shut(next) {
            self.end()?;
        }
        Ok(())
    }

    /// Takes a token, where no end is to be inserted.
    #[tactic(auto, using(crate::proofs::TestLemmas::some_named))]
    fn step(&mut self, token: Token<'p>) -> Result<(), PageFault>
        requires sound { IsSound (the_state self.old.tags.items self.old.rooted (G.growing self.old.grow) (owned_bytes self.old.waits)) }
        requires kept { HasKeptAttributes (tok_of token) }
        requires room { length (G.growing self.old.grow).rows + most_rows (tok_of token) < 2 ^ 32 }
        ensures { Steps (the_state self.old.tags.items self.old.rooted (G.growing self.old.grow) (owned_bytes self.old.waits)) token.entry result
            (the_state self.new.tags.items self.new.rooted (G.growing self.new.grow) (owned_bytes self.new.waits)) }
    {
        match token {
            Token::Start { from, tag } => {
                if self.is_second() {
                    return Err(fault(PageReason::SecondRoot, from));
                }
                if self.is_deep() {
                    return Err(fault(PageReason::Deep, from));
                }
                if self.start(tag).is_err() {
                    return Err(fault(PageReason::Memory, 0));
                }
                Ok(())
            }
            Token::End { from, name } => {
                if !self.is_innermost(name.as_str()) {
                    return Err(fault(PageReason::StrayEnd, from));
                }
                if self.end().is_err() {
                    return Err(fault(PageReason::Memory, 0));
                }
                Ok(())
            }
            Token::Text { from, content } => {
                if self.is_outside(content.as_str()) {
                    return Err(fault(PageReason::TextOutside, from));
                }
                if self.wait(content).is_err() {
                    return Err(fault(PageReason::Memory, 0));
                }
                Ok(())
            }
            Token::Comment { from: _, content } => {
                if self.comment(content).is_err() {
                    return Err(fault(PageReason::Memory, 0));
                }
                Ok(())
            }
            Token::Doctype { from: _ } => Ok(()),
        }
    }

    /// Before the first token.
    pub fn new(alloc: Global, mut grow: G, made: bool) -> Result<Reader<'p, G>, NoMemory>
        requires { G.growing grow ≡ root_alone }
        ensures made { IfOk result (λ r. r.rooted.made ≡ made) }
        ensures led { IfOk result (λ r. LeadsTo [] (the_state r.tags.items r.rooted (G.growing r.grow) (owned_bytes r.waits))) }
        ensures size { IfOk result (λ r. size (the_state r.tags.items r.rooted (G.growing r.grow) (owned_bytes r.waits)) ≤ 2) }
    {
        begin(&mut grow, made)?;
        Ok(Reader {
            alloc,
            tags: Vec::new(alloc),
            rooted: Root { made, some: false },
            grow,
            waits: Owned::Page(""),
        })
    }

    /// Reads the next token.
    pub fn take(&mut self, token: Token<'p>) -> Result<(), PageFault>
        requires led { IsLed (the_state self.old.tags.items self.old.rooted (G.growing self.old.grow) (owned_bytes self.old.waits)) }
        requires kept { HasKeptAttributes (tok_of token) }
        requires room { size (the_state self.old.tags.items self.old.rooted (G.growing self.old.grow) (owned_bytes self.old.waits)) + most_rows (tok_of token) + 1 < 2 ^ 32 }
        ensures { Takes (the_state self.old.tags.items self.old.rooted (G.growing self.old.grow) (owned_bytes self.old.waits)) token.entry result (the_state self.new.tags.items self.new.rooted (G.growing self.new.grow) (owned_bytes self.new.waits)) }
    {
        if self.shut_ends(Some(&token)).is_err() {
            return Err(fault(PageReason::Memory, 0));
        }
        self.step(token)
    }

    /// Reads the end of the text, which is its place.
    pub fn finish(mut self, end: usize) -> Result<G::Done, PageFault>
        requires led { IsLed (the_state self.tags.items self.rooted (G.growing self.grow) (owned_bytes self.waits)) }
        requires room { size (the_state self.tags.items self.rooted (G.growing self.grow) (owned_bytes self.waits)) + 1 < 2 ^ 32 }
        ensures ok { IfOk result (λ done. AllBuild (the_state self.entry.tags.items self.entry.rooted (G.growing self.entry.grow) (owned_bytes self.entry.waits)) (G.Done.document done)) }
        ensures err { IfErr result (λ fault. EndRefused (the_state self.entry.tags.items self.entry.rooted (G.growing self.entry.grow) (owned_bytes self.entry.waits)) end fault) }
    {
        if self.shut_ends(None).is_err() {
            return Err(fault(PageReason::Memory, 0));
        }
        if !self.has_none() {
            return Err(fault(PageReason::Unclosed, end));
        }
        if !self.rooted.some {
            return Err(fault(PageReason::NoRoot, end));
        }
        if self.close_root().is_err() {
            return Err(fault(PageReason::Memory, 0));
        }
        let Reader { grow, .. } = self;
        match grow.finish() {
            Ok(done) => Ok(done),
            Err(_) => Err(fault(PageReason::Memory, 0)),
        }
    }
}
