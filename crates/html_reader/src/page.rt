//! Reads a page.
ghost use Rattle.std.specs.Prelude.{◌≡◌, ◌≤◌, [], ◌⊎◌, length, codes, IfOk, IfErr};
ghost use Rattle.text_base.specs.Limits.{most_page};
ghost use Rattle.doc_model.specs.Growing.{fresh};
ghost use Rattle.std.specs.Str.{str_eq_ignore_ascii_case};
ghost use Rattle.html_reader.specs.inner.Taking.{LeadsTo, size};
ghost use Rattle.html_reader.specs.inner.Pieces.{owned_bytes};
ghost use Rattle.html_reader.specs.inner.States.{the_state};
ghost use Rattle.html_reader.specs.Pages.{BuildsPage, IsMemory, IsPageFault, IsMade};

use crate::meaning::{is_start, token_of};
use crate::reader::Reader;
use doc_model::Grow;
use html_lexer::Lexer;
use std::alloc::Global;
use text_base::{PageFault, PageReason};

fn no_memory() -> PageFault
    ensures { IsMemory result }
{
    PageFault {
        reason: PageReason::Memory,
        at: 0,
    }
}

/// Whether it is the name of the root element, in any case of its letters.
fn is_html(name: &str) -> bool
    ensures { result ≡ str_eq_ignore_ascii_case name.now (codes "html") }
{
    name.eq_ignore_ascii_case("html")
}

/// Whether a page gets a root: its first start tag, if there is one, is not `html`.
fn gets_root(text: &str) -> bool
    ensures { IsMade text.now result }
{
    let mut lexer = Lexer::new(text);
    loop {
        match lexer.next() {
            Ok(Some(token)) => {
                if is_start(token) {
                    return !is_html(token.name_after());
                }
            }
            Ok(None) => return true,
            Err(_) => return true,
        }
    }
}

/// The tree that the reader makes of the page, or why the page is refused.
fn read_tokens<'p, G: Grow<'p> + Drop>(
    alloc: Global,
    text: &'p str,
    mut reader: Reader<'p, G>,
) -> Result<G::Done, PageFault>
    requires short { length text.now ≤ most_page }
    requires made { IsMade text.now reader.rooted.made }
    requires led { LeadsTo [] (the_state reader.tags.items reader.rooted (G.growing reader.grow) (owned_bytes reader.waits)) }
    requires size { size (the_state reader.tags.items reader.rooted (G.growing reader.grow) (owned_bytes reader.waits)) ≤ 2 }
    ensures ok { IfOk result (λ done. BuildsPage text.now (G.Done.document done)) }
    ensures fault { IfErr result (λ fault. IsMemory fault ⊎ IsPageFault text.now fault.reason fault.at) }
{
    let mut lexer = Lexer::new(text);
    let mut before = "";
    loop {
        match lexer.next() {
            Ok(Some(token)) => {
                match token_of(alloc, token, before) {
                    Ok(taken) => {
                        match reader.take(taken) {
                            Ok(()) => {}
                            Err(fault) => return Err(fault),
                        }
                    }
                    Err(_) => return Err(no_memory()),
                }
                before = token.name_after();
            }
            Ok(None) => return reader.finish(text.len()),
            Err(fault) => return Err(fault),
        }
    }
}

/// The tree of a page of `PAGE_LIMIT` bytes at most, or why the page is refused, and at which byte the token begins that
/// is refused. Want of memory has the place 0.
pub fn read_html<'p, G: Grow<'p> + Drop>(
    alloc: Global,
    text: &'p str,
    grow: G,
) -> Result<G::Done, PageFault>
    requires fresh { G.growing grow ≡ fresh }
    requires short { length text.now ≤ most_page }
    ensures ok { IfOk result (λ done. BuildsPage text.now (G.Done.document done)) }
    ensures fault { IfErr result (λ fault. IsMemory fault ⊎ IsPageFault text.now fault.reason fault.at) }
{
    match Reader::new(alloc, grow, gets_root(text)) {
        Ok(reader) => read_tokens(alloc, text, reader),
        Err(_) => Err(no_memory()),
    }
}
