ghost use Rattle.std.specs.Prelude.{◌≡◌, ◌≤◌, ◌<◌, [], None, Some, length, min, take, drop, MatchBool, MatchOption};
ghost use Rattle.io_edges.specs.Pages.{page};
ghost use Rattle.io_edges.specs.Files.{told_of, bytes_at};

use crate::page_file::PageFile;
use text_base::Seq;

/// Files in memory, one of which may be begun.
#[derive(Drop)]
pub struct Shelf {
    files: Seq<PageFile>,
    file: usize,
    at: usize,
    ghost within: { at ≤ length (bytes_at files file) },
}

/// The place of the first file of this name.
#[tactic(auto, using(crate::proofs::FileLemmas::page_here, crate::proofs::FileLemmas::bytes_at_read))]
fn place_of(files: &[PageFile], name: &str) -> Option<usize>
    ensures { MatchOption result (page (told_of files.now) name.now ≡ None)
        (λ i. (i < length files.now) × (page (told_of files.now) name.now ≡ Some (bytes_at files.now i))) }
{
    for i in 0..files.len() {
        if files[i].name.as_str() == name {
            return Some(i);
        }
    }
    None
}

/// The bytes of the file at this place, and none past the last.
#[tactic(auto, using(crate::proofs::FileLemmas::bytes_at_past, crate::proofs::FileLemmas::bytes_at_read))]
fn bytes_of(files: &[PageFile], i: usize) -> &[u8]
    ensures { result.now ≡ bytes_at files.now i }
{
    if i < files.len() {
        files[i].bytes.as_slice()
    } else {
        &[]
    }
}

impl Shelf {
    ghost use Rattle.io_edges.specs.Shelf.{left_in};

    /// No file is begun.
    #[tactic(auto, using(crate::proofs::FileLemmas::bytes_at_past))]
    pub fn new(files: Seq<PageFile>) -> Shelf
        ensures files { result.files ≡ files }
        ensures left { left_in result ≡ [] }
    {
        let file = files.as_slice().len();
        Shelf { files, file, at: 0 }
    }

    /// Begins no file.
    #[tactic(auto, using(crate::proofs::FileLemmas::bytes_at_past))]
    pub fn close(&mut self)
        ensures files { self.new.files ≡ self.old.files }
        ensures left { left_in self.new ≡ [] }
    {
        self.at = 0;
        self.file = self.files.as_slice().len();
    }

    /// Begins the first file of this name, and says whether there is one.
    pub fn begin(&mut self, name: &str) -> bool
        ensures files { self.new.files ≡ self.old.files }
        ensures begun { MatchBool result
            (page (told_of self.old.files) name.now ≡ Some (left_in self.new))
            ((page (told_of self.old.files) name.now ≡ None) × (left_in self.new ≡ [])) }
    {
        match place_of(self.files.as_slice(), name) {
            Some(i) => {
                self.at = 0;
                self.file = i;
                true
            }
            None => {
                self.close();
                false
            }
        }
    }

    /// Reads the next bytes of the begun file, as many as these three allow.
    pub fn read(&mut self, most: usize, into: &mut [u8]) -> usize
        ensures files { self.new.files ≡ self.old.files }
        ensures count { result ≡ min (min most (length into.old)) (length (left_in self.old)) }
        ensures bytes { take result into.new ≡ take result (left_in self.old) }
        ensures left { left_in self.new ≡ drop result (left_in self.old) }
    {
        let rest = bytes_of(self.files.as_slice(), self.file)
            .split_at(self.at)
            .1;
        let n = most.min(into.len()).min(rest.len());
        into[..n].copy_from_slice(rest.split_at(n).0);
        self.at += n;
        n
    }
}
