// What is kept of one copy object.
ghost use Rattle.std.specs.Prelude.{ℕ, ◌≡◌, ◌<◌, ◌≤◌, ◌==◌, false, true, replicate, slice_index_or, slice_set, if◌then◌else◌};
ghost use Rattle.vm_base.specs.Limits.{most_pages};

use std::marker::Model;
use vm_base::{ObjectId, PageNo};

// Words of 64 bits, for as many pages as an object can have.
const WORDS: usize = 64;

/// A copy object: whose copy it is, of how many pages, and which of them it has had of its own.
#[derive(Drop)]
pub struct CopyObject {
    source: ObjectId,
    pages: u32,
    // A bit for each page that it has had.
    words: [u64; WORDS],
}

impl Model for CopyObject {
    ghost use Rattle.std.specs.Prelude.{◌*◌, ◌≤◌, length};
    ghost use Rattle.vm_copies.specs.Copies.{CopyRow};
    ghost use Rattle.vm_copies.specs.Pages.{pages_in};

    ghost Value = { CopyRow };

    ghost view = { λ s. record { source = s.source; pages = s.pages; had = pages_in s.pages s.words } };

    ghost invariant = { λ s. s.pages ≤ 64 * length s.words };
}

impl CopyObject {
    /// A copy object that has had no page yet. It takes no memory.
    pub fn new(source: ObjectId, pages: u32) -> CopyObject
        requires { pages ≤ most_pages }
        ensures { result ≡ record { source = source; pages = pages; had = replicate pages false } }
    {
        CopyObject {
            source,
            pages,
            words: [0u64; WORDS],
        }
    }

    /// Whose copy it is.
    pub fn source(&self) -> ObjectId
        ensures { result ≡ self.now.source }
    {
        self.source
    }

    /// Whether it has had a page.
    pub fn had(&self, page: PageNo) -> bool
        ensures had { result ≡ slice_index_or self.now.had page.0 false }
        ensures past { self.now.pages ≤ page.0 → result ≡ false }
    {
        if page.0 >= self.pages {
            return false;
        }
        (self.words[page.0 as usize / 64] >> (page.0 % 64)) & 1 == 1
    }

    /// Notes that it has had a page.
    pub fn note(&mut self, page: PageNo)
        requires { page.0 < self.old.pages }
        ensures row { self.new ≡ record self.old { had = slice_set self.old.had page.0 true } }
        ensures had { (p : ℕ) → slice_index_or self.new.had p false
            ≡ (if page.0 == p then true else slice_index_or self.old.had p false) }
    {
        self.words[page.0 as usize / 64] |= 1 << (page.0 % 64);
    }
}
