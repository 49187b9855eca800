// The pages whose last write failed.
ghost use Rattle.std.specs.Prelude.{◌≡◌, ◌<◌, [], true, false, OnOk};
ghost use Rattle.pg_file.specs.Files.{is_among};
ghost use Rattle.pg_file.specs.Finding.{Marks};

use std::alloc::Global;
use std::marker::Model;
use vm_base::{NoMemory, PageNo};

/// A set of pages. Only `reserve` takes memory.
#[derive(Drop)]
pub struct Lost {
    pages: Vec<PageNo>,
}

impl Model for Lost {
    ghost use Rattle.std.specs.Prelude.{◌-◌, length, vec_capacity};
    ghost use Rattle.pg_file.specs.Finding.{LostPages};

    ghost Value = { LostPages };

    ghost view = { λ s. record { pages = s.pages.items; spare = vec_capacity s.pages - length s.pages.items } };
}

impl Lost {
    /// No page.
    pub fn new(alloc: Global) -> Lost
        ensures { result ≡ record { pages = []; spare = 0 } }
    {
        Lost {
            pages: Vec::new(alloc),
        }
    }

    /// Makes room for a further page.
    pub fn reserve(&mut self) -> Result<(), NoMemory>
        ensures pages { self.new.pages ≡ self.old.pages }
        ensures room { OnOk result (0 < self.new.spare) }
    {
        self.pages.reserve(1)?;
        Ok(())
    }

    /// Whether the page is one of them.
    pub fn has(&self, page: PageNo) -> bool
        ensures { result ≡ is_among page.0 self.now.pages }
    {
        self.pages.iter().any(|lost| lost.0 == page.0)
    }

    /// Puts a page in, if it isn't there.
    pub fn put(&mut self, page: PageNo)
        requires { 0 < self.old.spare }
        ensures { Marks page.0 true self.old.pages self.new.pages }
    {
        if !self.has(page) {
            let _ = self.pages.push(page);
        }
    }

    /// Takes a page out.
    pub fn remove(&mut self, page: PageNo)
        ensures { Marks page.0 false self.old.pages self.new.pages }
    {
        self.pages.retain(|lost| lost.0 != page.0);
    }
}
