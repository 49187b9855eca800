// Which page each frame leads to.
ghost use Rattle.std.specs.Prelude.{ℕ, ◌≡◌, ◌+◌, ◌≤◌, ◌<◌, ◌==◌, false, None, Some, if◌then◌else◌, OnOk};
ghost use Rattle.vm_resident.specs.Kept.{pages_of};
ghost use Rattle.vm_resident.specs.Owners.{leads_to};
ghost use Rattle.vm_resident.specs.Resident.{owner_among};

use crate::PageRow;
use indexmap::IndexMap;
use std::alloc::Global;
use std::marker::Model;
use vm_base::{FrameNo, NoMemory, PageKey};

/// The page of each frame, as long as no frame is given to a second page. Only `reserve` takes memory.
#[derive(Drop)]
pub struct FrameOwners {
    pages: IndexMap<FrameNo, PageKey>,
    // Whether a frame was ever given to a second page.
    shared: bool,
}

impl Model for FrameOwners {
    ghost use Rattle.indexmap.specs.IndexMap.{spare};
    ghost use Rattle.vm_resident.specs.Owners.{OwnerMap};

    ghost Value = { OwnerMap };

    ghost view = { λ s. record { pages = s.pages.entries; shared = s.shared; spare = spare s.pages } };
}

impl FrameOwners {
    /// No frame leads to a page.
    pub fn new(alloc: Global) -> FrameOwners
        ensures none { (f : ℕ) → leads_to result f ≡ None }
    {
        FrameOwners {
            pages: IndexMap::new(alloc),
            shared: false,
        }
    }

    /// Makes room for so many further frames; it fails for want of memory alone.
    pub fn reserve(&mut self, n: u32) -> Result<(), NoMemory>
        ensures pages { self.new.pages ≡ self.old.pages }
        ensures shared { self.new.shared ≡ self.old.shared }
        ensures room { OnOk result (n ≤ self.new.spare) }
        ensures kept { self.old.spare ≤ self.new.spare }
    {
        self.pages.reserve(n as usize)?;
        Ok(())
    }

    /// Whether a frame was ever given to a second page.
    pub fn are_shared(&self) -> bool
        ensures { result ≡ self.now.shared }
    {
        self.shared
    }

    /// The page that a frame leads to.
    pub fn get(&self, f: FrameNo) -> Option<PageKey>
        ensures { result ≡ leads_to self.now f.0 }
    {
        self.pages.get(&f).copied()
    }

    /// Gives a frame to a page, where there is room.
    pub fn insert(&mut self, f: FrameNo, key: PageKey)
        requires { 0 < self.old.spare }
        ensures page { (g : ℕ) → leads_to self.new g ≡ (if f.0 == g then Some key else leads_to self.old g) }
        ensures apart { self.new.shared ≡ false → leads_to self.old f.0 ≡ None }
        ensures shared { self.new.shared ≡ false → self.old.shared ≡ false }
        ensures room { self.old.spare ≤ self.new.spare + 1 }
    {
        if let Ok(Some(_)) = self.pages.insert(f, key) {
            self.shared = true;
        }
    }

    /// Takes a frame back.
    pub fn remove(&mut self, f: FrameNo)
        ensures page { (g : ℕ) → leads_to self.new g ≡ (if f.0 == g then None else leads_to self.old g) }
        ensures shared { self.new.shared ≡ self.old.shared }
        ensures room { self.old.spare ≤ self.new.spare }
    {
        let _ = self.pages.swap_remove(&f);
    }
}

/// The first page whose row has a frame.
pub fn first_owner(rows: &IndexMap<PageKey, PageRow>, f: FrameNo) -> Option<PageKey>
    ensures { result ≡ owner_among f.0 (pages_of rows.now.entries) }
{
    'all: for (key, row) in rows {
        if row.frame.0 == f.0 {
            return Some(*key);
        }
    }
    None
}
