// The table of resident pages.
ghost use Rattle.indexmap.specs.IndexMap.{get_by};
ghost use Rattle.std.specs.Prelude.{ℕ, ◌≡◌, ◌+◌, ◌≤◌, ◌<◌, ◌==◌, ◌&&◌, [], true, Some, None, IfSome, IsOk, IsSomeAnd, MatchOption, OnErr, OnOk, min};
ghost use Rattle.vm_sets.specs.Groups.{PutsMark, is_in, is_marked};
ghost use Rattle.vm_resident.specs.Resident.{IsNextNoted, IsNextPage, IsOwned, NoRowHas, NoRowsFrom, NoneNotedFrom, PutsOwner, PutsRow, owner_of, row_at};

use crate::PageRow;
use crate::frame_owners::{FrameOwners, first_owner};
use indexmap::IndexMap;
use std::alloc::Global;
use std::marker::Model;
use vm_base::{FrameNo, NoMemory, ObjectId, PageKey, PageNo};
use vm_sets::PageGroups;

/// The resident pages of a host: a row for each, under the page of the object that it is.
///
/// Contracts see the rows, by their pages and by their frames, and how many more there is room for.
/// Where each row has a frame of its own, which the inserts have to see to, the frame leads back to
/// its page. Only `reserve` takes memory.
#[derive(Drop)]
pub struct Resident {
    rows: IndexMap<PageKey, PageRow>,
    // The pages that have a row, marked where anything is noted of them.
    pages: PageGroups,
    // The page of each frame.
    owners: FrameOwners,
    // So many further rows have been promised room.
    promised: u32,
}

impl Model for Resident {
    ghost use Rattle.indexmap.specs.IndexMap.{spare};
    ghost use Rattle.vm_resident.specs.Kept.{IsKept, pages_of};
    ghost use Rattle.vm_resident.specs.Resident.{ResidentTable};

    ghost Value = { ResidentTable };

    ghost view = { λ s. record { rows = pages_of s.rows.entries; spare = s.promised } };

    ghost invariant = { λ s. IsKept s.rows.entries (spare s.rows) s.pages s.owners s.promised };
}

impl Resident {
    /// No page is resident.
    pub fn new(alloc: Global) -> Resident
        ensures value { result ≡ record { rows = []; spare = 0 } }
        ensures rows { (object page : ℕ) → row_at result object page ≡ None }
        ensures frames { (f : ℕ) → owner_of result f ≡ None }
        ensures owned { IsOwned result }
    {
        Resident {
            rows: IndexMap::new(alloc),
            pages: PageGroups::new(alloc),
            owners: FrameOwners::new(alloc),
            promised: 0,
        }
    }

    /// Makes room for so many further inserts; it fails for want of memory alone.
    pub fn reserve(&mut self, n: u32) -> Result<(), NoMemory>
        ensures rows { self.new.rows ≡ self.old.rows }
        ensures room { OnOk result (n ≤ self.new.spare) }
        ensures kept { self.old.spare ≤ self.new.spare }
        ensures succeeds { n ≤ self.old.spare → IsOk result }
        ensures err { OnErr result (self.new ≡ self.old) }
    {
        if n <= self.promised {
            return Ok(());
        }
        self.rows.reserve(n as usize)?;
        self.pages.reserve(n)?;
        self.owners.reserve(n)?;
        self.promised = n;
        Ok(())
    }

    /// For how many further inserts there is room.
    pub fn promised(&self) -> u32
        ensures { result ≡ self.now.spare }
    {
        self.promised
    }

    /// Promises room for so many further inserts at most.
    pub fn keep(&mut self, n: u32)
        ensures { self.new ≡ record self.old { spare = min n self.old.spare } }
    {
        self.promised = self.promised.min(n);
    }

    /// Puts in the row of a page that has none, where there is room.
    pub fn insert(&mut self, key: PageKey, row: PageRow)
        requires absent { row_at self.old key.object.0 key.page.0 ≡ None }
        requires room { 0 < self.old.spare }
        ensures rows { PutsRow key.object.0 key.page.0 (Some row) self.old self.new }
        ensures room { self.old.spare ≡ self.new.spare + 1 }
        ensures frames { owner_of self.old row.frame.0 ≡ None → PutsOwner row.frame.0 (Some key) self.old self.new }
        ensures owned { IsOwned self.old → owner_of self.old row.frame.0 ≡ None → IsOwned self.new }
    {
        let _ = self.rows.insert(key, row);
        self.pages.insert(key, row.is_noted());
        self.owners.insert(row.frame, key);
        self.promised -= 1;
    }

    /// The row of a page; None exactly where the page isn't resident.
    pub fn get(&self, key: PageKey) -> Option<PageRow>
        ensures { result ≡ row_at self.now key.object.0 key.page.0 }
    {
        self.rows.get(&key).copied()
    }

    /// Changes the row of a page, which keeps its frame.
    pub fn set(&mut self, key: PageKey, row: PageRow)
        requires { IsSomeAnd (row_at self.old key.object.0 key.page.0) (λ was. was.frame.0 ≡ row.frame.0) }
        ensures rows { PutsRow key.object.0 key.page.0 (Some row) self.old self.new }
        ensures room { self.new.spare ≡ self.old.spare }
        ensures frames { (f : ℕ) → owner_of self.new f ≡ owner_of self.old f }
        ensures owned { IsOwned self.old → IsOwned self.new }
    {
        let kept = self.rows.get_mut(&key).unwrap();
        let was_noted = kept.is_noted();
        *kept = row;
        mark(&mut self.pages, key, was_noted, row.is_noted());
    }

    /// Takes out the row of a page; None exactly where the page wasn't resident.
    pub fn remove(&mut self, key: PageKey) -> Option<PageRow>
        ensures value { result ≡ row_at self.old key.object.0 key.page.0 }
        ensures rows { PutsRow key.object.0 key.page.0 None self.old self.new }
        ensures room { self.old.spare ≤ self.new.spare }
        ensures frames { IsOwned self.old → IfSome result (λ row. PutsOwner row.frame.0 None self.old self.new) }
        ensures owned { IsOwned self.old → IsOwned self.new }
        ensures none { result ≡ None → self.new ≡ self.old }
    {
        let row = self.rows.swap_remove(&key)?;
        self.pages.remove(key);
        self.owners.remove(row.frame);
        Some(row)
    }

    /// The first resident page of an object from a page on, which is itself looked at.
    pub fn next_page(&self, object: ObjectId, from: PageNo) -> Option<PageNo>
        ensures { MatchOption result (NoRowsFrom self.now object.0 from.0)
            (λ page. IsNextPage self.now object.0 from.0 page.0) }
    {
        self.pages.next(object, from)
    }

    /// The first page of an object from a page on of which anything is noted: that it is dirty or
    /// precious, or that its manager is asked to lift the lock.
    pub fn next_noted(&self, object: ObjectId, from: PageNo) -> Option<PageNo>
        ensures { MatchOption result (NoneNotedFrom self.now object.0 from.0)
            (λ page. IsNextNoted self.now object.0 from.0 page.0) }
    {
        self.pages.next_marked(object, from)
    }

    /// The page whose row has a frame; the first such page, if several have it.
    pub fn page_of(&self, f: FrameNo) -> Option<PageKey>
        ensures value { result ≡ owner_of self.now f.0 }
        ensures row { MatchOption result (NoRowHas self.now f.0)
            (λ key. IsSomeAnd (row_at self.now key.object.0 key.page.0) (λ row. row.frame.0 ≡ f.0)) }
    {
        if self.owners.are_shared() {
            return first_owner(&self.rows, f);
        }
        self.owners.get(f)
    }

    /// A law of the table, which does nothing: the frame that leads to a page is that of the page's row, and
    /// no row has a frame that leads to none.
    pub fn lead_back(&self)
        ensures { (f : ℕ) → MatchOption (owner_of self.now f) (NoRowHas self.now f)
            (λ key. IsSomeAnd (row_at self.now key.object.0 key.page.0) (λ row. row.frame.0 ≡ f)) }
    {
        let _ = &self.rows;
    }

    /// The rows, by their pages.
    pub fn table(&self) -> &IndexMap<PageKey, PageRow>
        ensures { (object page : ℕ) → get_by (λ key. object == key.object.0 && page == key.page.0) result.now
            ≡ row_at self.now object page }
    {
        &self.rows
    }
}

// Marks a page that is in, or takes its mark away, where that changes it.
fn mark(pages: &mut PageGroups, key: PageKey, was: bool, now: bool)
    requires there { is_in pages.old key.object.0 key.page.0 ≡ true }
    requires was { is_marked pages.old key.object.0 key.page.0 ≡ was }
    ensures pages { (object page : ℕ) → is_in pages.new object page ≡ is_in pages.old object page }
    ensures marks { PutsMark key.object.0 key.page.0 now pages.old pages.new }
    ensures room { pages.new.spare ≡ pages.old.spare }
{
    if now != was {
        pages.mark(key, now);
    }
}
