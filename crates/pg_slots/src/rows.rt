// The pages that were put, with what is held of each.
ghost use Rattle.std.specs.Prelude.{ℕ, ◌≡◌, ◌<◌, [], None, OnErr, OnOk};
ghost use Rattle.pg_slots.specs.Kept.{DropsRows, PutsRow, room_of, slot_among, slot_in_map};
ghost use Rattle.pg_slots.specs.Slots.{held_among, held_slot};

use crate::slot_row::{Held, slot_in};
use indexmap::IndexMap;
use std::alloc::Global;
use std::marker::Model;
use std::mem;
use vm_base::{NoMemory, ObjectId, PageKey, PageNo};

/// What is held of each page of an object.
pub type Pages = IndexMap<PageNo, Held>;

/// What is held of each page that was put. Only `reserve` takes memory.
#[derive(Drop)]
pub struct Rows {
    alloc: Global,
    rows: IndexMap<ObjectId, Pages>,
    // No page, with the room that was reserved for the first page of an object.
    next: Pages,
}

impl Model for Rows {
    ghost use Rattle.std.specs.Prelude.{◌≡◌, [], map, min};
    ghost use Rattle.indexmap.specs.IndexMap.{spare};
    ghost use Rattle.pg_slots.specs.Kept.{RowTable, object_pages, object_room};

    ghost Value = { RowTable };

    ghost view = { λ s. record {
      rows = map object_pages s.rows.entries;
      rooms = map object_room s.rows.entries;
      first = min (spare s.rows) (spare s.next);
    } };

    ghost invariant = { λ s. s.next.entries ≡ [] };
}

impl Rows {
    /// No page was put.
    pub fn new(alloc: Global) -> Rows
        ensures { result.rows ≡ [] }
    {
        Rows {
            alloc,
            rows: IndexMap::new(alloc),
            next: IndexMap::new(alloc),
        }
    }

    /// Makes room for a page.
    pub fn reserve(&mut self, key: PageKey) -> Result<(), NoMemory>
        ensures rows { self.new.rows ≡ self.old.rows }
        ensures room { OnOk result (0 < room_of self.new key.object.0) }
    {
        if let Some(pages) = self.rows.get_mut(&key.object) {
            pages.reserve(1)?;
            return Ok(());
        }
        self.rows.reserve(1)?;
        self.next.reserve(1)?;
        Ok(())
    }

    /// What is held of a page.
    pub fn held(&self, key: PageKey) -> Option<Held>
        ensures { result ≡ held_among key.object.0 key.page.0 self.now.rows }
    {
        let pages = self.rows.get(&key.object)?;
        pages.get(&key.page).copied()
    }

    /// The slot that a page has.
    pub fn slot(&self, key: PageKey) -> Option<u32>
        ensures { result ≡ held_slot (held_among key.object.0 key.page.0 self.now.rows) }
    {
        match self.held(key) {
            Some(held) => slot_in(held),
            None => None,
        }
    }

    /// Puts in or changes the row of a page.
    pub fn put(&mut self, key: PageKey, held: Held)
        requires { 0 < room_of self.old key.object.0 }
        ensures { PutsRow key.object.0 key.page.0 held self.old.rows self.new.rows }
    {
        if let Some(pages) = self.rows.get_mut(&key.object) {
            let _ = pages.insert(key.page, held);
            return;
        }
        let mut pages = mem::replace(&mut self.next, IndexMap::new(self.alloc));
        let _ = pages.insert(key.page, held);
        let _ = self.rows.insert(key.object, pages);
    }

    /// Takes out the rows of an object, and gives them.
    pub fn drop_object(&mut self, object: ObjectId) -> Option<Pages>
        ensures slots { (p : ℕ) → slot_in_map result p ≡ slot_among object.0 p self.old.rows }
        ensures dropped { DropsRows object.0 self.old.rows self.new.rows }
    {
        self.rows.swap_remove(&object)
    }
}
