// The copy objects of a host.
ghost use Rattle.indexmap.specs.IndexMap.{spare};
ghost use Rattle.std.specs.Prelude.{ℕ, ◌≡◌, ◌+◌, ◌<◌, ◌≤◌, ◌==◌, [], if◌then◌else◌, None, Some, false, is_some, replicate, slice_set, true, IfOk, IfSome};
ghost use Rattle.std.specs.Prelude.{IsOk, IsSome, OnErr, OnOk};
ghost use Rattle.vm_base.specs.Limits.{most_pages};
ghost use Rattle.vm_copies.specs.Copies.{AreNewest, ClearsHad, PutsCopy, PutsHad, PutsNewest, among, copy_at, had_at, newest_at, other_than};

use crate::copy_object::CopyObject;
use indexmap::IndexMap;
use std::alloc::Global;
use std::marker::Model;
use vm_base::{NoMemory, ObjectId, PageKey};

/// The copy objects of a host that live.
///
/// A copy object is a delayed copy of a file's pages, and stands between the file and its copies.
/// Contracts see each source's newest, and of each copy object whose it is, of how many pages, and which
/// of them it has had of its own; and how many further ones begin without memory. Only `reserve` and
/// `begin` take memory, and no call scans a table.
#[derive(Drop)]
pub struct Copies {
    copies: IndexMap<ObjectId, CopyObject>,
    // The newest copy object of each source that has one.
    newest: IndexMap<ObjectId, ObjectId>,
    // So many further copy objects have been promised room.
    promised: u32,
}

impl Model for Copies {
    ghost use Rattle.indexmap.specs.IndexMap.{spare};
    ghost use Rattle.vm_copies.specs.Copies.{AreKept, CopyTable};

    ghost Value = { CopyTable };

    ghost view = { λ s. record { newest = s.newest.entries; copies = s.copies.entries; room = s.promised } };

    ghost invariant = { λ s. AreKept
        (record { newest = s.newest.entries; copies = s.copies.entries; room = s.promised })
        (spare s.newest) (spare s.copies) };
}

impl Copies {
    /// No copy objects, and no memory taken.
    pub fn new(alloc: Global) -> Copies
        ensures { result ≡ record { newest = []; copies = []; room = 0 } }
    {
        Copies {
            copies: IndexMap::new(alloc),
            newest: IndexMap::new(alloc),
            promised: 0,
        }
    }

    /// Makes room for so many further copy objects; it fails for want of memory alone, and then nothing
    /// changed.
    pub fn reserve(&mut self, rows: u32) -> Result<(), NoMemory>
        ensures same { self.new ≡ record self.old { room = self.new.room } }
        ensures room { OnOk result (rows ≤ self.new.room) }
        ensures kept { self.old.room ≤ self.new.room }
        ensures succeeds { rows ≤ self.old.room → IsOk result }
        ensures living { AreNewest self.new }
        ensures err { OnErr result (self.new ≡ self.old) }
    {
        if rows <= self.promised {
            return Ok(());
        }
        self.copies.reserve(rows as usize)?;
        self.newest.reserve(rows as usize)?;
        self.promised = rows;
        Ok(())
    }

    /// A copy object of so many pages begins, and is its source's newest; this gives the one that was until
    /// then, None exactly where none lived. It fails for want of memory alone, and then nothing changed but
    /// the room.
    pub fn begin(
        &mut self,
        source: ObjectId,
        copy: ObjectId,
        pages: u32,
    ) -> Result<Option<ObjectId>, NoMemory>
        requires absent { copy_at self.old copy.0 ≡ None }
        requires few { pages ≤ most_pages }
        ensures before { IfOk result (λ before. before ≡ newest_at self.old source.0) }
        ensures copy { OnOk result (PutsCopy copy.0
            (Some (record { source = source; pages = pages; had = replicate pages false })) self.old self.new) }
        ensures had { OnOk result (ClearsHad copy.0 self.old self.new) }
        ensures newest { OnOk result (PutsNewest source.0 (Some copy) self.old self.new) }
        ensures living { AreNewest self.new }
        ensures err { OnErr result (self.new ≡ record self.old { room = self.new.room }) }
        ensures succeeds { 0 < self.old.room → IsOk result }
        ensures room { self.old.room ≤ self.new.room + 1 }
    {
        self.reserve(1)?;
        self.promised -= 1;
        self.copies.insert(copy, CopyObject::new(source, pages))?;
        Ok(self.newest.insert(source, copy)?)
    }

    /// The newest copy object of a source; None exactly where none lives.
    pub fn newest(&self, source: ObjectId) -> Option<ObjectId>
        ensures newest { result ≡ newest_at self.now source.0 }
        ensures living { AreNewest self.now }
    {
        self.newest.get(&source).copied()
    }

    /// Whether it was noted that a copy object has had a page.
    pub fn had(&self, key: PageKey) -> bool
        requires { IsSome (copy_at self.now key.object.0) }
        ensures had { result ≡ had_at self.now key.object.0 key.page.0 }
        ensures past { IfSome (copy_at self.now key.object.0) (λ row. row.pages ≤ key.page.0 → result ≡ false) }
    {
        self.copies.get(&key.object).unwrap().had(key.page)
    }

    /// Notes that a copy object has had a page.
    pub fn note(&mut self, key: PageKey)
        requires there { IsSome (copy_at self.old key.object.0) }
        requires inside { IfSome (copy_at self.old key.object.0) (λ row. key.page.0 < row.pages) }
        ensures copy { IfSome (copy_at self.old key.object.0) (λ row. PutsCopy key.object.0
            (Some (record row { had = slice_set row.had key.page.0 true })) self.old self.new) }
        ensures had { PutsHad key.object.0 key.page.0 true self.old self.new }
        ensures newest { self.new.newest ≡ self.old.newest }
        ensures room { self.new.room ≡ self.old.room }
        ensures living { AreNewest self.new }
    {
        let row = self.copies.get_mut(&key.object).unwrap();
        row.note(key.page);
    }

    /// A copy object ends; where it was its source's newest, that has none any more.
    pub fn end(&mut self, copy: ObjectId)
        requires { IsSome (copy_at self.old copy.0) }
        ensures copy { PutsCopy copy.0 None self.old self.new }
        ensures had { ClearsHad copy.0 self.old self.new }
        ensures newest { IfSome (copy_at self.old copy.0) (λ row. PutsNewest row.source.0
            (other_than copy.0 (newest_at self.old row.source.0)) self.old self.new) }
        ensures room { self.old.room ≤ self.new.room }
        ensures living { AreNewest self.new }
    {
        let row = self.copies.swap_remove(&copy).unwrap();
        leave_newest(&mut self.newest, row.source(), copy);
    }

    /// Whether an object is a copy object that lives.
    pub fn is_copy(&self, object: ObjectId) -> bool
        ensures { result ≡ is_some (copy_at self.now object.0) }
    {
        self.copies.contains_key(&object)
    }
}

// Where a copy object is its source's newest, the source has none any more.
fn leave_newest(newest: &mut IndexMap<ObjectId, ObjectId>, source: ObjectId, copy: ObjectId)
    ensures entries { (s : ℕ) → among s newest.new.entries
        ≡ (if source.0 == s then other_than copy.0 (among source.0 newest.old.entries) else among s newest.old.entries) }
    ensures room { spare newest.old ≤ spare newest.new }
{
    if newest.get(&source).copied() == Some(copy) {
        let _ = newest.swap_remove(&source);
    }
}
