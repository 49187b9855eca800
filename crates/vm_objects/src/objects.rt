// The memory objects of a host.
ghost use Rattle.std.specs.Prelude.{ℕ, ◌≡◌, ◌+◌, ◌-◌, ◌<◌, ◌≤◌, ◌^◌, [], Some, None, true, false, length, IfSome, IsOk, IsSome, OnErr, OnOk};
ghost use Rattle.vm_objects.specs.Objects.{PutsAbsent, PutsObject, SameMarks, SameObjects, SameOrRoomier, SameRooms, absent_at, object_at};
ghost use Rattle.vm_objects.specs.declared.row.PagerState.TheVariants as state;

use crate::{ObjectRow, PagerState};
use indexmap::{IndexMap, IndexSet};
use std::alloc::Global;
use std::marker::Model;
use vm_base::{NoMemory, ObjectId, ObjectKind, PageKey};

/// What a host knows of its memory objects.
///
/// Contracts see a row for each object, which of its pages are known to be absent, and the room: how
/// many further objects can be made without memory, and how many further pages can be noted as absent.
/// Only `reserve`, `reserve_marks` and `make` take memory.
#[derive(Drop)]
pub struct Objects {
    rows: IndexMap<ObjectId, ObjectRow>,
    // The pages that are known absent.
    absent: IndexSet<PageKey>,
    // So many further marks have been promised room.
    promised: u32,
}

impl Model for Objects {
    ghost use Rattle.indexmap.specs.IndexMap.{spare};
    ghost use Rattle.indexmap.specs.IndexSet.{spare as mark_room};
    ghost use Rattle.vm_objects.specs.Marks.{AreMarks};
    ghost use Rattle.vm_objects.specs.Objects.{ObjectTable};

    ghost Value = { ObjectTable };

    ghost view = { λ s. record { entries = s.rows.entries; absent = s.absent.keys; rows = spare s.rows; marks = s.promised } };

    ghost invariant = { λ s. AreMarks s.rows.entries s.absent.keys (mark_room s.absent) s.promised };
}

impl Objects {
    /// No objects, and no memory taken.
    pub fn new(alloc: Global) -> Objects
        ensures entries { result.entries ≡ [] }
        ensures absent { result.absent ≡ [] }
    {
        Objects {
            rows: IndexMap::new(alloc),
            absent: IndexSet::new(alloc),
            promised: 0,
        }
    }

    /// Makes room for so many further objects, and for so many further marks of absent pages; it fails
    /// for want of memory alone.
    pub fn reserve(&mut self, rows: u32, marks: u32) -> Result<(), NoMemory>
        ensures same { SameOrRoomier self.old self.new }
        ensures rows { OnOk result (rows ≤ self.new.rows) }
        ensures marks { OnOk result (marks ≤ self.new.marks) }
        ensures succeeds { rows ≤ self.old.rows → marks ≤ self.old.marks → IsOk result }
    {
        self.rows.reserve(rows as usize)?;
        self.reserve_marks(marks)
    }

    /// Makes room for so many further marks of absent pages; it fails for want of memory alone, and then
    /// nothing changed.
    pub fn reserve_marks(&mut self, marks: u32) -> Result<(), NoMemory>
        ensures same { SameOrRoomier self.old self.new }
        ensures rows { self.new.rows ≡ self.old.rows }
        ensures room { OnOk result (marks ≤ self.new.marks) }
        ensures succeeds { marks ≤ self.old.marks → IsOk result }
        ensures err { OnErr result (self.new ≡ self.old) }
    {
        if marks <= self.promised {
            return Ok(());
        }
        self.absent.reserve(marks as usize)?;
        self.promised = marks;
        Ok(())
    }

    /// Makes an object without a pager, to which nothing refers yet, and of which no page is known
    /// to be absent; it fails for want of memory alone.
    pub fn make(&mut self, id: ObjectId, kind: ObjectKind, pages: u32) -> Result<(), NoMemory>
        requires { object_at self.old id.0 ≡ None }
        ensures ok { OnOk result (PutsObject id.0 (Some record {
          kind = kind;
          pages = pages;
          state = state.Without;
          control = 0;
          live = false;
          cache = false;
          references = 0;
        }) self.old self.new) }
        ensures present { (p : ℕ) → absent_at self.new id.0 p ≡ false }
        ensures marks { SameMarks self.old self.new }
        ensures err { OnErr result (SameOrRoomier self.old self.new) }
        ensures succeeds { 0 < self.old.rows → IsOk result }
        ensures rows { self.old.rows ≤ self.new.rows + 1 }
        ensures spare { self.old.marks ≤ self.new.marks }
    {
        self.rows.reserve(1)?;
        let row = ObjectRow {
            kind,
            pages,
            state: PagerState::Without,
            control: 0,
            live: false,
            cache: false,
            references: 0,
        };
        self.rows.insert(id, row)?;
        Ok(())
    }

    /// The number of objects.
    pub fn count(&self) -> usize
        ensures count { result ≡ length self.now.entries }
        ensures small { result < 2 ^ 63 }
    {
        self.rows.len()
    }

    /// What is known of an object, None where it isn't there.
    pub fn find(&self, id: ObjectId) -> Option<ObjectRow>
        ensures { result ≡ object_at self.now id.0 }
    {
        self.rows.get(&id).copied()
    }

    /// Counts one more reference to an object.
    pub fn refer(&mut self, id: ObjectId)
        requires there { IsSome (object_at self.old id.0) }
        requires few { IfSome (object_at self.old id.0) (λ row. row.references < 2 ^ 32 - 1) }
        ensures object { IfSome (object_at self.old id.0) (λ row. PutsObject id.0
            (Some (record row { references = row.references + 1 })) self.old self.new) }
        ensures marks { SameMarks self.old self.new }
        ensures rooms { SameRooms self.old self.new }
    {
        let row = self.rows.get_mut(&id).unwrap();
        row.references += 1;
    }

    /// Counts one reference less to an object, and gives how many are left.
    pub fn unrefer(&mut self, id: ObjectId) -> u32
        requires there { IsSome (object_at self.old id.0) }
        requires some { IfSome (object_at self.old id.0) (λ row. 0 < row.references) }
        ensures left { IfSome (object_at self.old id.0) (λ row. result + 1 ≡ row.references) }
        ensures object { IfSome (object_at self.old id.0) (λ row. PutsObject id.0
            (Some (record row { references = result })) self.old self.new) }
        ensures marks { SameMarks self.old self.new }
        ensures rooms { SameRooms self.old self.new }
    {
        let row = self.rows.get_mut(&id).unwrap();
        row.references -= 1;
        row.references
    }

    /// Begins the next control of an object, of which its pager is being told, and gives its number.
    pub fn begin_control(&mut self, id: ObjectId) -> u32
        requires there { IsSome (object_at self.old id.0) }
        requires few { IfSome (object_at self.old id.0) (λ row. row.control < 2 ^ 32 - 1) }
        ensures number { IfSome (object_at self.old id.0) (λ row. result ≡ row.control + 1) }
        ensures object { IfSome (object_at self.old id.0) (λ row. PutsObject id.0
            (Some (record row { control = result; live = true; state = state.Sent }))
            self.old self.new) }
        ensures marks { SameMarks self.old self.new }
        ensures rooms { SameRooms self.old self.new }
    {
        let row = self.rows.get_mut(&id).unwrap();
        row.control += 1;
        row.live = true;
        row.state = PagerState::Sent;
        row.control
    }

    /// The pager of an object is ready.
    pub fn set_ready(&mut self, id: ObjectId)
        requires { IsSome (object_at self.old id.0) }
        ensures object { IfSome (object_at self.old id.0) (λ row. PutsObject id.0
            (Some (record row { state = state.Ready })) self.old self.new) }
        ensures marks { SameMarks self.old self.new }
        ensures rooms { SameRooms self.old self.new }
    {
        let row = self.rows.get_mut(&id).unwrap();
        row.state = PagerState::Ready;
    }

    /// Ends the control of an object, which has no pager then. Its number stays, so that the next
    /// control has the next one.
    pub fn end_control(&mut self, id: ObjectId)
        requires { IsSome (object_at self.old id.0) }
        ensures object { IfSome (object_at self.old id.0) (λ row. PutsObject id.0
            (Some (record row { live = false; state = state.Without })) self.old self.new) }
        ensures marks { SameMarks self.old self.new }
        ensures rooms { SameRooms self.old self.new }
    {
        let row = self.rows.get_mut(&id).unwrap();
        row.live = false;
        row.state = PagerState::Without;
    }

    /// Whether an object stays when its last entry goes, from now on.
    pub fn set_cache(&mut self, id: ObjectId, cache: bool)
        requires { IsSome (object_at self.old id.0) }
        ensures object { IfSome (object_at self.old id.0) (λ row. PutsObject id.0
            (Some (record row { cache = cache })) self.old self.new) }
        ensures marks { SameMarks self.old self.new }
        ensures rooms { SameRooms self.old self.new }
    {
        let row = self.rows.get_mut(&id).unwrap();
        row.cache = cache;
    }

    /// The pager is known not to have a page from now on.
    pub fn note_absent(&mut self, key: PageKey)
        requires there { IsSome (object_at self.old key.object.0) }
        requires inside { IfSome (object_at self.old key.object.0) (λ row. key.page.0 < row.pages) }
        requires room { 0 < self.old.marks }
        ensures mark { PutsAbsent key.object.0 key.page.0 true self.old self.new }
        ensures objects { SameObjects self.old self.new }
        ensures rows { self.new.rows ≡ self.old.rows }
        ensures marks { self.old.marks ≤ self.new.marks + 1 }
    {
        let _ = self.absent.insert(key);
        self.promised -= 1;
    }

    /// The pager isn't known to lack a page any more.
    pub fn clear_absent(&mut self, key: PageKey)
        requires there { IsSome (object_at self.old key.object.0) }
        requires inside { IfSome (object_at self.old key.object.0) (λ row. key.page.0 < row.pages) }
        ensures mark { PutsAbsent key.object.0 key.page.0 false self.old self.new }
        ensures objects { SameObjects self.old self.new }
        ensures rooms { SameRooms self.old self.new }
    {
        let _ = self.absent.swap_remove(&key);
    }

    /// Whether the pager is known not to have a page.
    pub fn known_absent(&self, key: PageKey) -> bool
        requires { IsSome (object_at self.now key.object.0) }
        ensures mark { result ≡ absent_at self.now key.object.0 key.page.0 }
        ensures past { IfSome (object_at self.now key.object.0) (λ row.
            row.pages ≤ key.page.0 → result ≡ false) }
    {
        self.absent.contains(&key)
    }
}
