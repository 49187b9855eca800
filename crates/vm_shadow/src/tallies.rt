// A tally for each object under some shadow.
ghost use Rattle.std.specs.Prelude.{ℕ, ◌≡◌, ◌+◌, ◌-◌, ◌==◌, ◌<◌, ◌≤◌, ◌^◌, Some, None, true, false, if◌then◌else◌, IsOk, OnOk};
ghost use Rattle.vm_shadow.specs.Standing.{HasNumber, no_tally, renumbered, tally_at, with_shadow, without_shadow};

use crate::Tally;
use indexmap::IndexMap;
use std::alloc::Global;
use std::marker::Model;
use vm_base::{NoMemory, ObjectId};

/// A tally for each object under some shadow. Contracts see the rows, and how many further shadows are
/// tallied without memory. There is room for an object of its own for each shadow, so one that is moved
/// to another object takes no memory.
#[derive(Drop)]
pub struct Tallies {
    rows: IndexMap<ObjectId, Tally>,
    // So many shadows or fewer stand beside another on their object; each has room for one of its own.
    beside: u32,
}

impl Model for Tallies {
    ghost use Rattle.std.specs.Prelude.{◌-◌, ◌^◌, min};
    ghost use Rattle.indexmap.specs.IndexMap.{spare};
    ghost use Rattle.vm_shadow.specs.Kept.{HasPlaces};
    ghost use Rattle.vm_shadow.specs.Standing.{TallyTable};

    ghost Value = { TallyTable };

    ghost view = { λ s. record {
      rows = s.rows.entries;
      spare = min (spare s.rows) (2 ^ 32 - 1) - s.beside;
    } };

    ghost invariant = { λ s. HasPlaces s.rows.entries s.beside (min (spare s.rows) (2 ^ 32 - 1)) };
}

impl Tallies {
    /// No object is under a shadow yet.
    pub fn new(alloc: Global) -> Tallies
        ensures { (o : ℕ) → tally_at result o ≡ no_tally }
    {
        Tallies {
            rows: IndexMap::new(alloc),
            beside: 0,
        }
    }

    /// Makes room for so many further shadows; it fails for want of memory alone.
    pub fn reserve(&mut self, rows: u32) -> Result<(), NoMemory>
        ensures same { self.new.rows ≡ self.old.rows }
        ensures room { OnOk result (rows ≤ self.new.spare) }
        ensures kept { self.old.spare ≤ self.new.spare }
        ensures succeeds { rows ≤ self.old.spare → IsOk result }
    {
        let Some(places) = self.beside.checked_add(rows) else {
            return Err(NoMemory);
        };
        self.rows.reserve(places as usize)?;
        Ok(())
    }

    /// Counts a shadow over an object. It takes no memory.
    pub fn add(&mut self, upper: ObjectId, under: ObjectId)
        requires room { 0 < self.old.spare }
        requires few { (tally_at self.old under.0).count + 1 < 2 ^ 32 }
        requires small { (tally_at self.old under.0).sum + upper.0 < 2 ^ 64 }
        ensures added { (o : ℕ) → tally_at self.new o ≡ (if under.0 == o then with_shadow upper.0 (tally_at self.old o) else tally_at self.old o) }
        ensures spare { self.old.spare ≤ self.new.spare + 1 }
    {
        let Some(more) = self.rows.get_mut(&under) else {
            let only = Tally {
                count: 1,
                sum: u64::from(upper.0),
            };
            let _ = self.rows.insert(under, only);
            return;
        };
        more.count += 1;
        more.sum += u64::from(upper.0);
        self.beside += 1;
    }

    /// Counts a shadow over an object no longer. An object under no shadow has no tally. Where another
    /// stands there still, a place is free for it.
    pub fn remove(&mut self, upper: ObjectId, under: ObjectId)
        requires has { HasNumber upper.0 (tally_at self.old under.0) }
        ensures removed { (o : ℕ) → tally_at self.new o ≡ (if under.0 == o then without_shadow upper.0 (tally_at self.old o) else tally_at self.old o) }
        ensures spare { self.old.spare ≤ self.new.spare }
        ensures place { 1 < (tally_at self.old under.0).count → self.old.spare < self.new.spare }
    {
        let was = self.rows[&under];
        if was.count == 1 {
            let _ = self.rows.swap_remove(&under);
            return;
        }
        let left = self.rows.get_mut(&under).unwrap();
        left.count = was.count - 1;
        left.sum = was.sum - u64::from(upper.0);
        self.beside -= 1;
    }

    /// Counts one shadow over an object in place of another.
    pub fn replace(&mut self, lower: ObjectId, upper: ObjectId, under: ObjectId)
        requires has { HasNumber lower.0 (tally_at self.old under.0) }
        requires small { (tally_at self.old under.0).sum + upper.0 < 2 ^ 64 }
        ensures replaced { (o : ℕ) → tally_at self.new o ≡ (if under.0 == o then renumbered lower.0 upper.0 (tally_at self.old o) else tally_at self.old o) }
        ensures spare { self.old.spare ≤ self.new.spare }
    {
        let tally = self.rows.get_mut(&under).unwrap();
        tally.sum = tally.sum - u64::from(lower.0) + u64::from(upper.0);
    }

    /// The one shadow over an object; None where none is, or several are.
    pub fn sole(&self, object: ObjectId) -> Option<ObjectId>
        requires { (tally_at self.now object.0).count ≡ 1 → (tally_at self.now object.0).sum < 2 ^ 32 }
        ensures { result ≡ (if (tally_at self.now object.0).count == 1 then Some (record { 0 = (tally_at self.now object.0).sum }) else None) }
    {
        let tally = self.rows.get(&object).copied()?;
        if tally.count != 1 {
            return None;
        }
        Some(ObjectId(tally.sum as u32))
    }
}
