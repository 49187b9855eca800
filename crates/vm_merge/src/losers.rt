// The objects that lost a reference.
ghost use Rattle.std.specs.Prelude.{◌≡◌, ◌+◌, ◌<◌, ◌≤◌, ◌⊎◌, [], Contains, length, IfNone, IfOk, IfSome, OnSome};
ghost use Rattle.vm_base.specs.declared.ids.ObjectId.{ObjectId};

use std::alloc::Global;
use std::cmp::Reverse;
use std::collections::BinaryHeap;
use std::marker::Model;
use vm_base::{NoMemory, ObjectId};

/// Objects that lost a reference and have some left; an object may be among them several times.
/// Contracts see them as a list in some order, and for how many further ones there is room. Only
/// `with_room` takes memory.
#[derive(Drop)]
pub struct Losers {
    // The one with the least number is on top.
    heap: BinaryHeap<Reverse<ObjectId>>,
}

impl Model for Losers {
    ghost use Rattle.std.specs.BinaryHeap.{heap_capacity, heap_items, heap_len};
    ghost use Rattle.std.specs.Prelude.{◌-◌};
    ghost use Rattle.vm_merge.specs.Losing.{IsLeastFirst, LoserList, losers_of};

    ghost Value = { LoserList };

    ghost view = { λ s. record { items = losers_of (heap_items s.heap); room = heap_capacity s.heap - heap_len s.heap } };

    ghost invariant = { λ s. IsLeastFirst (heap_items s.heap) };
}

impl Losers {
    /// None yet, and room for so many; it fails for want of memory alone.
    pub fn with_room(alloc: Global, most: usize) -> Result<Losers, NoMemory>
        ensures empty { IfOk result (λ losers. losers.items ≡ []) }
        ensures room { IfOk result (λ losers. most ≤ losers.room) }
    {
        let heap = BinaryHeap::with_capacity(alloc, most)?;
        Ok(Losers { heap })
    }

    /// How many there are.
    pub fn len(&self) -> usize
        ensures { result ≡ length self.now.items }
    {
        self.heap.len()
    }

    /// Adds an object.
    pub fn push(&mut self, object: ObjectId)
        requires { 0 < self.old.room }
        ensures added { Contains self.new.items object }
        ensures kept { (other : ObjectId) → Contains self.old.items other → Contains self.new.items other }
        ensures count { length self.new.items ≡ length self.old.items + 1 }
        ensures room { self.old.room ≤ self.new.room + 1 }
    {
        let _ = self.heap.push(Reverse(object));
    }

    /// Takes the object with the least number.
    pub fn pop(&mut self) -> Option<ObjectId>
        ensures none { IfNone result (self.old.items ≡ []) }
        ensures least { IfSome result (λ object. Contains self.old.items object
            × ((other : ObjectId) → Contains self.old.items other → object.0 ≤ other.0)) }
        ensures rest { IfSome result (λ object. (other : ObjectId) → Contains self.old.items other → (other ≡ object) ⊎ Contains self.new.items other) }
        ensures no_other { OnSome result ((other : ObjectId) → Contains self.new.items other → Contains self.old.items other) }
        ensures count { OnSome result (length self.new.items + 1 ≡ length self.old.items) }
        ensures room { self.old.room ≤ self.new.room }
    {
        let top = self.heap.pop()?;
        Some(top.0)
    }
}
