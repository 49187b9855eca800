// Which slots are free.
ghost use Rattle.std.specs.Prelude.{ℕ, ◌≡◌, true, false, IfOk, MatchOption, if◌then◌else◌, ◌==◌};
ghost use Rattle.pg_slots.specs.Kept.{AllMarked, IsUnmarked, MayTake, is_taken};

use std::alloc::Global;
use std::cmp::Reverse;
use std::collections::BinaryHeap;
use std::marker::Model;
use vm_base::NoMemory;

/// The slots, and which of them are free. Contracts see their number, and whether each is taken.
/// Only `new` takes memory.
#[derive(Drop)]
pub struct FreeSlots {
    count: u32,
    // The lowest slot that was never taken.
    unused: u32,
    // The slots that were given back, the lowest on top.
    given: BinaryHeap<Reverse<u32>>,
}

impl Model for FreeSlots {
    ghost use Rattle.std.specs.BinaryHeap.{heap_capacity, heap_items};
    ghost use Rattle.pg_slots.specs.Kept.{AreFree, IsLowestFirst, SlotMarks, slots_of};

    ghost Value = { SlotMarks };

    ghost view = { λ s. record { count = s.count; unused = s.unused; given = slots_of (heap_items s.given) } };

    ghost invariant = { λ s. IsLowestFirst (heap_items s.given) × AreFree (record { count = s.count; unused = s.unused; given = slots_of (heap_items s.given) })
        (heap_capacity s.given) };
}

impl FreeSlots {
    /// So many slots, all free; it fails for want of memory alone.
    pub fn new(alloc: Global, count: u32) -> Result<FreeSlots, NoMemory>
        ensures count { IfOk result (λ slots. slots.count ≡ count) }
        ensures free { IfOk result (λ slots. (s : ℕ) → is_taken slots s ≡ false) }
    {
        let given = BinaryHeap::with_capacity(alloc, count as usize)?;
        Ok(FreeSlots {
            count,
            unused: 0,
            given,
        })
    }

    /// The lowest free slot.
    pub fn lowest(&self) -> Option<u32>
        ensures { MatchOption result (AllMarked self.now) (IsUnmarked self.now) }
    {
        match self.given.peek() {
            Some(slot) => Some(slot.0),
            None if self.unused < self.count => Some(self.unused),
            None => None,
        }
    }

    /// Takes the lowest free slot; one that is taken stays so.
    pub fn take(&mut self, slot: u32)
        requires { MayTake self.old slot }
        ensures count { self.new.count ≡ self.old.count }
        ensures taken { (s : ℕ) → is_taken self.new s ≡ (if slot == s then true else is_taken self.old s) }
    {
        if self.lowest() != Some(slot) {
            return;
        }
        if self.given.pop().is_none() {
            self.unused += 1;
        }
    }

    /// Gives a slot back.
    pub fn give(&mut self, slot: u32)
        requires { is_taken self.old slot ≡ true }
        ensures count { self.new.count ≡ self.old.count }
        ensures taken { (s : ℕ) → is_taken self.new s ≡ (if slot == s then false else is_taken self.old s) }
    {
        let _ = self.given.push(Reverse(slot));
    }
}
