// A list that grows at its end, and is seen with its newest item first.
ghost use Rattle.std.specs.Prelude.{◌≡◌, ◌+◌, ◌≤◌, ◌<◌, ◌∷◌, [], ◌++◌, length, reverse, take, drop, insert, set, slice_get, IsOk, OnOk, OnErr, MatchOption};

use crate::NoMemory;
use std::alloc::Global;
use std::collections::VecDeque;
use std::marker::Model;
use std::mem;

const MOST: usize = 0xffff_ffff;

/// A list of at most 4,294,967,295 items, which grows at its end and shrinks at its front.
///
/// Contracts see its items with the newest first, and its room: the number of items that can be
/// added without memory.
#[derive(Drop)]
pub struct Listing<T> {
    items: VecDeque<T>,
}

impl<T> Model for Listing<T> {
    ghost use Rattle.std.specs.Prelude.{reverse, length, min, ◌-◌, ◌≤◌, ◌^◌};
    ghost use Rattle.std.specs.VecDeque.{deque_capacity};
    ghost use Rattle.vm_base.specs.Listing.{Listed};

    ghost Value = { Listed T };

    ghost view = { λ s. record { items = reverse s.items.items; room = min (deque_capacity s.items) (2 ^ 32 - 1) - length s.items.items } };

    ghost invariant = { λ s. length s.items.items ≤ 2 ^ 32 - 1 };
}

impl<T> Listing<T> {
    /// An empty list, which takes no memory.
    pub fn new(alloc: Global) -> Self
        ensures { result.items ≡ [] }
    {
        Listing {
            items: VecDeque::new(alloc),
        }
    }

    /// The number of items.
    pub fn len(&self) -> u32
        ensures { result ≡ length self.now.items }
    {
        self.items.len() as u32
    }

    /// Makes room for so many further items; it fails for want of memory alone.
    pub fn reserve(&mut self, n: u32) -> Result<(), NoMemory>
        ensures same { self.new.items ≡ self.old.items }
        ensures room { OnOk result (n ≤ self.new.room) }
        ensures kept { self.old.room ≤ self.new.room }
        ensures succeeds { n ≤ self.old.room → IsOk result }
    {
        if MOST - self.items.len() < n as usize {
            return Err(NoMemory);
        }
        self.items.reserve(n as usize)?;
        Ok(())
    }

    /// Adds an item at the end; it fails for want of memory alone.
    pub fn push(&mut self, item: T) -> Result<(), NoMemory>
    where
        T: Drop,
        ensures ok { OnOk result (self.new.items ≡ item ∷ self.old.items) }
        ensures err { OnErr result (self.new.items ≡ self.old.items) }
        ensures succeeds { 0 < self.old.room → IsOk result }
        ensures room { self.old.room ≤ self.new.room + 1 }
    {
        if self.items.len() >= MOST {
            return Err(NoMemory);
        }
        self.items.push_back(item)?;
        Ok(())
    }

    /// Puts an item at an index, counted from the oldest, in front of those that stood there and
    /// behind it; it fails for want of memory alone.
    pub fn insert(&mut self, i: u32, item: T) -> Result<(), NoMemory>
    where
        T: Drop,
        requires { i ≤ length self.old.items }
        ensures ok { OnOk result (reverse self.new.items ≡ insert (reverse self.old.items) i item) }
        ensures err { OnErr result (self.new.items ≡ self.old.items) }
        ensures succeeds { 0 < self.old.room → IsOk result }
        ensures room { self.old.room ≤ self.new.room + 1 }
    {
        if self.items.len() >= MOST {
            return Err(NoMemory);
        }
        self.items.insert(i as usize, item)?;
        Ok(())
    }

    /// Puts other items in the place of those from an index on and below another, counted from the
    /// oldest; it fails for want of memory alone.
    pub fn replace(&mut self, from: u32, to: u32, mut others: Listing<T>) -> Result<(), NoMemory>
    where
        T: Drop,
        requires order { from ≤ to }
        requires within { to ≤ length self.old.items }
        ensures ok { OnOk result (reverse self.new.items ≡ take from (reverse self.old.items)
            ++ (reverse others.items ++ drop to (reverse self.old.items))) }
        ensures err { OnErr result (self.new.items ≡ self.old.items) }
        ensures succeeds { length others.items + from ≤ self.old.room + to → IsOk result }
        ensures room { length self.old.items + self.old.room ≤ length self.new.items + self.new.room }
    {
        self.reserve(others.len().saturating_sub(to - from))?;
        // The items behind the range wait in front, while the others are put at the end.
        let behind = self.items.len() - to as usize;
        self.items.rotate_left(to as usize);
        self.items.truncate(behind + from as usize);
        self.items.append(&mut others.items)?;
        self.items.rotate_left(behind);
        Ok(())
    }

    /// Puts an item in the place of the one at an index, counted from the oldest.
    pub fn set(&mut self, i: u32, item: T)
    where
        T: Drop,
        requires { i < length self.old.items }
        ensures items { reverse self.new.items ≡ set (reverse self.old.items) i item }
        ensures room { self.new.room ≡ self.old.room }
    {
        self.items[i as usize] = item;
    }

    /// The item at an index, counted from the oldest.
    pub fn at(&self, i: u32) -> &T
        requires { i < length self.now.items }
        ensures { slice_get (reverse self.now.items) i ≡ Some result.now }
    {
        &self.items[i as usize]
    }

    /// The index that the item gets which is added behind so many others.
    pub fn index_behind(&self, n: u32) -> u32
        requires { n < self.now.room }
        ensures { result ≡ length self.now.items + n }
    {
        self.items.len() as u32 + n
    }

    /// Moves all items of another list behind these, oldest first, and leaves that one empty, at its first place; it fails for want
    /// of memory alone, and then both have what they had.
    pub fn append(&mut self, others: &mut Listing<T>) -> Result<(), NoMemory>
        ensures ok { OnOk result ((self.new.items ≡ others.old.items ++ self.old.items) × (others.new.items ≡ [])) }
        ensures err { OnErr result ((self.new.items ≡ self.old.items) × (others.new.items ≡ others.old.items)) }
        ensures succeeds { length others.old.items ≤ self.old.room → IsOk result }
        ensures room { self.old.room ≤ self.new.room + length others.old.items }
        ensures left { others.old.room ≤ others.new.room }
    {
        if MOST - self.items.len() < others.items.len() {
            return Err(NoMemory);
        }
        self.items.append(&mut others.items)?;
        others.restart();
        Ok(())
    }

    // An empty list begins at its first place again, so that of much room few places are touched.
    fn restart(&mut self)
        requires { self.old.items ≡ [] }
        ensures items { self.new.items ≡ [] }
        ensures room { self.old.room ≤ self.new.room }
    {
        let alloc = *self.items.allocator();
        let items = mem::replace(&mut self.items, VecDeque::new(alloc));
        let none = mem::replace(&mut self.items, VecDeque::from_vec(items.into_vec()));
        none.destroy_empty();
    }

    /// Takes the oldest item out.
    pub fn take_first(&mut self) -> Option<T>
        ensures taken { MatchOption result ((self.old.items ≡ [])
            × (self.new.items ≡ [])) (λ item. self.old.items ≡ self.new.items ++ item ∷ []) }
        ensures room { self.old.room ≤ self.new.room }
    {
        self.items.pop_front()
    }
}
