// A store of page buffers.
ghost use Rattle.std.specs.Prelude.{◌≡◌, ◌+◌, ◌≤◌, ◌<◌, replicate, IsOk, OnOk};

use crate::{NoMemory, PageBytes, PageSize};
use std::alloc::Global;
use std::marker::Model;

/// Pages of zeros of one size, kept so that a later call needs no memory for them.
///
/// Contracts see the size in bytes, and how many buffers are kept.
#[derive(Drop)]
pub struct Buffers {
    alloc: Global,
    size: PageSize,
    kept: Vec<PageBytes>,
}

impl Model for Buffers {
    ghost use Rattle.std.specs.Prelude.{length};
    ghost use Rattle.vm_base.specs.Buffers.{AllZero, BufferStore};

    ghost Value = { BufferStore };

    ghost view = { λ s. record { size = s.size; count = length s.kept.items } };

    ghost invariant = { λ s. AllZero s.size s.kept.items };
}

impl Buffers {
    /// An empty store, which takes no memory.
    pub fn new(alloc: Global, size: PageSize) -> Buffers
        ensures { result ≡ record { size = size; count = 0 } }
    {
        Buffers {
            alloc,
            size,
            kept: Vec::new(alloc),
        }
    }

    /// The size of each buffer.
    pub fn size(&self) -> PageSize
        ensures { result ≡ self.now.size }
    {
        self.size
    }

    /// Makes buffers until so many are kept; it fails for want of memory alone, and the buffers
    /// that were made by then stay.
    pub fn reserve(&mut self, n: u32) -> Result<(), NoMemory>
        ensures size { self.new.size ≡ self.old.size }
        ensures enough { OnOk result (n ≤ self.new.count) }
        ensures kept { self.old.count ≤ self.new.count }
        ensures succeeds { n ≤ self.old.count → IsOk result }
        ensures same { n ≤ self.old.count → self.new ≡ self.old }
    {
        while self.kept.len() < n as usize {
            let page = PageBytes::zero(self.alloc, self.size)?;
            self.kept.push(page)?;
        }
        Ok(())
    }

    /// Takes a page of zeros out, without memory.
    pub fn take(&mut self) -> PageBytes
        requires { 0 < self.old.count }
        ensures zeros { result ≡ replicate self.old.size 0 }
        ensures size { self.new.size ≡ self.old.size }
        ensures fewer { self.old.count ≡ self.new.count + 1 }
    {
        let last = self.kept.len() - 1;
        self.kept.remove(last)
    }
}
