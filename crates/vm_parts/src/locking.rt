// Locks of pages.
ghost use Rattle.std.specs.Prelude.{◌≡◌, true, IfSome, IsSomeAnd};
ghost use Rattle.vm_resident.specs.Resident.{row_at};
ghost use Rattle.vm_parts.specs.Changes.{Relocks};
ghost use Rattle.vm_parts.specs.Fits.{Fit};
ghost use Rattle.vm_parts.specs.Locks.{lock_numbered};

use crate::HostParts;
use vm_base::{Lock, PageKey};
use vm_resident::PageRow;

/// The accesses that a lock's number in a message prohibits. The numbers are this profile's.
pub fn lock_of(number: u32) -> Lock
    ensures { result ≡ lock_numbered number }
{
    Lock {
        read: number == 1 || number == 3,
        write: number == 2 || number == 3,
    }
}

impl HostParts {
    /// A page that is here gets a lock, or keeps its own where none is given, and no unlock of it is
    /// outstanding any more. Where its pager has been sent it, it is clean then and not precious.
    pub fn relock(&mut self, key: PageKey, lock: Option<Lock>, saved: bool)
        requires fit { Fit self.old }
        requires here { IsSomeAnd (row_at self.old.resident key.object.0 key.page.0) (λ row. row.here ≡ true) }
        ensures fit { Fit self.new }
        ensures relocks { IfSome (row_at self.old.resident key.object.0 key.page.0) (λ row. Relocks key row lock saved self.old self.new) }
        ensures objects { self.new.objects ≡ self.old.objects }
        ensures buffers { self.new.buffers ≡ self.old.buffers }
        ensures room { self.new.resident.spare ≡ self.old.resident.spare }
    {
        let Some(row) = self.resident.get(key) else {
            unreachable!()
        };
        let lock = match lock {
            Some(lock) => lock,
            None => row.lock,
        };
        self.resident.set(
            key,
            PageRow {
                lock,
                dirty: !saved && row.dirty,
                precious: !saved && row.precious,
                unlock_sent: false,
                ..row
            },
        );
    }
}
