// Pages leave, and frames are given back.
ghost use Rattle.std.specs.Prelude.{◌≡◌, ◌≤◌, false, true, None, Some, IfSome, IsSomeAnd};
ghost use Rattle.vm_frames.specs.Frames.{Releases, is_claimed};
ghost use Rattle.vm_resident.specs.Resident.{owner_of, row_at};
ghost use Rattle.vm_parts.specs.Changes.{Cancels, Discards, Removes};
ghost use Rattle.vm_parts.specs.Fits.{Fit};

use crate::HostParts;
use vm_base::{FrameNo, PageKey};
use vm_resident::PageRow;

impl HostParts {
    /// A page is asked no more: its row goes, and its frame is free.
    pub fn cancel(&mut self, key: PageKey)
        requires fit { Fit self.old }
        requires asked { IsSomeAnd (row_at self.old.resident key.object.0 key.page.0) (λ was. was.here ≡ false) }
        ensures fit { Fit self.new }
        ensures cancels { IfSome (row_at self.old.resident key.object.0 key.page.0) (λ was. Cancels key was self.old self.new) }
        ensures objects { self.new.objects ≡ self.old.objects }
        ensures buffers { self.new.buffers ≡ self.old.buffers }
        ensures room { self.old.resident.spare ≤ self.new.resident.spare }
    {
        let Some(was) = self.resident.remove(key) else {
            unreachable!()
        };
        self.frames.release(was.frame);
    }

    /// A page that is here leaves the host; its frame stays claimed, and is the caller's now.
    pub fn remove(&mut self, key: PageKey) -> PageRow
        requires fit { Fit self.old }
        requires here { IsSomeAnd (row_at self.old.resident key.object.0 key.page.0) (λ row. row.here ≡ true) }
        ensures fit { Fit self.new }
        ensures row { row_at self.old.resident key.object.0 key.page.0 ≡ Some result }
        ensures removes { Removes key result self.old self.new }
        ensures frames { self.new.frames ≡ self.old.frames }
        ensures objects { self.new.objects ≡ self.old.objects }
        ensures buffers { self.new.buffers ≡ self.old.buffers }
        ensures room { self.old.resident.spare ≤ self.new.resident.spare }
    {
        let Some(row) = self.resident.remove(key) else {
            unreachable!()
        };
        self.queues.remove(row.frame);
        row
    }

    /// A page that is here leaves the host, and its frame is free.
    pub fn discard(&mut self, key: PageKey)
        requires fit { Fit self.old }
        requires here { IsSomeAnd (row_at self.old.resident key.object.0 key.page.0) (λ row. row.here ≡ true) }
        ensures fit { Fit self.new }
        ensures discards { IfSome (row_at self.old.resident key.object.0 key.page.0) (λ row. Discards key row self.old self.new) }
        ensures objects { self.new.objects ≡ self.old.objects }
        ensures buffers { self.new.buffers ≡ self.old.buffers }
        ensures room { self.old.resident.spare ≤ self.new.resident.spare }
    {
        let row = self.remove(key);
        self.frames.release(row.frame);
    }

    /// Gives a claimed frame back that is no page's.
    pub fn release(&mut self, frame: FrameNo)
        requires fit { Fit self.old }
        requires claimed { is_claimed self.old.frames frame.0 ≡ true }
        requires unowned { owner_of self.old.resident frame.0 ≡ None }
        ensures fit { Fit self.new }
        ensures is { self.new ≡ record self.old { frames = self.new.frames } }
        ensures frames { Releases frame.0 self.old.frames self.new.frames }
    {
        self.frames.release(frame);
    }
}
