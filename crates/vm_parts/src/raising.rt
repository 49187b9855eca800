// Pages of a shadow chain are copied up, and unlocks of pages are noted.
ghost use Rattle.std.specs.Prelude.{◌≡◌, ◌+◌, ◌<◌, true, None, IfSome, IsSomeAnd};
ghost use Rattle.vm_frames.specs.Frames.{free, page_in};
ghost use Rattle.vm_resident.specs.Resident.{row_at};
ghost use Rattle.vm_parts.specs.Changes.{NotesUnlock, RaisesPage};
ghost use Rattle.vm_parts.specs.Fits.{Fit, object_pages};

use crate::HostParts;
use crate::pages::UNLOCKED;
use vm_base::{FrameNo, PageKey};
use vm_resident::PageRow;

impl HostParts {
    /// Puts a page that isn't here into a free frame, as a copy of one that is. No pager has the copy
    /// yet, so it is dirty.
    pub fn raise(&mut self, from: PageKey, key: PageKey) -> FrameNo
        requires fit { Fit self.old }
        requires here { IsSomeAnd (row_at self.old.resident from.object.0 from.page.0) (λ row. row.here ≡ true) }
        requires absent { row_at self.old.resident key.object.0 key.page.0 ≡ None }
        requires inside { key.page.0 < object_pages self.old.objects key.object.0 }
        requires free { 0 < free self.old.frames }
        requires room { 0 < self.old.resident.spare }
        ensures fit { Fit self.new }
        ensures raises { IfSome (row_at self.old.resident from.object.0 from.page.0)
            (λ row. RaisesPage key result (page_in self.old.frames row.frame.0) self.old self.new) }
        ensures objects { self.new.objects ≡ self.old.objects }
        ensures buffers { self.new.buffers ≡ self.old.buffers }
        ensures room { self.old.resident.spare ≡ self.new.resident.spare + 1 }
    {
        let Some(source) = self.resident.get(from) else {
            unreachable!()
        };
        let Some(frame) = self.frames.claim() else {
            unreachable!()
        };
        self.frames.copy(source.frame, frame);
        let row = PageRow {
            frame,
            lock: UNLOCKED,
            dirty: true,
            precious: false,
            here: true,
            unlock_sent: false,
        };
        self.resident.insert(key, row);
        self.queues.add(frame);
        frame
    }

    /// Notes that an unlock of a page that is here is outstanding.
    pub fn note_unlock(&mut self, key: PageKey)
        requires fit { Fit self.old }
        requires here { IsSomeAnd (row_at self.old.resident key.object.0 key.page.0) (λ row. row.here ≡ true) }
        ensures fit { Fit self.new }
        ensures notes { IfSome (row_at self.old.resident key.object.0 key.page.0) (λ row. NotesUnlock key row self.old self.new) }
        ensures objects { self.new.objects ≡ self.old.objects }
        ensures buffers { self.new.buffers ≡ self.old.buffers }
        ensures room { self.new.resident.spare ≡ self.old.resident.spare }
    {
        let Some(row) = self.resident.get(key) else {
            unreachable!()
        };
        self.resident.set(
            key,
            PageRow {
                unlock_sent: true,
                ..row
            },
        );
    }
}
