// Pages become pages of other objects.
ghost use Rattle.std.specs.Prelude.{◌≡◌, ◌≢◌, ◌+◌, ◌≤◌, ◌<◌, true, None, IfSome, IsSome, IsSomeAnd};
ghost use Rattle.vm_objects.specs.Objects.{object_at};
ghost use Rattle.vm_resident.specs.Resident.{row_at};
ghost use Rattle.vm_parts.specs.Changes.{ShiftsPage};
ghost use Rattle.vm_parts.specs.Fits.{Fit, object_pages};
ghost use Rattle.vm_parts.specs.Merging.{NoneAsked, PageMerges, PagesMerge};

use crate::HostParts;
use vm_base::{ObjectId, PageKey, PageNo};

impl HostParts {
    /// A page that is here becomes another one, which is neither here nor asked; of an object that never
    /// had a control no page is asked. It keeps its row, its frame, and its place and mark on its list.
    /// No memory is taken, but the room of one row: what the page leaves isn't counted as room again.
    pub fn shift_page(&mut self, from: PageKey, to: PageKey)
        requires fit { Fit self.old }
        requires here { IsSomeAnd (row_at self.old.resident from.object.0 from.page.0) (λ row. row.here ≡ true) }
        requires vacant { row_at self.old.resident to.object.0 to.page.0 ≡ None }
        requires inside { to.page.0 < object_pages self.old.objects to.object.0 }
        requires room { 0 < self.old.resident.spare }
        ensures fit { Fit self.new }
        ensures shifts { IfSome (row_at self.old.resident from.object.0 from.page.0) (λ row. ShiftsPage from to row self.old self.new) }
        ensures objects { self.new.objects ≡ self.old.objects }
        ensures buffers { self.new.buffers ≡ self.old.buffers }
        ensures room { self.old.resident.spare ≤ self.new.resident.spare + 1 }
    {
        let Some(row) = self.resident.remove(from) else {
            unreachable!()
        };
        self.resident.insert(to, row);
    }

    /// The pages of an object that is merged into another, whose page 0 is over its page `shift`: each goes
    /// up where the upper has a place for it and no page there; all others go, and their frames are free.
    /// No memory is taken, but the room of one row for each page of the object.
    pub fn merge_pages(&mut self, upper: ObjectId, lower: ObjectId, shift: u32)
        requires fit { Fit self.old }
        requires upper { IsSome (object_at self.old.objects upper.0) }
        requires lower { IsSome (object_at self.old.objects lower.0) }
        requires apart { upper.0 ≢ lower.0 }
        requires here { NoneAsked self.old lower.0 }
        requires room { object_pages self.old.objects lower.0 ≤ self.old.resident.spare }
        ensures fit { Fit self.new }
        ensures merge { PagesMerge upper lower shift (object_pages self.old.objects upper.0) 0 self.old self.new }
        ensures objects { self.new.objects ≡ self.old.objects }
        ensures buffers { self.new.buffers ≡ self.old.buffers }
        ensures room { self.old.resident.spare ≤ self.new.resident.spare + object_pages self.old.objects lower.0 }
    {
        let Some(top) = self.objects.find(upper) else {
            unreachable!()
        };
        let Some(low) = self.objects.find(lower) else {
            unreachable!()
        };
        let mut from = PageNo(0);
        'pages: while from.0 < low.pages {
            let Some(page) = self.resident.next_page(lower, from) else {
                return;
            };
            let key = PageKey {
                object: lower,
                page,
            };
            self.merge_page(key, upper, shift, top.pages);
            from = PageNo(page.0 + 1);
        }
    }

    // One page of the lower object goes up, or goes.
    fn merge_page(&mut self, key: PageKey, upper: ObjectId, shift: u32, pages: u32)
        requires fit { Fit self.old }
        requires here { IsSomeAnd (row_at self.old.resident key.object.0 key.page.0) (λ row. row.here ≡ true) }
        requires pages { pages ≡ object_pages self.old.objects upper.0 }
        requires room { 0 < self.old.resident.spare }
        ensures fit { Fit self.new }
        ensures merges { IfSome (row_at self.old.resident key.object.0 key.page.0) (λ row. PageMerges upper shift pages key row self.old self.new) }
        ensures objects { self.new.objects ≡ self.old.objects }
        ensures buffers { self.new.buffers ≡ self.old.buffers }
        ensures room { self.old.resident.spare ≤ self.new.resident.spare + 1 }
    {
        if shift <= key.page.0 && key.page.0 - shift < pages {
            let to = PageKey {
                object: upper,
                page: PageNo(key.page.0 - shift),
            };
            if self.resident.get(to).is_none() {
                self.shift_page(key, to);
                return;
            }
        }
        self.discard(key);
    }
}
