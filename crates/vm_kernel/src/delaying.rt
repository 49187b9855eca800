// Delayed copies of files: a copy object stands between a file and its copies.
ghost use Rattle.std.specs.Prelude.{◌≡◌, ◌+◌, ◌<◌, ◌≤◌, IsOk, OnOk};
ghost use Rattle.vm_objects.specs.declared.row.ObjectRow.{ObjectRow};
ghost use Rattle.vm_kernel.specs.Delaying.{CanDelay, CanDelayFile, EntersDelayed, MakesCopy};
ghost use Rattle.vm_kernel.specs.Rooms.{IsRoomy, KeepsSpare, Spends};

use crate::building::{entered, entering};
use crate::parts::Parts;
use vm_base::{Entry, NoMemory, ObjectId, ObjectKind, RegionId, TaskId};
use vm_model::{Event, Events};
use vm_shadow::{Ids, RegionRow};

impl Parts {
    // Gives a task an entry for a range, on a delayed copy of pages of a file's region.
    pub fn enter_delayed(
        &mut self,
        ids: &mut Ids,
        task: TaskId,
        source: RegionId,
        offset: u32,
        range: Entry,
        log: &mut Events,
    ) -> Result<(), NoMemory>
        requires { CanDelay task.0 source range self.old ids.old }
        ensures enters { OnOk result (EntersDelayed task source offset range self.old self.new ids.old ids.new log.old.items log.new.items) }
        ensures spends { OnOk result (Spends 4 4 0 self.old log.old self.new log.new) }
        ensures succeeds { IsRoomy 4 4 self.old log.old.room → IsOk result }
        ensures spare { OnOk result (KeepsSpare self.old self.new) }
    {
        let pages = (range.bytes / u64::from(self.size.bytes())) as u32;
        let region = RegionId(ids.next_region);
        let copy = ObjectId(ids.next_object);
        self.free_pushers(ObjectId(source.0));
        self.make_copy_object(ObjectId(source.0), copy)?;
        let row = RegionRow {
            top: copy,
            shift: offset,
            pages,
            marked: true,
            entries: 1,
        };
        self.chains.make_region(region, row)?;
        ids.next_region += 1;
        ids.next_object += 1;
        ids.marks += 1;
        let entry = Entry {
            region,
            offset: 0,
            ..range
        };
        self.maps.enter(task, &entering(entry))?;
        log.push(Event::Delayed {
            region,
            source,
            offset,
            pages,
            copy,
        })?;
        log.push(entered(task, entry))
    }

    // Makes a copy object of a file, to which a region is to lead.
    fn make_copy_object(&mut self, file: ObjectId, copy: ObjectId) -> Result<(), NoMemory>
        requires { (row : ObjectRow) × CanDelayFile file.0 row self.old copy.0 }
        ensures makes { OnOk result ((row : ObjectRow) → CanDelayFile file.0 row self.old copy.0 → MakesCopy file copy row self.old self.new) }
        ensures succeeds { 0 < self.old.memory.objects.rows → 0 < self.old.chains.spare → 0 < self.old.copies.room → IsOk result }
        ensures rows { self.old.memory.objects.rows ≤ self.new.memory.objects.rows + 1 }
        ensures shadows { self.old.chains.spare ≤ self.new.chains.spare + 1 }
        ensures marked { OnOk result (self.new.chains.marked ≡ self.old.chains.marked) }
        ensures room { OnOk result (self.old.copies.room ≤ self.new.copies.room + 1) }
    {
        let Some(known) = self.memory.objects.find(file) else {
            unreachable!()
        };
        self.memory
            .objects
            .make(copy, ObjectKind::Temp, known.pages)?;
        self.memory.objects.refer(copy);
        let older = self.copies.begin(file, copy, known.pages)?;
        self.chains.stand(copy, file)?;
        match older {
            Some(older) => {
                self.chains.rebase(older, copy);
                self.memory.objects.refer(copy);
            }
            None => self.memory.objects.refer(file),
        }
        Ok(())
    }
}
