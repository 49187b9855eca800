// Slow copies.
ghost use Rattle.std.specs.Prelude.{ℕ, ◌≡◌, ◌+◌, ◌<◌, ◌≤◌, ◌^◌, false, true, length, vec_capacity, IsOk, OnOk, Some};
ghost use Rattle.vm_base.specs.declared.entry.Entry.{Entry as Row};
ghost use Rattle.vm_base.specs.Entries.{InOrder, entry_at};
ghost use Rattle.vm_fault.specs.Walks.{is_copying};
ghost use Rattle.vm_maps.specs.Maps.{rows_in};
ghost use Rattle.vm_model.specs.declared.command.Command.TheVariants as command;
ghost use Rattle.vm_kernel.specs.Begun.{Doing, Ran, Starts};
ghost use Rattle.vm_kernel.specs.Plays.{Plays, paging};
ghost use Rattle.vm_kernel.specs.Refusing.{is_paged};
ghost use Rattle.vm_kernel.specs.Rooms.{HasMore, HasRoom, KeepsSpare, dues, front, full_dues, making};
ghost use Rattle.vm_kernel.specs.Slow.{CanEndCopy, EndsCopyIn};
ghost use Rattle.vm_kernel.specs.Turns.{Restarted};
ghost use Rattle.vm_kernel.specs.declared.breadth.Breadth.TheVariants as wide;

use crate::building::{entered, entering, whole_entry};
use crate::counting::set_count;
use crate::parts::Parts;
use vm_base::{NoMemory, ObjectId, RegionId, TaskId};
use vm_model::{Event, Events};
use vm_shadow::Ids;
use vm_waits::{Destination, Waiting, Want};

impl Parts {
    // A slow copy begins: its region and the object under it are made at once, and its pages are copied
    // as far as they can be had.
    pub fn begin_copy(
        &mut self,
        ids: &mut Ids,
        task: TaskId,
        address: u64,
        bytes: u64,
        to: u64,
        log: &mut Events,
    ) -> Result<(), NoMemory>
        ghost given: { Doing }
        requires is { given.command ≡ command.Copy task address bytes task to }
        requires starts { Starts given.header given.host given.command given.past self.old ids.old log.old.items }
        requires slow { (entry : Row) → entry_at address (rows_in task.0 self.old.maps) ≡ Some entry → is_paged self.old.declared.items entry.region.0 ≡ false }
        requires order { InOrder 0 (2 ^ 32) (rows_in task.0 self.old.maps) }
        ensures ran { OnOk result (Ran given.header given.host given.outside given.command given.past self.new ids.new log.new.items) }
        ensures plays { OnOk result (Plays given.header given.past log.old.items (paging self.old) log.new.items (paging self.new)) }
        ensures restarts { OnOk result (Restarted given.header given.host self.new.waits.rows given.past self.old.waits.queue self.new.waits.queue
            log.new.items) }
        ensures few { OnOk result (length log.new.items + dues self.new ≤ length log.old.items + (full_dues self.old + front wide.Frames self.old)) }
        ensures room { (more : ℕ) → HasMore (front wide.Frames self.old) (making wide.Frames self.old) more self.old log.old.room → 0 < self.old.waits.room
            → OnOk result (HasRoom more self.new log.new.room) × IsOk result }
        ensures spare { OnOk result (self.old.memory.buffers.count ≤ self.new.memory.buffers.count) }
    {
        self.waits.reserve(1)?;
        let pages = (bytes / u64::from(self.size.bytes())) as u32;
        let region = RegionId(ids.next_region);
        let target = ObjectId(ids.next_object);
        self.make_range(region, target, pages, 0)?;
        ids.next_region += 1;
        ids.next_object += 1;
        log.push(Event::BegunCopy {
            task,
            address,
            bytes,
            to,
        })?;
        log.push(Event::RegionMade {
            region,
            object: target,
            pages,
        })?;
        let want = Want::CopyTo {
            address,
            pages,
            target,
            next: 0,
        };
        let destination = Destination {
            region,
            address: to,
        };
        self.waits.begin(task, want, Some(destination));
        self.restart(ids, log)
    }

    // A slow copy whose pages are all copied ends: what it filled is mapped. A load or a store changes
    // nothing.
    pub fn end_copy(&mut self, waiting: Waiting, log: &mut Events) -> Result<(), NoMemory>
        requires { CanEndCopy waiting self.old }
        ensures ends { OnOk result (EndsCopyIn waiting self.old self.new log.old.items log.new.items) }
        ensures room { OnOk result (log.old.room + length log.old.items ≤ log.new.room + length log.new.items) }
        ensures spare { OnOk result (KeepsSpare self.old self.new) }
        ensures chains { OnOk result ((self.new.chains.spare ≡ self.old.chains.spare) × (self.new.chains.marked ≡ self.old.chains.marked)) }
        ensures succeeds { (is_copying waiting.want ≡ true → 2 ≤ log.old.room) → IsOk result }
    {
        let Want::CopyTo { pages, .. } = waiting.want else {
            return Ok(());
        };
        let Some(destination) = waiting.destination else {
            return Ok(());
        };
        let bytes = u64::from(pages) * u64::from(self.size.bytes());
        let entry = whole_entry(destination.address, bytes, destination.region);
        self.maps.enter(waiting.task, &entering(entry))?;
        set_count(&mut self.chains, destination.region, 1);
        log.push(Event::CopyEnded { task: waiting.task })?;
        log.push(entered(waiting.task, entry))
    }
}
