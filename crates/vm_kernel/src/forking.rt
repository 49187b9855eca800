// Forks and copies: a task gets entries on the regions of another, or on symmetric copies of them.
ghost use Rattle.std.specs.Prelude.{ℕ, ◌≡◌, ◌+◌, ◌<◌, ◌≤◌, ◌^◌, length, vec_capacity, IsOk, OnErr, OnOk, Some};
ghost use Rattle.vm_base.specs.declared.entry.Entry.{Entry as Row};
ghost use Rattle.vm_base.specs.declared.ids.Access.TheVariants as need;
ghost use Rattle.vm_base.specs.Entries.{InOrder, entry_at};
ghost use Rattle.vm_maps.specs.Judge.{IsAllowed, place_at};
ghost use Rattle.vm_maps.specs.Maps.{rows_in};
ghost use Rattle.vm_model.specs.declared.command.Command.TheVariants as command;
ghost use Rattle.vm_kernel.specs.Begun.{Doing, Given, HasBegun, Ran, Starts};
ghost use Rattle.vm_kernel.specs.Forking.{CanCopy, CanShare, EntersCopy, Shares};
ghost use Rattle.vm_kernel.specs.Plays.{Plays, paging};
ghost use Rattle.vm_kernel.specs.Rooms.{HasBuffers, HasMore, HasRoom, IsRoomy, KeepsSpare, Spends, dues, front, full_dues, making, of_entries};
ghost use Rattle.vm_kernel.specs.Rooms.{to_run};
ghost use Rattle.vm_kernel.specs.declared.breadth.Breadth.TheVariants as wide;
ghost use Rattle.vm_kernel.specs.Turns.{QueueIsStill, Restarted};
ghost use Rattle.vm_shadow.specs.declared.ids.Ids.{Ids as Numbers};

use crate::building::{entered, entering, whole_entry};
use crate::copying::is_paged;
use crate::counting::{count_of, set_count};
use crate::parts::Parts;
use vm_base::{Access, Entry, Inherit, NoMemory, RegionId, TaskId};
use vm_maps::Place;
use vm_model::{Event, Events};
use vm_shadow::Ids;

impl Parts {
    // A child of the task is made, with those of its entries that are to be shared, and one on a copy
    // for each that is to be copied; then whoever waited to push a page of a file is run again.
    pub fn fork(
        &mut self,
        ids: &mut Ids,
        task: TaskId,
        child: TaskId,
        log: &mut Events,
    ) -> Result<(), NoMemory>
        ghost given: { Doing }
        requires is { given.command ≡ command.Fork task child }
        requires starts { Starts given.header given.host given.command given.past self.old ids.old log.old.items }
        ensures ran { OnOk result (Ran given.header given.host given.outside given.command given.past self.new ids.new log.new.items) }
        ensures plays { OnOk result (Plays given.header given.past log.old.items (paging self.old) log.new.items (paging self.new)) }
        ensures restarts { OnOk result (Restarted given.header given.host self.new.waits.rows given.past self.old.waits.queue self.new.waits.queue
            log.new.items) }
        ensures few { OnOk result (length log.new.items + dues self.new ≤ length log.old.items + (full_dues self.old + of_entries task.0 self.old)) }
        ensures room { (more : ℕ) → HasMore (of_entries task.0 self.old) (of_entries task.0 self.old) more self.old log.old.room → HasBuffers self.old
            → OnOk result (HasRoom more self.new log.new.room × (0 < self.new.memory.buffers.count)) }
        ensures err { HasMore (of_entries task.0 self.old) (of_entries task.0 self.old) 0 self.old log.old.room
            → OnErr result ((self.new ≡ self.old) × ((ids.new ≡ ids.old) × (log.new.items ≡ log.old.items))) }
    {
        self.fork_entries(ids, task, child, log)?;
        self.restart(ids, log)
    }

    // A child of the task is made, with the entries that it gets.
    fn fork_entries(
        &mut self,
        ids: &mut Ids,
        task: TaskId,
        child: TaskId,
        log: &mut Events,
    ) -> Result<(), NoMemory>
        ghost given: { Given }
        requires { Starts given.header given.host (command.Fork task child) given.past self.old ids.old log.old.items }
        ensures begun { OnOk result (HasBegun given.header given.host given.outside (command.Fork task child) given.past self.new ids.new log.new.items) }
        ensures plays { OnOk result (Plays given.header given.past log.old.items (paging self.old) log.new.items (paging self.new)) }
        ensures quiet { OnOk result (QueueIsStill self.old.waits.queue self.new.waits.queue log.old.items log.new.items) }
        ensures spends { OnOk result (Spends (of_entries task.0 self.old) (of_entries task.0 self.old) 0 self.old log.old self.new log.new) }
        ensures err { IsRoomy (of_entries task.0 self.old) (of_entries task.0 self.old) self.old log.old.room
            → OnErr result ((self.new ≡ self.old) × ((ids.new ≡ ids.old) × (log.new.items ≡ log.old.items))) }
        ensures spare { OnOk result (KeepsSpare self.old self.new) }
    {
        self.maps.add_task(child)?;
        log.push(Event::TaskMade {
            task: child,
            host: self.host,
        })?;
        'all: for i in 0..self.maps.entries(task).len() {
            let entry = *self.maps.entries(task).at(i);
            match entry.inherit {
                Inherit::Share => self.share(child, entry, log)?,
                Inherit::Copy => {
                    if entry.region.0 < self.declared.len() {
                        self.enter_delayed(ids, child, entry.region, entry.offset, entry, log)?;
                    } else {
                        self.enter_copy(ids, child, entry.region, entry.offset, entry, log)?;
                    }
                }
                Inherit::Never => {}
            }
        }
        Ok(())
    }

    // A task gets a range on a copy of pages of another task's region; where that is a file's, whoever
    // waited to push a page of the file is run again.
    pub fn copy(
        &mut self,
        ids: &mut Ids,
        task: TaskId,
        address: u64,
        bytes: u64,
        target: TaskId,
        to: u64,
        log: &mut Events,
    ) -> Result<(), NoMemory>
        ghost given: { Doing }
        requires is { given.command ≡ command.Copy task address bytes target to }
        requires starts { Starts given.header given.host given.command given.past self.old ids.old log.old.items }
        ensures ran { OnOk result (Ran given.header given.host given.outside given.command given.past self.new ids.new log.new.items) }
        ensures plays { OnOk result (Plays given.header given.past log.old.items (paging self.old) log.new.items (paging self.new)) }
        ensures restarts { OnOk result (Restarted given.header given.host self.new.waits.rows given.past self.old.waits.queue self.new.waits.queue
            log.new.items) }
        ensures few { OnOk result (length log.new.items + dues self.new ≤ length log.old.items + (full_dues self.old + front wide.Frames self.old)) }
        ensures room { (more : ℕ) → HasMore (front wide.Frames self.old) (making wide.Frames self.old) more self.old log.old.room → 0 < self.old.waits.room
            → HasBuffers self.old
            → OnOk result (HasRoom more self.new log.new.room × (0 < self.new.memory.buffers.count)) }
        ensures err { HasMore (front wide.Frames self.old) (making wide.Frames self.old) 0 self.old log.old.room → 0 < self.old.waits.room → HasBuffers self.old
            → OnErr result ((self.new ≡ self.old) × ((ids.new ≡ ids.old) × (log.new.items ≡ log.old.items))) }
    {
        let place = self.place(task, address);
        if !is_paged(&self.declared, place.region) {
            return self.begin_copy(ids, task, address, bytes, to, log);
        }
        let range = whole_entry(to, bytes, place.region);
        if place.region.0 < self.declared.len() {
            self.enter_delayed(ids, target, place.region, place.page.0, range, log)?;
            return self.restart(ids, log);
        }
        self.enter_copy(ids, target, place.region, place.page.0, range, log)
    }

    // Where an address of a task leads that it may read; the task's entries stand in their order.
    fn place(&self, task: TaskId, address: u64) -> Place
        requires { IsAllowed self.now.maps task.0 address need.Load }
        ensures place { (entry : Row) → entry_at address (rows_in task.0 self.now.maps) ≡ Some entry → result ≡ place_at self.now.maps.size address entry }
        ensures order { InOrder 0 (2 ^ 32) (rows_in task.0 self.now.maps) }
    {
        let _ = self.maps.entries(task);
        let Ok(place) = self.maps.lookup(task, address, Access::Load) else {
            unreachable!()
        };
        place
    }

    // Gives a task an entry of another.
    fn share(&mut self, child: TaskId, entry: Entry, log: &mut Events) -> Result<(), NoMemory>
        requires { CanShare child.0 entry self.old }
        ensures shares { OnOk result (Shares child entry self.old self.new log.old.items log.new.items) }
        ensures spends { OnOk result (Spends 1 1 0 self.old log.old self.new log.new) }
        ensures succeeds { 0 < log.old.room → IsOk result }
        ensures spare { OnOk result (KeepsSpare self.old self.new) }
    {
        self.maps.enter(child, &entering(entry))?;
        let count = count_of(&self.chains, entry.region);
        set_count(&mut self.chains, entry.region, count + 1);
        log.push(entered(child, entry))
    }

    // Gives a task an entry for a range, on a symmetric copy of pages of a region.
    fn enter_copy(
        &mut self,
        ids: &mut Ids,
        task: TaskId,
        source: RegionId,
        offset: u32,
        range: Entry,
        log: &mut Events,
    ) -> Result<(), NoMemory>
        requires { CanCopy task.0 source offset range self.old ids.old }
        ensures enters { OnOk result (EntersCopy task source offset range self.old self.new ids.old ids.new log.old.items log.new.items) }
        ensures spends { OnOk result (Spends 4 4 0 self.old log.old self.new log.new) }
        ensures succeeds { IsRoomy 4 4 self.old log.old.room → IsOk result }
        ensures spare { OnOk result (KeepsSpare self.old self.new) }
    {
        let Some(row) = self.chains.region(source) else {
            unreachable!()
        };
        // The copy lies within the object, whose pages a `u32` counts.
        let Some(_top) = self.memory.objects.find(row.top) else {
            unreachable!()
        };
        let pages = (range.bytes / u64::from(self.size.bytes())) as u32;
        let copy = self.chains.symmetric(source, offset, pages, ids)?;
        self.memory.objects.refer(row.top);
        set_count(&mut self.chains, copy, 1);
        let entry = Entry {
            region: copy,
            offset: 0,
            ..range
        };
        self.maps.enter(task, &entering(entry))?;
        log.push(Event::RegionCopied {
            region: copy,
            source,
            offset,
            pages,
        })?;
        log.push(entered(task, entry))
    }
}
