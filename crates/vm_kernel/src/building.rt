// Tasks and ranges are made, and frames are wired.
ghost use Rattle.std.specs.Prelude.{◌≡◌, ◌∷◌, ◌+◌, ◌<◌, ◌≤◌, IsOk, OnErr, OnOk, None};
ghost use Rattle.vm_model.specs.declared.command.Command.TheVariants as command;
ghost use Rattle.vm_kernel.specs.Begun.{Ran, Given, Starts};
ghost use Rattle.vm_kernel.specs.Changes.{MadeRange, entering, whole_entry};
ghost use Rattle.vm_kernel.specs.Forking.{got};
ghost use Rattle.vm_model.specs.declared.event.Event.TheVariants as event;
ghost use Rattle.vm_objects.specs.Objects.{object_at};
ghost use Rattle.vm_shadow.specs.Chains.{region_at};
ghost use Rattle.vm_kernel.specs.Matches.{host_id};
ghost use Rattle.vm_kernel.specs.Plays.{Plays, paging};
ghost use Rattle.vm_kernel.specs.Rooms.{IsRoomy, KeepsSpare, Spends};
ghost use Rattle.vm_kernel.specs.Turns.{QueueIsStill};

use crate::parts::Parts;
use vm_base::{Entry, Inherit, NoMemory, ObjectId, ObjectKind, Prot, RegionId, TaskId};
use vm_maps::{MapChange, MapKind};
use vm_model::{Event, Events};
use vm_shadow::{Ids, RegionRow};

// An entry on the whole of a region: readable, writable, and copied by a fork.
pub fn whole_entry(address: u64, bytes: u64, region: RegionId) -> Entry
    ensures { result ≡ whole_entry address bytes region }
{
    Entry {
        address,
        bytes,
        region,
        offset: 0,
        prot: Prot {
            read: true,
            write: true,
        },
        inherit: Inherit::Copy,
    }
}

// That an entry is entered.
pub fn entering(entry: Entry) -> MapChange
    ensures { result ≡ entering entry }
{
    MapChange {
        kind: MapKind::Enter,
        address: entry.address,
        bytes: entry.bytes,
        entry: Some(entry),
        prot: entry.prot,
        inherit: entry.inherit,
    }
}

// That a task got an entry.
pub fn entered(task: TaskId, entry: Entry) -> Event
    ensures { result ≡ got task entry }
{
    Event::Entered {
        task,
        address: entry.address,
        bytes: entry.bytes,
        region: entry.region,
        offset: entry.offset,
        prot: entry.prot,
        inherit: entry.inherit,
    }
}

impl Parts {
    pub fn make_task(&mut self, ids: &Ids, task: TaskId, log: &mut Events) -> Result<(), NoMemory>
        ghost given: { Given }
        requires { Starts given.header given.host (command.Task task (host_id given.host)) given.past self.old ids.now log.old.items }
        ensures ran { OnOk result (Ran given.header given.host given.outside (command.Task task (host_id given.host)) given.past self.new ids.now
            log.new.items) }
        ensures plays { OnOk result (Plays given.header given.past log.old.items (paging self.old) log.new.items (paging self.new)) }
        ensures quiet { OnOk result (QueueIsStill self.old.waits.queue self.new.waits.queue log.old.items log.new.items) }
        ensures spends { OnOk result (Spends 1 1 0 self.old log.old self.new log.new) }
        ensures err { IsRoomy 1 1 self.old log.old.room → OnErr result ((self.new ≡ self.old) × (log.new.items ≡ log.old.items)) }
        ensures spare { OnOk result (KeepsSpare self.old self.new) }
    {
        self.maps.add_task(task)?;
        log.push(Event::TaskMade {
            task,
            host: self.host,
        })
    }

    pub fn allocate(
        &mut self,
        ids: &mut Ids,
        task: TaskId,
        address: u64,
        bytes: u64,
        log: &mut Events,
    ) -> Result<(), NoMemory>
        ghost given: { Given }
        requires { Starts given.header given.host (command.Allocate task address bytes) given.past self.old ids.old log.old.items }
        ensures ran { OnOk result (Ran given.header given.host given.outside (command.Allocate task address bytes) given.past self.new ids.new log.new.items) }
        ensures plays { OnOk result (Plays given.header given.past log.old.items (paging self.old) log.new.items (paging self.new)) }
        ensures quiet { OnOk result (QueueIsStill self.old.waits.queue self.new.waits.queue log.old.items log.new.items) }
        ensures spends { OnOk result (Spends 2 2 0 self.old log.old self.new log.new) }
        ensures succeeds { IsRoomy 2 2 self.old log.old.room → IsOk result }
        ensures spare { OnOk result (KeepsSpare self.old self.new) }
    {
        let pages = (bytes / u64::from(self.size.bytes())) as u32;
        let region = RegionId(ids.next_region);
        let object = ObjectId(ids.next_object);
        self.make_range(region, object, pages, 1)?;
        let entry = whole_entry(address, bytes, region);
        self.maps.enter(task, &entering(entry))?;
        ids.next_region += 1;
        ids.next_object += 1;
        log.push(Event::RegionMade {
            region,
            object,
            pages,
        })?;
        log.push(entered(task, entry))
    }

    // Makes a region over a new object, and counts so many entries.
    pub fn make_range(
        &mut self,
        region: RegionId,
        object: ObjectId,
        pages: u32,
        entries: u32,
    ) -> Result<(), NoMemory>
        requires absent { region_at self.old.chains region.0 ≡ None }
        requires unknown { object_at self.old.memory.objects object.0 ≡ None }
        ensures made { OnOk result (MadeRange region object pages entries self.old self.new) }
        ensures succeeds { 0 < self.old.memory.objects.rows → 0 < self.old.chains.spare → IsOk result }
        ensures objects { self.old.memory.objects.rows ≤ self.new.memory.objects.rows + 1 }
        ensures shadows { self.old.chains.spare ≤ self.new.chains.spare + 1 }
        ensures marked { self.new.chains.marked ≡ self.old.chains.marked }
    {
        self.memory.objects.make(object, ObjectKind::Temp, pages)?;
        self.memory.objects.refer(object);
        let row = RegionRow {
            top: object,
            shift: 0,
            pages,
            marked: false,
            entries,
        };
        self.chains.make_region(region, row)
    }

    pub fn wire(&mut self, ids: &Ids, count: u32, log: &mut Events) -> Result<(), NoMemory>
        ghost given: { Given }
        requires { Starts given.header given.host (command.Wire (host_id given.host) count) given.past self.old ids.now log.old.items }
        ensures ran { OnOk result (Ran given.header given.host given.outside (command.Wire (host_id given.host) count) given.past self.new ids.now
            log.new.items) }
        ensures plays { OnOk result (Plays given.header given.past log.old.items (paging self.old) log.new.items (paging self.new)) }
        ensures quiet { OnOk result (QueueIsStill self.old.waits.queue self.new.waits.queue log.old.items log.new.items) }
        ensures spends { OnOk result (Spends 1 1 0 self.old log.old self.new log.new) }
        ensures succeeds { IsRoomy 1 1 self.old log.old.room → IsOk result }
        ensures spare { OnOk result (KeepsSpare self.old self.new) }
    {
        let _ = self.memory.frames.wire(count);
        self.tell_wired(log)
    }

    pub fn unwire(&mut self, ids: &Ids, count: u32, log: &mut Events) -> Result<(), NoMemory>
        ghost given: { Given }
        requires { Starts given.header given.host (command.Unwire (host_id given.host) count) given.past self.old ids.now log.old.items }
        ensures ran { OnOk result (Ran given.header given.host given.outside (command.Unwire (host_id given.host) count) given.past self.new ids.now
            log.new.items) }
        ensures plays { OnOk result (Plays given.header given.past log.old.items (paging self.old) log.new.items (paging self.new)) }
        ensures quiet { OnOk result (QueueIsStill self.old.waits.queue self.new.waits.queue log.old.items log.new.items) }
        ensures spends { OnOk result (Spends 1 1 0 self.old log.old self.new log.new) }
        ensures succeeds { IsRoomy 1 1 self.old log.old.room → IsOk result }
        ensures spare { OnOk result (KeepsSpare self.old self.new) }
    {
        let _ = self.memory.frames.unwire(count);
        self.tell_wired(log)
    }

    // Tells how many frames are wired now.
    fn tell_wired(&self, log: &mut Events) -> Result<(), NoMemory>
        ensures told { OnOk result (log.new.items ≡ event.Wired self.now.host self.now.memory.frames.wired ∷ log.old.items) }
        ensures succeeds { 0 < log.old.room → IsOk result }
        ensures room { log.old.room ≤ log.new.room + 1 }
    {
        log.push(Event::Wired {
            host: self.host,
            count: self.memory.frames.wired(),
        })
    }
}
