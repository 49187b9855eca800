// Declared objects are mapped.
ghost use Rattle.std.specs.Prelude.{◌≡◌, ◌<◌, ◌+◌, ◌^◌, ◌-◌, length, reverse, slice_get, true, ◌≤◌, IfSome, IsOk, IsSome, OnErr, OnOk, Some};
ghost use Rattle.vm_base.specs.declared.ids.RegionId.{RegionId};
ghost use Rattle.vm_model.specs.declared.command.Command.TheVariants as command;
ghost use Rattle.vm_objects.specs.Objects.{object_at};
ghost use Rattle.vm_shadow.specs.Chains.{region_at};
ghost use Rattle.vm_kernel.specs.Begun.{Ran, Given, Starts};
ghost use Rattle.vm_kernel.specs.Mapping.{Holds, Opens, can_open, shared_entry};
ghost use Rattle.vm_kernel.specs.Plays.{Plays, paging};
ghost use Rattle.vm_kernel.specs.Rooms.{IsRoomy, KeepsSpare, Spends};
ghost use Rattle.vm_kernel.specs.Turns.{QueueIsStill};

use crate::building::{entered, entering};
use crate::parts::Parts;
use vm_base::{Entry, Inherit, NoMemory, ObjectId, Prot, RegionId, TaskId};
use vm_model::{Channel, Event, Events, Message};
use vm_shadow::{Ids, RegionRow};

// The greatest number that a control of an object has.
const LAST_CONTROL: u32 = u32::MAX - 2;

// An entry on a declared region: readable, writable, and shared by a fork.
fn shared_entry(address: u64, bytes: u64, object: ObjectId, offset: u32) -> Entry
    ensures { result ≡ shared_entry address bytes object offset }
{
    Entry {
        address,
        bytes,
        region: RegionId(object.0),
        offset,
        prot: Prot {
            read: true,
            write: true,
        },
        inherit: Inherit::Share,
    }
}

impl Parts {
    /// A task gets an entry on the region of a declared object, whose pager is told of it where no
    /// control of it lives here.
    pub fn map(
        &mut self,
        ids: &Ids,
        task: TaskId,
        address: u64,
        bytes: u64,
        object: ObjectId,
        offset: u32,
        log: &mut Events,
    ) -> Result<(), NoMemory>
        ghost given: { Given }
        requires { Starts given.header given.host (command.Map task address bytes object offset) given.past self.old ids.now log.old.items }
        ensures ran { OnOk result (Ran given.header given.host given.outside (command.Map task address bytes object offset) given.past self.new ids.now
            log.new.items) }
        ensures plays { OnOk result (Plays given.header given.past log.old.items (paging self.old) log.new.items (paging self.new)) }
        ensures quiet { OnOk result (QueueIsStill self.old.waits.queue self.new.waits.queue log.old.items log.new.items) }
        ensures spends { OnOk result (Spends 2 2 0 self.old log.old self.new log.new) }
        ensures succeeds { IsRoomy 2 2 self.old log.old.room → IfSome (object_at self.old.memory.objects object.0) (λ known. known.control < 2 ^ 32 - 3)
            → IsOk result }
        ensures err { IsRoomy 2 2 self.old log.old.room → OnErr result ((self.new ≡ self.old) × (log.new.items ≡ log.old.items)) }
        ensures spare { OnOk result (KeepsSpare self.old self.new) }
    {
        if !self.can_open(object) {
            return Err(NoMemory);
        }
        let entry = shared_entry(address, bytes, object, offset);
        self.hold(object)?;
        self.maps.enter(task, &entering(entry))?;
        log.push(entered(task, entry))?;
        self.open(object, log)
    }

    // Whether a control of an object lives, or the next one can begin.
    fn can_open(&self, object: ObjectId) -> bool
        ensures { result ≡ can_open (object_at self.now.memory.objects object.0) }
    {
        let Some(known) = self.memory.objects.find(object) else {
            return true;
        };
        known.live || known.control < LAST_CONTROL
    }

    // One entry more leads to the region of a declared object, which is made where it isn't there.
    fn hold(&mut self, object: ObjectId) -> Result<(), NoMemory>
        requires declared { object.0 < length self.old.declared.items }
        requires few { IfSome (region_at self.old.chains object.0) (λ row. row.entries < 2 ^ 32 - 1) }
        requires referred { IfSome (object_at self.old.memory.objects object.0) (λ row. row.references < 2 ^ 32 - 1) }
        ensures holds { OnOk result (IfSome (slice_get (reverse self.old.declared.items) object.0) (λ declared. Holds object declared self.old self.new)) }
        ensures succeeds { 0 < self.old.memory.objects.rows → 0 < self.old.chains.spare → IsOk result }
        ensures objects { self.old.memory.objects.rows ≤ self.new.memory.objects.rows + 1 }
        ensures shadows { self.old.chains.spare ≤ self.new.chains.spare + 1 }
        ensures marked { self.new.chains.marked ≡ self.old.chains.marked }
    {
        let region = RegionId(object.0);
        if let Some(row) = self.chains.region(region) {
            self.chains.set_entries(region, row.entries + 1);
            return Ok(());
        }
        let declared = *self.declared.at(object.0);
        if self.memory.objects.find(object).is_none() {
            self.memory
                .objects
                .make(object, declared.kind, declared.pages)?;
        }
        self.memory.objects.refer(object);
        let row = RegionRow {
            top: object,
            shift: 0,
            pages: declared.pages,
            marked: false,
            entries: 1,
        };
        self.chains.make_region(region, row)
    }

    // Where no control of an object lives the next one begins, and the object's pager is told of it.
    fn open(&mut self, object: ObjectId, log: &mut Events) -> Result<(), NoMemory>
        requires known { IsSome (object_at self.old.memory.objects object.0) }
        ensures opens { OnOk result (IfSome (object_at self.old.memory.objects object.0)
            (λ known. Opens object known self.old self.new log.old.items log.new.items)) }
        ensures succeeds { IfSome (object_at self.old.memory.objects object.0) (λ known. known.control < 2 ^ 32 - 3 → 0 < log.old.room → IsOk result) }
        ensures can { can_open (object_at self.old.memory.objects object.0) ≡ true → 0 < log.old.room → IsOk result }
        ensures objects { self.new.memory.objects.rows ≡ self.old.memory.objects.rows }
        ensures room { log.old.room ≤ log.new.room + 1 }
    {
        let Some(known) = self.memory.objects.find(object) else {
            unreachable!()
        };
        if known.live {
            return Ok(());
        }
        if known.control >= LAST_CONTROL {
            return Err(NoMemory);
        }
        let control = self.memory.objects.begin_control(object);
        log.push(Event::Sent {
            channel: Channel::Up {
                host: self.host,
                object,
            },
            message: Message::Init {
                control,
                size: self.size.bytes(),
            },
        })
    }
}
