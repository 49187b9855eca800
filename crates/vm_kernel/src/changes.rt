// The commands that change a task's entries.
ghost use Rattle.std.specs.Prelude.{◌≡◌, ◌+◌, OnErr, OnOk, length};
ghost use Rattle.vm_model.specs.declared.command.Command.TheVariants as command;
ghost use Rattle.vm_kernel.specs.Begun.{Ran, Doing, Given, Starts};
ghost use Rattle.vm_kernel.specs.Changes.{enter, inheritance, protection, removal};
ghost use Rattle.vm_kernel.specs.Endings.{EndsByAddress};
ghost use Rattle.vm_kernel.specs.Plays.{Plays, paging};
ghost use Rattle.vm_kernel.specs.Rooms.{HasBuffers, IsRoomy, KeepsSpare, Spends, leaving};
ghost use Rattle.vm_kernel.specs.Turns.{QueueIsStill};
ghost use Rattle.vm_maps.specs.Maps.{rows_in};

use crate::counting::{count_cuts, cuts_of};
use crate::parts::Parts;
use vm_base::{Inherit, NoMemory, Prot, TaskId};
use vm_maps::{MapChange, MapKind};
use vm_model::{Event, Events};
use vm_shadow::Ids;

const NO_ACCESS: Prot = Prot {
    read: false,
    write: false,
};

/// That the range gets some entry: what is asked before the entry is known.
pub fn enter(address: u64, bytes: u64) -> MapChange
    ensures { result ≡ enter address bytes }
{
    MapChange {
        kind: MapKind::Enter,
        address,
        bytes,
        entry: None,
        prot: NO_ACCESS,
        inherit: Inherit::Never,
    }
}

/// That the range is unmapped.
pub fn removal(address: u64, bytes: u64) -> MapChange
    ensures { result ≡ removal address bytes }
{
    MapChange {
        kind: MapKind::Remove,
        address,
        bytes,
        entry: None,
        prot: NO_ACCESS,
        inherit: Inherit::Never,
    }
}

/// That the range gets a protection.
pub fn protection(address: u64, bytes: u64, prot: Prot) -> MapChange
    ensures { result ≡ protection address bytes prot }
{
    MapChange {
        kind: MapKind::Protect,
        address,
        bytes,
        entry: None,
        prot,
        inherit: Inherit::Never,
    }
}

/// That the range gets an inheritance.
pub fn inheritance(address: u64, bytes: u64, inherit: Inherit) -> MapChange
    ensures { result ≡ inheritance address bytes inherit }
{
    MapChange {
        kind: MapKind::Inherit,
        address,
        bytes,
        entry: None,
        prot: NO_ACCESS,
        inherit,
    }
}

impl Parts {
    // The task ends.
    pub fn exit(&mut self, ids: &Ids, task: TaskId, log: &mut Events) -> Result<(), NoMemory>
        ghost given: { Doing }
        requires is { given.command ≡ command.Exit task }
        requires starts { Starts given.header given.host given.command given.past self.old ids.now log.old.items }
        ensures ran { OnOk result (Ran given.header given.host given.outside given.command given.past self.new ids.now log.new.items) }
        ensures plays { OnOk result (Plays given.header given.past log.old.items (paging self.old) log.new.items (paging self.new)) }
        ensures quiet { OnOk result (QueueIsStill self.old.waits.queue self.new.waits.queue log.old.items log.new.items) }
        ensures ends { OnOk result (EndsByAddress given.header given.past given.command log.new.items) }
        ensures spends { OnOk result (Spends (1 + leaving self.old ids.now + length (rows_in task.0 self.old.maps)) 0 0 self.old log.old self.new log.new) }
        ensures err { IsRoomy (1 + leaving self.old ids.now + length (rows_in task.0 self.old.maps)) 0 self.old log.old.room → HasBuffers self.old
            → OnErr result ((self.new ≡ self.old) × (log.new.items ≡ log.old.items)) }
        ensures buffers { OnOk result (HasBuffers self.old → HasBuffers self.new) }
    {
        let mut losers = self.room_to_merge(self.entry_count(task))?;
        let gone = self.maps.end_task(task);
        log.push(Event::TaskEnded { task })?;
        self.sweep_and_merge(ids, &gone, &mut losers, log)
    }

    // The range is unmapped.
    pub fn deallocate(
        &mut self,
        ids: &Ids,
        task: TaskId,
        address: u64,
        bytes: u64,
        log: &mut Events,
    ) -> Result<(), NoMemory>
        ghost given: { Doing }
        requires is { given.command ≡ command.Deallocate task address bytes }
        requires starts { Starts given.header given.host given.command given.past self.old ids.now log.old.items }
        ensures ran { OnOk result (Ran given.header given.host given.outside given.command given.past self.new ids.now log.new.items) }
        ensures plays { OnOk result (Plays given.header given.past log.old.items (paging self.old) log.new.items (paging self.new)) }
        ensures quiet { OnOk result (QueueIsStill self.old.waits.queue self.new.waits.queue log.old.items log.new.items) }
        ensures ends { OnOk result (EndsByAddress given.header given.past given.command log.new.items) }
        ensures spends { OnOk result (Spends (1 + leaving self.old ids.now + length (rows_in task.0 self.old.maps)) 0 0 self.old log.old self.new log.new) }
        ensures err { IsRoomy (1 + leaving self.old ids.now + length (rows_in task.0 self.old.maps)) 0 self.old log.old.room → HasBuffers self.old
            → OnErr result ((self.new ≡ self.old) × (log.new.items ≡ log.old.items)) }
        ensures buffers { OnOk result (HasBuffers self.old → HasBuffers self.new) }
    {
        let promised = self.memory.resident.promised();
        let mut losers = self.room_to_merge(self.entry_count(task))?;
        let cuts = cuts_of(&self.maps, task, address, bytes);
        let Ok(gone) = self.maps.remove(task, &removal(address, bytes)) else {
            self.memory.resident.keep(promised);
            return Err(NoMemory);
        };
        count_cuts(&mut self.chains, cuts);
        log.push(Event::Removed {
            task,
            address,
            bytes,
        })?;
        self.sweep_and_merge(ids, &gone, &mut losers, log)
    }

    // The range gets a protection.
    pub fn protect(
        &mut self,
        ids: &Ids,
        task: TaskId,
        address: u64,
        bytes: u64,
        prot: Prot,
        log: &mut Events,
    ) -> Result<(), NoMemory>
        ghost given: { Given }
        requires { Starts given.header given.host (command.Protect task address bytes prot) given.past self.old ids.now log.old.items }
        ensures ran { OnOk result (Ran given.header given.host given.outside (command.Protect task address bytes prot) given.past self.new ids.now
            log.new.items) }
        ensures plays { OnOk result (Plays given.header given.past log.old.items (paging self.old) log.new.items (paging self.new)) }
        ensures quiet { OnOk result (QueueIsStill self.old.waits.queue self.new.waits.queue log.old.items log.new.items) }
        ensures spends { OnOk result (Spends 1 1 0 self.old log.old self.new log.new) }
        ensures err { IsRoomy 1 1 self.old log.old.room → OnErr result ((self.new ≡ self.old) × (log.new.items ≡ log.old.items)) }
        ensures spare { OnOk result (KeepsSpare self.old self.new) }
    {
        let cuts = cuts_of(&self.maps, task, address, bytes);
        self.maps.set_prot(task, &protection(address, bytes, prot));
        count_cuts(&mut self.chains, cuts);
        log.push(Event::Protected {
            task,
            address,
            bytes,
            prot,
        })
    }

    // The range gets an inheritance.
    pub fn inherit(
        &mut self,
        ids: &Ids,
        task: TaskId,
        address: u64,
        bytes: u64,
        inherit: Inherit,
        log: &mut Events,
    ) -> Result<(), NoMemory>
        ghost given: { Given }
        requires { Starts given.header given.host (command.Inherit task address bytes inherit) given.past self.old ids.now log.old.items }
        ensures ran { OnOk result (Ran given.header given.host given.outside (command.Inherit task address bytes inherit) given.past self.new ids.now
            log.new.items) }
        ensures plays { OnOk result (Plays given.header given.past log.old.items (paging self.old) log.new.items (paging self.new)) }
        ensures quiet { OnOk result (QueueIsStill self.old.waits.queue self.new.waits.queue log.old.items log.new.items) }
        ensures spends { OnOk result (Spends 1 1 0 self.old log.old self.new log.new) }
        ensures err { IsRoomy 1 1 self.old log.old.room → OnErr result ((self.new ≡ self.old) × (log.new.items ≡ log.old.items)) }
        ensures spare { OnOk result (KeepsSpare self.old self.new) }
    {
        let cuts = cuts_of(&self.maps, task, address, bytes);
        self.maps
            .set_inherit(task, &inheritance(address, bytes, inherit));
        count_cuts(&mut self.chains, cuts);
        log.push(Event::Inherited {
            task,
            address,
            bytes,
            inherit,
        })
    }
}
