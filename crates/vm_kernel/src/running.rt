// The commands of a host.
ghost use Rattle.std.specs.Prelude.{ℕ, ◌≡◌, ◌+◌, ◌<◌, ◌≤◌, true, length, vec_capacity, OnErr, OnOk};
ghost use Rattle.vm_kernel.specs.Begun.{Given, Ran, Starts};
ghost use Rattle.vm_kernel.specs.Built.{changes_entries, kernel_runs};
ghost use Rattle.vm_kernel.specs.Endings.{EndsByAddress};
ghost use Rattle.vm_kernel.specs.Plays.{Plays, PlaysBy, may_reclaim, paging};
ghost use Rattle.vm_kernel.specs.Rooms.{HasBuffers, HasMore, HasReturns, HasRoom, breadth_of, dues, front, full_dues, making, to_run};
ghost use Rattle.vm_kernel.specs.Turns.{Restarted};

use crate::parts::Parts;
use vm_base::NoMemory;
use vm_model::{Command, Events};
use vm_shadow::Ids;

impl Parts {
    /// Runs one command.
    pub fn run(
        &mut self,
        command: &Command,
        ids: &mut Ids,
        log: &mut Events,
    ) -> Result<(), NoMemory>
        ghost given: { Given }
        requires starts { Starts given.header given.host command.now given.past self.old ids.old log.old.items }
        requires built { kernel_runs command.now ≡ true }
        ensures ran { OnOk result (Ran given.header given.host given.outside command.now given.past self.new ids.new log.new.items) }
        ensures plays { OnOk result (PlaysBy given.header (may_reclaim command.now self.old.waits.queue given.past) given.past log.old.items (paging self.old)
            log.new.items (paging self.new)) }
        ensures restarts { OnOk result (Restarted given.header given.host self.new.waits.rows given.past self.old.waits.queue self.new.waits.queue
            log.new.items) }
        ensures ends { OnOk result (EndsByAddress given.header given.past command.now log.new.items) }
        ensures few { OnOk result (length log.new.items + dues self.new ≤ length log.old.items + (full_dues self.old + front (breadth_of command.now)
            self.old)) }
        ensures room { (more : ℕ) → HasMore (front (breadth_of command.now) self.old) (making (breadth_of command.now) self.old) more self.old log.old.room
            → 0 < self.old.waits.room → HasBuffers self.old → HasReturns command.now self.old
            → OnOk result (HasRoom more self.new log.new.room × (0 < self.new.memory.buffers.count)) }
        ensures err { HasMore (front (breadth_of command.now) self.old) (making (breadth_of command.now) self.old) 0 self.old log.old.room
            → 0 < self.old.waits.room → HasBuffers self.old → HasReturns command.now self.old
            → OnErr result ((self.new ≡ self.old) × ((ids.new ≡ ids.old) × (log.new.items ≡ log.old.items))) }
    {
        self.memory.queues.stand_once();
        match command {
            Command::Task { task, .. } => self.make_task(ids, *task, log),
            Command::Fork { task, child } => self.fork(ids, *task, *child, log),
            Command::Copy {
                task,
                address,
                bytes,
                target,
                to,
            } => self.copy(ids, *task, *address, *bytes, *target, *to, log),
            Command::Exit { task } => self.exit(ids, *task, log),
            Command::Allocate { .. }
            | Command::Deallocate { .. }
            | Command::Protect { .. }
            | Command::Inherit { .. } => self.change_entries(command, ids, log),
            Command::Map {
                task,
                address,
                bytes,
                object,
                offset,
            } => self.map(ids, *task, *address, *bytes, *object, *offset, log),
            Command::Load {
                task,
                address,
                size,
            } => self.load(ids, *task, *address, *size, log),
            Command::Store {
                task,
                address,
                size,
                value,
            } => self.store(ids, *task, *address, *size, *value, log),
            Command::Pageout { count, .. } => self.pageout(ids, *count, log),
            Command::Wire { count, .. } => self.wire(ids, *count, log),
            Command::Unwire { count, .. } => self.unwire(ids, *count, log),
            _ => Ok(()),
        }
    }

    // Runs one command that changes a task's entries.
    fn change_entries(
        &mut self,
        command: &Command,
        ids: &mut Ids,
        log: &mut Events,
    ) -> Result<(), NoMemory>
        ghost given: { Given }
        requires starts { Starts given.header given.host command.now given.past self.old ids.old log.old.items }
        requires changes { changes_entries command.now ≡ true }
        ensures ran { OnOk result (Ran given.header given.host given.outside command.now given.past self.new ids.new log.new.items) }
        ensures plays { OnOk result (Plays given.header given.past log.old.items (paging self.old) log.new.items (paging self.new)) }
        ensures restarts { OnOk result (Restarted given.header given.host self.new.waits.rows given.past self.old.waits.queue self.new.waits.queue
            log.new.items) }
        ensures ends { OnOk result (EndsByAddress given.header given.past command.now log.new.items) }
        ensures few { OnOk result (length log.new.items + dues self.new ≤ length log.old.items + (full_dues self.old + front (breadth_of command.now)
            self.old)) }
        ensures room { (more : ℕ) → HasMore (front (breadth_of command.now) self.old) (making (breadth_of command.now) self.old) more self.old log.old.room
            → 0 < self.old.waits.room → HasBuffers self.old
            → OnOk result (HasRoom more self.new log.new.room × (0 < self.new.memory.buffers.count)) }
        ensures err { HasMore (front (breadth_of command.now) self.old) (making (breadth_of command.now) self.old) 0 self.old log.old.room
            → 0 < self.old.waits.room → HasBuffers self.old
            → OnErr result ((self.new ≡ self.old) × ((ids.new ≡ ids.old) × (log.new.items ≡ log.old.items))) }
    {
        self.memory.queues.stand_once();
        match command {
            Command::Allocate {
                task,
                address,
                bytes,
            } => self.allocate(ids, *task, *address, *bytes, log),
            Command::Deallocate {
                task,
                address,
                bytes,
            } => self.deallocate(ids, *task, *address, *bytes, log),
            Command::Protect {
                task,
                address,
                bytes,
                prot,
            } => self.protect(ids, *task, *address, *bytes, *prot, log),
            Command::Inherit {
                task,
                address,
                bytes,
                inherit,
            } => self.inherit(ids, *task, *address, *bytes, *inherit, log),
            _ => Ok(()),
        }
    }
}
