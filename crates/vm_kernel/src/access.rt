// Loads and stores begin.
ghost use Rattle.std.specs.Prelude.{ℕ, ◌≡◌, ◌+◌, ◌<◌, ◌≤◌, length, vec_capacity, IsOk, OnOk};
ghost use Rattle.vm_model.specs.declared.command.Command.TheVariants as command;
ghost use Rattle.vm_kernel.specs.Begun.{Doing, Ran, Starts};
ghost use Rattle.vm_kernel.specs.Plays.{Plays, paging};
ghost use Rattle.vm_kernel.specs.Rooms.{HasMore, HasRoom, dues, full_dues, to_run};
ghost use Rattle.vm_kernel.specs.Turns.{Restarted};

use crate::parts::Parts;
use vm_base::{NoMemory, TaskId};
use vm_model::{Event, Events};
use vm_shadow::Ids;
use vm_waits::Want;

impl Parts {
    pub fn load(
        &mut self,
        ids: &mut Ids,
        task: TaskId,
        address: u64,
        size: u32,
        log: &mut Events,
    ) -> Result<(), NoMemory>
        ghost given: { Doing }
        requires is { given.command ≡ command.Load task address size }
        requires starts { Starts given.header given.host given.command given.past self.old ids.old log.old.items }
        ensures ran { OnOk result (Ran given.header given.host given.outside given.command given.past self.new ids.new log.new.items) }
        ensures plays { OnOk result (Plays given.header given.past log.old.items (paging self.old) log.new.items (paging self.new)) }
        ensures restarts { OnOk result (Restarted given.header given.host self.new.waits.rows given.past self.old.waits.queue self.new.waits.queue
            log.new.items) }
        ensures few { OnOk result (length log.new.items + dues self.new ≤ length log.old.items + (full_dues self.old + 4)) }
        ensures room { (more : ℕ) → HasMore 4 4 more self.old log.old.room → 0 < self.old.waits.room → OnOk result (HasRoom more self.new log.new.room)
            × IsOk result }
        ensures spare { OnOk result (self.old.memory.buffers.count ≤ self.new.memory.buffers.count) }
    {
        self.waits.reserve(1)?;
        log.push(Event::BegunLoad {
            task,
            address,
            size,
        })?;
        self.waits.begin(task, Want::Load { address, size }, None);
        self.restart(ids, log)
    }

    pub fn store(
        &mut self,
        ids: &mut Ids,
        task: TaskId,
        address: u64,
        size: u32,
        value: u64,
        log: &mut Events,
    ) -> Result<(), NoMemory>
        ghost given: { Doing }
        requires is { given.command ≡ command.Store task address size value }
        requires starts { Starts given.header given.host given.command given.past self.old ids.old log.old.items }
        ensures ran { OnOk result (Ran given.header given.host given.outside given.command given.past self.new ids.new log.new.items) }
        ensures plays { OnOk result (Plays given.header given.past log.old.items (paging self.old) log.new.items (paging self.new)) }
        ensures restarts { OnOk result (Restarted given.header given.host self.new.waits.rows given.past self.old.waits.queue self.new.waits.queue
            log.new.items) }
        ensures few { OnOk result (length log.new.items + dues self.new ≤ length log.old.items + (full_dues self.old + 4)) }
        ensures room { (more : ℕ) → HasMore 4 4 more self.old log.old.room → 0 < self.old.waits.room → OnOk result (HasRoom more self.new log.new.room)
            × IsOk result }
        ensures spare { OnOk result (self.old.memory.buffers.count ≤ self.new.memory.buffers.count) }
    {
        self.waits.reserve(1)?;
        log.push(Event::BegunStore {
            task,
            address,
            size,
            value,
        })?;
        self.waits.begin(
            task,
            Want::Store {
                address,
                size,
                value,
            },
            None,
        );
        self.restart(ids, log)
    }
}
