// Chains are as short as they can be: what lost references is merged, where it can be.
ghost use Rattle.std.specs.Prelude.{ℕ, ◌≡◌, ◌+◌, ◌*◌, ◌<◌, ◌≤◌, ◌^◌, [], length, IfOk, IsOk, OnErr, OnOk};
ghost use Rattle.vm_base.specs.Limits.{most_pages};
ghost use Rattle.vm_kernel.specs.Begun.{Doing};
ghost use Rattle.vm_kernel.specs.Endings.{MergesOnly};
ghost use Rattle.vm_kernel.specs.Plays.{Plays, paging};
ghost use Rattle.vm_kernel.specs.Rooms.{HasBuffers, HasRowsFor, Spends, with_rows};
ghost use Rattle.vm_kernel.specs.Sweeping.{Sweeps};
ghost use Rattle.vm_kernel.specs.Turns.{QueueIsStill};
ghost use Rattle.vm_merge.specs.Merges.{IsThin, IsThinBut};

use crate::parts::Parts;
use vm_base::NoMemory;
use vm_base::limits::MOST_PAGES;
use vm_merge::{Losers, merge_losers};
use vm_model::Events;
use vm_shadow::Ids;

impl Parts {
    // Makes room for the merges of so many objects, in front of all changes of a step: for the list of
    // those that may be merged, and for their pages. It fails for want of memory alone, and then
    // nothing has changed.
    pub fn room_to_merge(&mut self, most: u32) -> Result<Losers, NoMemory>
        ensures is { self.new ≡ with_rows self.new.memory.resident.spare self.old }
        ensures rows { OnOk result (HasRowsFor most self.old.memory.resident.spare self.new) }
        ensures empty { IfOk result (λ losers. losers.items ≡ []) }
        ensures room { IfOk result (λ losers. most ≤ losers.room) }
        ensures err { OnErr result (self.new ≡ self.old) }
    {
        let losers = Losers::with_room(self.alloc, most as usize)?;
        let rows = u64::from(most) * u64::from(MOST_PAGES);
        let promised = u64::from(self.memory.resident.promised());
        let Ok(wanted) = u32::try_from(promised + rows) else {
            return Err(NoMemory);
        };
        self.memory.resident.reserve(wanted)?;
        Ok(losers)
    }

    // Merges objects into the shadows over them, the lowest first, until none can be. Only losers
    // can be merged in front. It fails only where no room was made for it.
    pub fn merge(
        &mut self,
        ids: &Ids,
        losers: &mut Losers,
        log: &mut Events,
    ) -> Result<(), NoMemory>
        ghost given: { Doing }
        requires sweeps { Sweeps given.header given.host given.outside given.command given.past self.old ids.now [] log.old.items }
        requires thin { IsThinBut self.old.copies losers.old.items self.old.chains self.old.memory.objects }
        ensures sweeps { OnOk result (Sweeps given.header given.host given.outside given.command given.past self.new ids.now [] log.new.items) }
        ensures thin { OnOk result (IsThin self.new.copies self.new.chains self.new.memory.objects) }
        ensures plays { OnOk result (Plays given.header given.past log.old.items (paging self.old) log.new.items (paging self.new)) }
        ensures only { OnOk result (MergesOnly log.old.items log.new.items) }
        ensures quiet { OnOk result (QueueIsStill self.old.waits.queue self.new.waits.queue log.old.items log.new.items) }
        ensures rows { OnOk result (length losers.old.items * most_pages ≤ self.old.memory.resident.spare) }
        ensures spends { (n : ℕ) → HasRowsFor (length losers.old.items) n self.old
            → OnOk result (Spends (length losers.old.items) 0 0 (with_rows n self.old) log.old self.new log.new) }
        ensures succeeds { length losers.old.items * most_pages ≤ self.old.memory.resident.spare → length losers.old.items * most_pages < 2 ^ 32
            → length losers.old.items ≤ log.old.room → IsOk result }
        ensures buffers { OnOk result (HasBuffers self.old → HasBuffers self.new) }
    {
        let Ok(most) = u32::try_from(losers.len()) else {
            return Err(NoMemory);
        };
        let rows = u64::from(most) * u64::from(MOST_PAGES);
        if u64::from(self.memory.resident.promised()) < rows {
            return Err(NoMemory);
        }
        log.reserve(most)?;
        merge_losers(
            losers,
            &mut self.memory,
            &mut self.chains,
            &self.copies,
            log,
        );
        Ok(())
    }
}
