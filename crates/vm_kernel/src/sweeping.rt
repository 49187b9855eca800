// What no entry leads to any more goes.
ghost use Rattle.std.specs.Prelude.{ℕ, ◌≡◌, ◌+◌, ◌++◌, ◌<◌, ◌≤◌, [], Contains, drop, length, IfOk, IsOk, None, OnOk, Some};
ghost use Rattle.vm_base.specs.Entries.{by_address};
ghost use Rattle.vm_base.specs.declared.ids.ObjectId.{ObjectId};
ghost use Rattle.vm_model.specs.Regions.{region_of};
ghost use Rattle.vm_kernel.specs.Begun.{Doing, LegalEvents};
ghost use Rattle.vm_kernel.specs.Endings.{CountsOut, EndsAndMerges, EndsBelow, EndsSoFar};
ghost use Rattle.vm_kernel.specs.Sweeping.{Ending, EndsObject, EndsOnly, EndsRegion, IsBareTop, IsWhole, LeavesLoser, OnlyLoses, Releasing};
ghost use Rattle.vm_kernel.specs.Sweeping.{Sweeps};
ghost use Rattle.vm_kernel.specs.Plays.{Plays, paging};
ghost use Rattle.vm_kernel.specs.Rooms.{HasBuffers, HasRowsFor, IsRoomy, Spends, leaving, with_rows};
ghost use Rattle.vm_kernel.specs.Turns.{QueueIsStill};
ghost use Rattle.vm_merge.specs.Merges.{IsThin, IsThinBut};
ghost use Rattle.vm_shadow.specs.Chains.{shadow_at};

use crate::counting::{count_of, set_count};
use crate::parts::Parts;
use vm_base::{Entries, NoMemory, ObjectId, RegionId};
use vm_merge::Losers;
use vm_model::Events;
use vm_shadow::Ids;
use vm_terminate::finish;

// Notes an object that lost a reference, if one did.
fn note(losers: &mut Losers, left: Option<ObjectId>)
    requires { 0 < losers.old.room }
    ensures added { (object : ObjectId) → left ≡ Some object → Contains losers.new.items object }
    ensures kept { (other : ObjectId) → Contains losers.old.items other → Contains losers.new.items other }
    ensures count { length losers.new.items ≤ length losers.old.items + 1 }
    ensures room { losers.old.room ≤ losers.new.room + 1 }
{
    if let Some(object) = left {
        losers.push(object);
    }
}

impl Parts {
    // Takes entries that have gone out of the counts, and merges the objects that can be merged then.
    // There is no loser yet.
    #[tactic(auto, using(crate::proofs::lists::ListsAsTold::plays_both))]
    pub fn sweep_and_merge(
        &mut self,
        ids: &Ids,
        gone: &Entries,
        losers: &mut Losers,
        log: &mut Events,
    ) -> Result<(), NoMemory>
        ghost given: { Doing }
        requires sweeps { Sweeps given.header given.host given.outside given.command given.past self.old ids.now (by_address gone.now) log.old.items }
        requires thin { IsThin self.old.copies self.old.chains self.old.memory.objects }
        requires none { losers.old.items ≡ [] }
        requires room { length gone.now.items ≤ losers.old.room }
        ensures sweeps { OnOk result (Sweeps given.header given.host given.outside given.command given.past self.new ids.now [] log.new.items) }
        ensures thin { OnOk result (IsThin self.new.copies self.new.chains self.new.memory.objects) }
        ensures plays { OnOk result (Plays given.header given.past log.old.items (paging self.old) log.new.items (paging self.new)) }
        ensures quiet { OnOk result (QueueIsStill self.old.waits.queue self.new.waits.queue log.old.items log.new.items) }
        ensures ends { OnOk result (EndsAndMerges given.header (log.old.items ++ given.past) (by_address gone.now) log.old.items log.new.items) }
        ensures spends { (n : ℕ) → HasRowsFor (length gone.now.items) n self.old
            → OnOk result (Spends (leaving self.old ids.now + length gone.now.items) 0 0 (with_rows n self.old) log.old self.new log.new) }
        ensures succeeds { (n : ℕ) → HasRowsFor (length gone.now.items) n self.old → length gone.now.items ≤ 256
            → IsRoomy (leaving self.old ids.now + length gone.now.items) 0 (with_rows n self.old) log.old.room → HasBuffers self.old → IsOk result }
        ensures buffers { OnOk result (HasBuffers self.old → HasBuffers self.new) }
    {
        self.sweep(ids, gone, losers, log)?;
        self.merge(ids, losers, log)
    }

    // Takes entries that have gone out of the counts, by rising address, and ends each region that
    // has none left. Only losers can be merged behind that.
    #[tactic(auto, using(crate::proofs::lists::ListsAsTold::plays_both, crate::proofs::lists::ListsAsTold::plays_still))]
    fn sweep(
        &mut self,
        ids: &Ids,
        gone: &Entries,
        losers: &mut Losers,
        log: &mut Events,
    ) -> Result<(), NoMemory>
        ghost given: { Doing }
        requires sweeps { Sweeps given.header given.host given.outside given.command given.past self.old ids.now (by_address gone.now) log.old.items }
        requires thin { IsThinBut self.old.copies losers.old.items self.old.chains self.old.memory.objects }
        requires room { length gone.now.items ≤ losers.old.room }
        ensures sweeps { OnOk result (Sweeps given.header given.host given.outside given.command given.past self.new ids.now [] log.new.items) }
        ensures thin { OnOk result (IsThinBut self.new.copies losers.new.items self.new.chains self.new.memory.objects) }
        ensures count { OnOk result (length losers.new.items ≤ length losers.old.items + length gone.now.items) }
        ensures plays { OnOk result (Plays given.header given.past log.old.items (paging self.old) log.new.items (paging self.new)) }
        ensures quiet { OnOk result (QueueIsStill self.old.waits.queue self.new.waits.queue log.old.items log.new.items) }
        ensures ends { OnOk result (EndsSoFar given.header (log.old.items ++ given.past) (by_address gone.now) [] log.old.items log.new.items) }
        ensures spends { OnOk result (Spends (leaving self.old ids.now) 0 (leaving self.new ids.now) self.old log.old self.new log.new) }
        ensures succeeds { IsRoomy (leaving self.old ids.now) 0 self.old log.old.room → HasBuffers self.old → IsOk result }
        ensures buffers { OnOk result (HasBuffers self.old → HasBuffers self.new) }
    {
        'all: for i in 0..gone.len() {
            self.release(ids, gone, i, losers, log)?;
        }
        Ok(())
    }

    // Takes one entry out of the counts.
    #[tactic(auto, using(crate::proofs::lists::ListsAsTold::plays_still))]
    fn release(
        &mut self,
        ids: &Ids,
        gone: &Entries,
        i: u32,
        losers: &mut Losers,
        log: &mut Events,
    ) -> Result<(), NoMemory>
        ghost given: { Releasing }
        requires inside { i < length gone.now.items }
        requires rest { given.rest ≡ drop (i + 1) (by_address gone.now) }
        requires sweeps { Sweeps given.header given.host given.outside given.command given.past self.old ids.now (drop i (by_address gone.now)) log.old.items }
        requires thin { IsThinBut self.old.copies losers.old.items self.old.chains self.old.memory.objects }
        requires room { 0 < losers.old.room }
        ensures sweeps { OnOk result (Sweeps given.header given.host given.outside given.command given.past self.new ids.now given.rest log.new.items) }
        ensures thin { OnOk result (IsThinBut self.new.copies losers.new.items self.new.chains self.new.memory.objects) }
        ensures count { OnOk result (length losers.new.items ≤ length losers.old.items + 1) }
        ensures room { OnOk result (losers.old.room ≤ losers.new.room + 1) }
        ensures plays { OnOk result (Plays given.header given.past log.old.items (paging self.old) log.new.items (paging self.new)) }
        ensures quiet { OnOk result (QueueIsStill self.old.waits.queue self.new.waits.queue log.old.items log.new.items) }
        ensures ends { OnOk result (CountsOut given.header (log.old.items ++ given.past) (drop i (by_address gone.now)) given.rest log.old.items
            log.new.items) }
        ensures spends { OnOk result (Spends (leaving self.old ids.now) 0 (leaving self.new ids.now) self.old log.old self.new log.new) }
        ensures succeeds { IsRoomy (leaving self.old ids.now) 0 self.old log.old.room → HasBuffers self.old → IsOk result }
        ensures buffers { OnOk result (HasBuffers self.old → HasBuffers self.new) }
    {
        let region = gone.at(i).region;
        let count = count_of(&self.chains, region);
        set_count(&mut self.chains, region, count - 1);
        if count == 1 {
            let left = self.end_region(ids, region, log)?;
            note(losers, left);
        }
        Ok(())
    }

    // Ends a region without entries, and what loses its last reference by that. It gives the object
    // that lost a reference and has some left.
    pub fn end_region(
        &mut self,
        ids: &Ids,
        region: RegionId,
        log: &mut Events,
    ) -> Result<Option<ObjectId>, NoMemory>
        ghost given: { Ending }
        requires { EndsRegion given.header given.host given.who self.old ids.now given.rest region.0 (log.old.items ++ given.past) }
        ensures whole { OnOk result (IsWhole given.header given.host given.who self.new ids.now given.rest (log.new.items ++ given.past)) }
        ensures goes { OnOk result (LegalEvents given.header given.host given.outside given.command given.past log.old.items log.new.items) }
        ensures waits { OnOk result (self.new.waits ≡ self.old.waits) }
        ensures pages { OnOk result (OnlyLoses self.old.memory.resident self.new.memory.resident) }
        ensures loser { IfOk result (λ left. LeavesLoser left self.old self.new) }
        ensures bare { IsBareTop region.0 self.old → IfOk result (λ left. left ≡ None) }
        ensures plays { OnOk result (Plays given.header given.past log.old.items (paging self.old) log.new.items (paging self.new)) }
        ensures only { OnOk result (EndsOnly log.old.items log.new.items) }
        ensures under { OnOk result (EndsBelow given.header (log.old.items ++ given.past) (region_of given.header region.0 (log.old.items ++ given.past)).top
            log.old.items log.new.items) }
        ensures spends { OnOk result (Spends (leaving self.old ids.now) 0 (leaving self.new ids.now) self.old log.old self.new log.new) }
        ensures succeeds { IsRoomy (leaving self.old ids.now) 0 self.old log.old.room → HasBuffers self.old → IsOk result }
        ensures buffers { OnOk result (HasBuffers self.old → HasBuffers self.new) }
    {
        let object = self.chains.drop_region(region);
        if self.memory.objects.unrefer(object) > 0 {
            return Ok(Some(object));
        }
        self.end_object(ids, object, log)
    }

    // Ends an object to which nothing refers any more, and gives the one that lost a reference by
    // that and has some left.
    pub fn end_object(
        &mut self,
        ids: &Ids,
        object: ObjectId,
        log: &mut Events,
    ) -> Result<Option<ObjectId>, NoMemory>
        ghost given: { Ending }
        requires ends { EndsObject given.header given.host given.who self.old ids.now given.rest object.0 (log.old.items ++ given.past) }
        ensures whole { OnOk result (IsWhole given.header given.host given.who self.new ids.now given.rest (log.new.items ++ given.past)) }
        ensures goes { OnOk result (LegalEvents given.header given.host given.outside given.command given.past log.old.items log.new.items) }
        ensures waits { OnOk result (self.new.waits ≡ self.old.waits) }
        ensures pages { OnOk result (OnlyLoses self.old.memory.resident self.new.memory.resident) }
        ensures loser { IfOk result (λ left. LeavesLoser left self.old self.new) }
        ensures bare { shadow_at self.old.chains object.0 ≡ None → IfOk result (λ left. left ≡ None) }
        ensures plays { OnOk result (Plays given.header given.past log.old.items (paging self.old) log.new.items (paging self.new)) }
        ensures only { OnOk result (EndsOnly log.old.items log.new.items) }
        ensures under { OnOk result (EndsBelow given.header (log.old.items ++ given.past) object.0 log.old.items log.new.items) }
        ensures spends { OnOk result (Spends (leaving self.old ids.now) 0 (leaving self.new ids.now) self.old log.old self.new log.new) }
        ensures succeeds { IsRoomy (leaving self.old ids.now) 0 self.old log.old.room → HasBuffers self.old → IsOk result }
        ensures buffers { OnOk result (HasBuffers self.old → HasBuffers self.new) }
    {
        self.memory.queues.stand_once();
        let left = finish(
            self.host,
            object,
            &mut self.memory,
            &mut self.chains,
            &mut self.copies,
            &mut self.laundry,
            log,
        )?;
        Ok(left)
    }
}
