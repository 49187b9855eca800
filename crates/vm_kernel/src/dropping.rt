// Pages leave a host.
ghost use Rattle.std.specs.Prelude.{◌≡◌, ◌+◌, ◌*◌, ◌<◌, ◌≤◌, ◌++◌, ◌⊎◌, IfOk, IfSome, IsOk, None, OnOk, length, min, vec_capacity, vec_len};
ghost use Rattle.vm_legal.specs.Reclaims.{PagesOut, Starves};
ghost use Rattle.vm_model.specs.declared.command.Command.TheVariants as command;
ghost use Rattle.vm_kernel.specs.Begun.{Doing, DoingSparing, LegalEvents, Ran, Starts};
ghost use Rattle.vm_kernel.specs.Matches.{Rests, host_id};
ghost use Rattle.vm_pageout.specs.declared.answer.Reclaim.TheVariants as answers;
ghost use Rattle.vm_parts.specs.Listed.{listed_pages};
ghost use Rattle.vm_kernel.specs.Rooms.{IsRoomy, LeavesRoom, Spends};
ghost use Rattle.vm_kernel.specs.Serving.{FreesOrReturns, IsHere, IsTheSource, IsToCopy, awaits_unlock, frame_spared, spares_frame};
ghost use Rattle.vm_kernel.specs.Taking.{EachGone};
ghost use Rattle.vm_kernel.specs.Plays.{PlaysBy, Reclaims, SparesSource, SparesSourceSince, paging};
ghost use Rattle.vm_kernel.specs.Turns.{QueueIsStill};
ghost use Rattle.vm_waits.specs.Waits.{first_in_queue};

use crate::parts::Parts;
use vm_base::{FrameNo, NoMemory, PageKey};
use vm_fault::source;
use vm_model::Events;
use vm_pageout::{Reclaim, reclaim_page};
use vm_queues::Spares;
use vm_resident::Resident;
use vm_shadow::Ids;

// The page of both, where that is the same.
fn same_page(one: Option<PageKey>, other: Option<PageKey>) -> Option<PageKey>
    ensures same { one ≡ other → result ≡ other }
    ensures apart { (one ≡ other → ⊥) → result ≡ None }
{
    if one == other { other } else { None }
}

// The frames that a reclaim spares: one, if there is one, and those of the pages of which an unlock is
// outstanding.
#[derive(Drop)]
struct Sparing<'a> {
    resident: &'a Resident,
    one: Option<FrameNo>,
}

impl Spares for Sparing<'_> {
    ghost spares = { λ s f. spares_frame s.resident.now s.one f };

    fn spares(&self, f: FrameNo) -> bool {
        self.one == Some(f) || awaits_unlock(self.resident, f)
    }
}

// Whether an unlock of the page in a frame is outstanding.
fn awaits_unlock(resident: &Resident, f: FrameNo) -> bool
    ensures { result ≡ awaits_unlock resident.now f.0 }
{
    let Some(key) = resident.page_of(f) else {
        return false;
    };
    match resident.get(key) {
        Some(row) => row.unlock_sent,
        None => false,
    }
}

impl Parts {
    // Reclaims pages, as many as are asked for or as there are that aren't spared.
    #[tactic(auto, using(crate::proofs::lists::ListsAsTold::plays_still))]
    pub fn pageout(&mut self, ids: &Ids, count: u32, log: &mut Events) -> Result<(), NoMemory>
        ghost given: { Doing }
        requires is { given.command ≡ command.Pageout (host_id given.host) count }
        requires starts { Starts given.header given.host given.command given.past self.old ids.now log.old.items }
        ensures ran { OnOk result (Ran given.header given.host given.outside given.command given.past self.new ids.now log.new.items) }
        ensures plays { OnOk result (PlaysBy given.header (SparesSourceSince (first_in_queue self.old.waits.queue) given.past) given.past log.old.items
            (paging self.old) log.new.items (paging self.new)) }
        ensures quiet { OnOk result (QueueIsStill self.old.waits.queue self.new.waits.queue log.old.items log.new.items) }
        ensures spends { OnOk result (Spends (2 * listed_pages self.old.memory.queues) 0 0 self.old log.old self.new log.new) }
        ensures succeeds { IsRoomy (2 * listed_pages self.old.memory.queues) 0 self.old log.old.room
            → min count (listed_pages self.old.memory.queues) + 1 ≤ self.old.memory.buffers.count → IsOk result }
        ensures spare { OnOk result (min count (listed_pages self.old.memory.queues) + 1 ≤ self.old.memory.buffers.count → 0 < self.new.memory.buffers.count) }
    {
        // What the front is to copy now, it was to copy when the pageout began.
        let first = self.source(ids, log);
        'pages: for _ in 0..count {
            let spared = same_page(first, self.source(ids, log));
            match self.reclaim(ids, spared, log)? {
                Reclaim::Freed | Reclaim::Returned => {}
                Reclaim::Nothing => return Ok(()),
            }
        }
        Ok(())
    }

    // The page that the front of the frame queue is to copy, as things stand.
    fn source(&self, ids: &Ids, log: &Events) -> Option<PageKey>
        ghost given: { Doing }
        requires { Rests given.header given.host self.now ids.now (log.now.items ++ given.past) }
        ensures to_copy { IsToCopy given.header given.host self.now result (log.now.items ++ given.past) }
        ensures source { IsTheSource given.header given.host (SparesSource (first_in_queue self.now.waits.queue)) result (log.now.items ++ given.past) }
    {
        let waiting = self.waits.front()?;
        source(
            waiting.task,
            waiting.want,
            &self.memory,
            &self.chains,
            &self.copies,
            &self.maps,
        )
    }

    // The frame of a page that is spared, if it is here.
    fn frame_of(&self, spared: Option<PageKey>) -> Option<FrameNo>
        ensures { result ≡ frame_spared self.now.memory.resident spared }
    {
        let row = self.memory.resident.get(spared?)?;
        if row.here { Some(row.frame) } else { None }
    }

    /// Reclaims one page, but not the one that is spared, nor one for whose unlock somebody waits.
    pub fn reclaim(
        &mut self,
        ids: &Ids,
        spared: Option<PageKey>,
        log: &mut Events,
    ) -> Result<Reclaim, NoMemory>
        ghost given: { DoingSparing }
        requires rests { Rests given.header given.host self.old ids.now (log.old.items ++ given.past) }
        requires may { PagesOut given.command given.host (log.old.items ++ given.past) ⊎ Starves given.header given.host (log.old.items ++ given.past) }
        requires spared { IsToCopy given.header given.host self.old spared (log.old.items ++ given.past) }
        requires source { IsTheSource given.header given.host given.by spared (log.old.items ++ given.past) }
        requires reclaims { Reclaims given.by }
        ensures rests { OnOk result (Rests given.header given.host self.new ids.now (log.new.items ++ given.past)) }
        ensures goes { OnOk result (LegalEvents given.header given.host given.outside given.command given.past log.old.items log.new.items) }
        ensures reclaims { OnOk result (EachGone given.host log.old.items log.new.items) }
        ensures reclaimed { IfOk result (λ answer. FreesOrReturns given.host spared answer self.old self.new (log.old.items ++ given.past)
            (log.new.items ++ given.past)) }
        ensures plays { OnOk result (PlaysBy given.header given.by given.past log.old.items (paging self.old) log.new.items (paging self.new)) }
        ensures spared { OnOk result (IfSome spared (λ key. IsHere self.new key)) }
        ensures room { 2 ≤ log.old.room → 0 < self.old.memory.buffers.count → IsOk result }
        ensures empty { listed_pages self.old.memory.queues ≡ 0 → IsOk result }
        ensures few { OnOk result (length log.new.items ≤ length log.old.items + 2) }
        ensures single { IfOk result (λ answer. answer ≡ answers.Freed → length log.new.items ≤ length log.old.items + 1) }
        ensures nothing { IfOk result (λ answer. answer ≡ answers.Nothing → (log.new ≡ log.old) × (self.new.memory.buffers ≡ self.old.memory.buffers)) }
        ensures leaves { IfOk result (λ answer. LeavesRoom answer self.old self.new log.old.room log.new.room) }
    {
        let one = self.frame_of(spared);
        let _ = self.waits.count();
        self.memory.resident.lead_back();
        let sparing = Sparing {
            resident: &self.memory.resident,
            one,
        };
        let Some(frame) = self.memory.queues.victim_but(&sparing) else {
            return Ok(Reclaim::Nothing);
        };
        let answer = reclaim_page(self.host, frame, &mut self.memory, &mut self.laundry, log)?;
        Ok(answer)
    }
}
