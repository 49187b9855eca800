// Accesses that wait are run again, and the frame queue is served.
ghost use Rattle.std.specs.Prelude.{ℕ, ◌≡◌, ◌+◌, ◌<◌, ◌≤◌, ◌++◌, true, false, length, IfOk, IfSome, IsOk, None, OnOk, Some};
ghost use Rattle.vm_frames.specs.Frames.{claimed, free};
ghost use Rattle.std.specs.Option.{option_map};
ghost use Rattle.vm_base.specs.Entries.{entry_at};
ghost use Rattle.vm_legal.specs.Accesses.{FindsPage, Wants};
ghost use Rattle.vm_legal.specs.InTurn.{EndsNext, FailsNext, MeetsNoControl, NoneSleepsOn};
ghost use Rattle.vm_legal.specs.Prompt.{HostIsFull, PromptAt};
ghost use Rattle.vm_legal.specs.Returned.{OnlyReturned};
ghost use Rattle.vm_maps.specs.Judge.{IsAllowed, place_at};
ghost use Rattle.vm_maps.specs.Maps.{rows_in};
ghost use Rattle.vm_model.specs.Named.{named};
ghost use Rattle.vm_supply.specs.declared.woken.Woken.TheVariants as woken;
ghost use Rattle.vm_waits.specs.Waits.{entry, first_in_queue, queued};
ghost use Rattle.vm_waits.specs.Wants.{address_in, need_in};
ghost use Rattle.vm_kernel.specs.Begun.{Doing, LegalEvents};
ghost use Rattle.vm_kernel.specs.Destroying.{place_led, unserved};
ghost use Rattle.vm_kernel.specs.Matches.{Rests, Works};
ghost use Rattle.vm_kernel.specs.Rooms.{HasRoom, KeepsSpare, ServeRoom, StopsRoom, dues, to_run};
ghost use Rattle.vm_kernel.specs.Serving.{Attempts, HasQueue, IsHere, IsTheSource, IsToCopy, QueueIsServed, RunsFirst, is_pushing, runs_now, waits_at};
ghost use Rattle.vm_kernel.specs.Serving.{wants_frame};
ghost use Rattle.vm_kernel.specs.Plays.{Plays, PlaysBy, SparesSource, paging};
ghost use Rattle.vm_kernel.specs.Taking.{EachGone};
ghost use Rattle.vm_kernel.specs.Turns.{KeepsOthers, LeavesInTurn, Restarted, RunsNoneYet, RunsOnce};

use crate::attempt::Attempt;
use crate::parts::Parts;
use vm_base::{Access, NoMemory, PageKey};
use vm_fault::{FaultStep, fault};
use vm_maps::Place;
use vm_model::Events;
use vm_pageout::Reclaim;
use vm_shadow::Ids;
use vm_waits::{On, Waiting, Want};

impl Parts {
    // Runs an access once; one on a declared object without a control fails.
    fn attempt(
        &mut self,
        ids: &mut Ids,
        waiting: Waiting,
        may_claim: bool,
        log: &mut Events,
    ) -> Result<Attempt, NoMemory>
        ghost given: { Doing }
        requires works { Works given.header given.host self.old ids.old woken.Nobody (log.old.items ++ given.past) }
        requires waits { entry self.old.waits.rows waiting.task.0 ≡ Some waiting }
        requires runs { runs_now waiting.on ≡ true }
        ensures works { OnOk result (Works given.header given.host self.new ids.new woken.Nobody (log.new.items ++ given.past)) }
        ensures goes { OnOk result (LegalEvents given.header given.host given.outside given.command given.past log.old.items log.new.items) }
        ensures ends { OnOk result (FindsPage given.header waiting.task.0 (log.old.items ++ given.past) → EndsNext waiting.task.0 log.old.items log.new.items) }
        ensures fails { OnOk result (MeetsNoControl given.header waiting.task.0 (log.old.items ++ given.past)
            → FailsNext waiting.task.0 log.old.items log.new.items) }
        ensures attempts { IfOk result (λ answer. Attempts given.header given.host waiting may_claim answer self.old self.new (log.old.items ++ given.past)
            (log.new.items ++ given.past)) }
        ensures plays { OnOk result (Plays given.header given.past log.old.items (paging self.old) log.new.items (paging self.new)) }
        ensures once { IfOk result (λ answer. RunsOnce waiting may_claim (wants_frame answer) self.old.waits self.new.waits log.old.items log.new.items) }
        ensures room { (more : ℕ) → HasRoom more self.old log.old.room → IsOk result × HasRoom more self.new log.new.room }
        ensures spare { OnOk result (KeepsSpare self.old self.new) }
        ensures few { OnOk result (length log.new.items + dues self.new ≤ length log.old.items + dues self.old) }
    {
        match self.unserved(waiting) {
            Some(key) => {
                self.end_unserved(ids, waiting, key, log)?;
                Ok(Attempt::Ran)
            }
            None => self.run_access(ids, waiting, may_claim, log),
        }
    }

    // Runs an access, a slow copy page by page; its object has a control.
    fn run_access(
        &mut self,
        ids: &mut Ids,
        waiting: Waiting,
        may_claim: bool,
        log: &mut Events,
    ) -> Result<Attempt, NoMemory>
        ghost given: { Doing }
        requires works { Works given.header given.host self.old ids.old woken.Nobody (log.old.items ++ given.past) }
        requires waits { entry self.old.waits.rows waiting.task.0 ≡ Some waiting }
        requires runs { runs_now waiting.on ≡ true }
        requires served { unserved self.old waiting ≡ None }
        ensures works { OnOk result (Works given.header given.host self.new ids.new woken.Nobody (log.new.items ++ given.past)) }
        ensures goes { OnOk result (LegalEvents given.header given.host given.outside given.command given.past log.old.items log.new.items) }
        ensures ends { OnOk result (FindsPage given.header waiting.task.0 (log.old.items ++ given.past) → EndsNext waiting.task.0 log.old.items log.new.items) }
        ensures attempts { IfOk result (λ answer. Attempts given.header given.host waiting may_claim answer self.old self.new (log.old.items ++ given.past)
            (log.new.items ++ given.past)) }
        ensures plays { OnOk result (Plays given.header given.past log.old.items (paging self.old) log.new.items (paging self.new)) }
        ensures once { IfOk result (λ answer. RunsOnce waiting may_claim (wants_frame answer) self.old.waits self.new.waits log.old.items log.new.items) }
        ensures room { (more : ℕ) → HasRoom more self.old log.old.room → IsOk result × HasRoom more self.new log.new.room }
        ensures spare { OnOk result (KeepsSpare self.old self.new) }
        ensures few { OnOk result (length log.new.items + dues self.new ≤ length log.old.items + dues self.old) }
    {
        let mut want = waiting.want;
        let step = fault(
            self.host,
            waiting.task,
            &mut want,
            may_claim,
            &mut self.memory,
            &mut self.chains,
            &mut self.copies,
            &self.maps,
            ids,
            log,
        )?;
        self.waits.set_want(waiting.task, want);
        let on = match step {
            FaultStep::Done { .. } => {
                self.waits.remove(waiting.task);
                self.end_copy(waiting, log)?;
                return Ok(Attempt::Ran);
            }
            FaultStep::NeedFrame { source } => {
                if waiting.on != On::Frame {
                    self.waits.join_queue(waiting.task);
                }
                return Ok(Attempt::Wants { source });
            }
            FaultStep::WaitReady { object } => On::Ready { object },
            FaultStep::Ask { key } | FaultStep::Unlock { key } => On::Page { key },
            FaultStep::WaitAnswer { key } => self.waits_at(waiting, key),
        };
        self.waits.set_on(waiting.task, on);
        Ok(Attempt::Ran)
    }

    // Where an access leads; a slow copy is asked about no place.
    fn led(&self, waiting: Waiting) -> Option<Place>
        requires allowed { IsAllowed self.now.maps waiting.task.0 (address_in self.now.maps.size waiting.want) (need_in waiting.want) }
        ensures { result ≡ place_led self.now.maps waiting.task.0 waiting.want }
    {
        let (address, need) = match waiting.want {
            Want::Load { address, .. } => (address, Access::Load),
            Want::Store { address, .. } => (address, Access::Store),
            Want::CopyTo { .. } => return None,
        };
        let Ok(place) = self.maps.lookup(waiting.task, address, need) else {
            unreachable!()
        };
        Some(place)
    }

    // What an access waits for that is told to wait for somebody's word on a page: for the page, or, if it
    // is on a declared region and the page is none of that region's object, until it can push its own there.
    fn waits_at(&self, waiting: Waiting, key: PageKey) -> On
        requires allowed { IsAllowed self.now.maps waiting.task.0 (address_in self.now.maps.size waiting.want) (need_in waiting.want) }
        ensures { result ≡ waits_at self.now waiting key }
    {
        match self.led(waiting) {
            Some(place) if place.region.0 < self.declared.len() && place.region.0 != key.object.0 =>
                { On::Push { key } }
            _ => On::Page { key },
        }
    }

    /// Runs each access again that is to be, in the order in which they began.
    #[tactic(auto, using(crate::proofs::lists::ListsAsTold::plays_still))]
    pub fn restart(&mut self, ids: &mut Ids, log: &mut Events) -> Result<(), NoMemory>
        ghost given: { Doing }
        requires works { Works given.header given.host self.old ids.old woken.Nobody (log.old.items ++ given.past) }
        ensures rests { OnOk result (Rests given.header given.host self.new ids.new (log.new.items ++ given.past)) }
        ensures goes { OnOk result (LegalEvents given.header given.host given.outside given.command given.past log.old.items log.new.items) }
        ensures first { OnOk result (RunsFirst given.header self.old.waits.rows given.past log.old.items log.new.items) }
        ensures plays { OnOk result (Plays given.header given.past log.old.items (paging self.old) log.new.items (paging self.new)) }
        ensures restarts { OnOk result (RunsNoneYet log.old.items
            → Restarted given.header given.host self.new.waits.rows given.past self.old.waits.queue self.new.waits.queue log.new.items) }
        ensures room { (more : ℕ) → HasRoom more self.old log.old.room → IsOk result × HasRoom more self.new log.new.room }
        ensures spare { OnOk result (KeepsSpare self.old self.new) }
        ensures few { OnOk result (length log.new.items + dues self.new ≤ length log.old.items + dues self.old) }
    {
        'again: while let Some(waiting) = self.waits.next_again() {
            let may_claim = !self.waits.has_queue();
            self.attempt(ids, waiting, may_claim, log)?;
        }
        Ok(())
    }

    /// Serves the queue of accesses that want a frame, as far as it goes.
    #[tactic(auto, using(crate::proofs::lists::ListsAsTold::plays_still))]
    pub fn serve(&mut self, ids: &mut Ids, log: &mut Events) -> Result<(), NoMemory>
        ghost given: { Doing }
        requires rests { Rests given.header given.host self.old ids.old (log.old.items ++ given.past) }
        ensures rests { OnOk result (Rests given.header given.host self.new ids.new (log.new.items ++ given.past)) }
        ensures goes { OnOk result (LegalEvents given.header given.host given.outside given.command given.past log.old.items log.new.items) }
        ensures served { OnOk result (QueueIsServed given.header given.host self.new (log.new.items ++ given.past)) }
        ensures leaves { OnOk result (LeavesInTurn given.header given.past self.old self.new log.old.items log.new.items) }
        ensures others { OnOk result (KeepsOthers self.old.waits.queue self.old.waits.rows self.new.waits.rows) }
        ensures room { (more : ℕ) → HasRoom (more + 2) self.old log.old.room → 0 < self.old.memory.buffers.count → IsOk result
            × (more ≤ log.new.room) }
        ensures idle { queued self.old.waits.rows ≡ 0 → IsOk result × ((self.new ≡ self.old) × ((ids.new ≡ ids.old) × (log.new ≡ log.old))) }
        ensures few { OnOk result (length log.new.items ≤ length log.old.items + dues self.old + 2) }
    {
        'serve: while let Some(waiting) = self.waits.front() {
            if let Attempt::Wants { source } = self.attempt(ids, waiting, true, log)? {
                if self.stops(ids, source, log)? {
                    return Ok(());
                }
            }
        }
        Ok(())
    }

    // The front wants a frame and none is free: a page is reclaimed, but not the one that the front is
    // to copy, unless a return is on its way. True where the front has to wait.
    #[tactic(auto, using(crate::proofs::lists::ListsAsTold::plays_still))]
    fn stops(
        &mut self,
        ids: &Ids,
        source: Option<PageKey>,
        log: &mut Events,
    ) -> Result<bool, NoMemory>
        ghost given: { Doing }
        requires rests { Rests given.header given.host self.old ids.now (log.old.items ++ given.past) }
        requires wants { Wants given.header given.host (log.old.items ++ given.past) }
        requires none { free self.old.memory.frames ≡ 0 }
        requires to_copy { IsToCopy given.header given.host self.old source (log.old.items ++ given.past) }
        requires source { IsTheSource given.header given.host (SparesSource (first_in_queue self.old.waits.queue)) source (log.old.items ++ given.past) }
        ensures rests { OnOk result (Rests given.header given.host self.new ids.now (log.new.items ++ given.past)) }
        ensures goes { OnOk result (LegalEvents given.header given.host given.outside given.command given.past log.old.items log.new.items) }
        ensures waits { OnOk result (self.new.waits ≡ self.old.waits) }
        ensures reclaims { OnOk result (EachGone given.host log.old.items log.new.items) }
        ensures freed { IfOk result (λ stops. stops ≡ false → claimed self.old.memory.frames ≡ claimed self.new.memory.frames + 1) }
        ensures full { IfOk result (λ stops. stops ≡ true → HostIsFull given.header given.host (log.new.items ++ given.past)) }
        ensures plays { OnOk result (PlaysBy given.header (SparesSource (first_in_queue self.old.waits.queue)) given.past log.old.items (paging self.old)
            log.new.items (paging self.new)) }
        ensures spared { OnOk result (IfSome source (λ key. IsHere self.new key)) }
        ensures room { (more : ℕ) → ServeRoom more self.old log.old.room → IsOk result × IfOk result (λ stops. StopsRoom stops more self.new log.new.room) }
        ensures few { IfOk result (λ stops. stops ≡ false → length log.new.items + dues self.new ≤ length log.old.items + dues self.old) }
        ensures two { OnOk result (length log.new.items ≤ length log.old.items + 2) }
    {
        if !self.laundry.is_empty() {
            return Ok(true);
        }
        match self.reclaim(ids, source, log)? {
            Reclaim::Freed => Ok(false),
            Reclaim::Returned | Reclaim::Nothing => Ok(true),
        }
    }

    /// Serves the frame queue at the end of a step that no command of this host began.
    pub fn go_on(&mut self, ids: &mut Ids, log: &mut Events) -> Result<(), NoMemory>
        ghost given: { Doing }
        requires rests { Rests given.header given.host self.old ids.old (log.old.items ++ given.past) }
        ensures rests { OnOk result (Rests given.header given.host self.new ids.new (log.new.items ++ given.past)) }
        ensures goes { OnOk result (LegalEvents given.header given.host given.outside given.command given.past log.old.items log.new.items) }
        ensures queue { OnOk result (HasQueue given.header given.host self.new (log.new.items ++ given.past)) }
        ensures prompt { OnOk result (PromptAt given.header given.host (log.new.items ++ given.past)) }
        ensures awake { OnOk result (OnlyReturned given.header given.host (log.new.items ++ given.past)
            → NoneSleepsOn given.header given.host (log.new.items ++ given.past)) }
        ensures leaves { OnOk result (LeavesInTurn given.header given.past self.old self.new log.old.items log.new.items) }
        ensures others { OnOk result (KeepsOthers self.old.waits.queue self.old.waits.rows self.new.waits.rows) }
        ensures room { (more : ℕ) → HasRoom (more + 2) self.old log.old.room → 0 < self.old.memory.buffers.count → IsOk result
            × (more ≤ log.new.room) }
        ensures idle { queued self.old.waits.rows ≡ 0 → IsOk result × ((self.new ≡ self.old) × ((ids.new ≡ ids.old) × (log.new ≡ log.old))) }
        ensures few { OnOk result (length log.new.items ≤ length log.old.items + dues self.old + 2) }
    {
        self.serve(ids, log)
    }
}
