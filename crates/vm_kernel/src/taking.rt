// What a host does with messages of its pager, and with returns that its pager took.
ghost use Rattle.std.specs.Prelude.{ℕ, ◌≡◌, ◌+◌, ◌<◌, ◌≤◌, ◌≢◌, ◌++◌, ◌∷◌, [], false, true, length, IfOk, IsOk, OnOk};
ghost use Rattle.vm_model.specs.declared.event.Event.TheVariants as event;
ghost use Rattle.vm_model.specs.declared.message.Channel.TheVariants.{Down};
ghost use Rattle.vm_supply.specs.declared.woken.Woken.TheVariants as who;
ghost use Rattle.vm_kernel.specs.Begun.{Doing, IsLaundered, LegalEvents, Passing};
ghost use Rattle.vm_kernel.specs.Destroying.{IsDestroyPaid, MayDestroy, is_destroy, queue_behind};
ghost use Rattle.vm_kernel.specs.Matches.{Rests, Works, host_id};
ghost use Rattle.vm_frames.specs.Frames.{frame_count};
ghost use Rattle.vm_kernel.specs.Taking.{EndsEach, EndsNobody, Erring, FailsNow, HasAsker, HasEnded, HasFailed, IsAbsencePaid, IsAnswered, IsErrorPaid};
ghost use Rattle.vm_kernel.specs.Taking.{IsChangePaid, IsLockPaid, IsOfPushed, IsWord, is_lock_request};
ghost use Rattle.vm_legal.specs.Steps.{is_ready_message};
ghost use Rattle.vm_base.specs.declared.ids.PageKey.{PageKey};
ghost use Rattle.vm_objects.specs.Objects.{object_at};
ghost use Rattle.vm_parts.specs.Listed.{listed_pages};
ghost use Rattle.vm_resident.specs.Resident.{row_at};
ghost use Rattle.vm_supply.specs.Answers.{IsAnswer, outcome_of};
ghost use Rattle.vm_kernel.specs.Plays.{Plays, PlaysAnswer, paging};
ghost use Rattle.vm_kernel.specs.Rooms.{Dies, HasBuffers, HasMore, HasRoom, IsRoomy, Spends, dues, front, full_dues, leaving, making};
ghost use Rattle.vm_kernel.specs.Rooms.{to_run, waking, word_breadth};
ghost use Rattle.vm_kernel.specs.Turns.{IsBrought, Restarted, RunsNobody};

use crate::parts::Parts;
use vm_base::{NoMemory, ObjectId, PageKey};
use vm_model::{Event, Events, Message};
use vm_shadow::Ids;
use vm_supply::{Woken, answer};

impl Parts {
    /// Does to the pages and objects what an answer says, but that a pager is ready. The event of a page
    /// of zeros may come with it.
    pub fn hear(
        &mut self,
        ids: &Ids,
        object: ObjectId,
        control: u32,
        message: &Message,
        log: &mut Events,
    ) -> Result<Woken, NoMemory>
        ghost given: { Passing }
        requires rests { Rests given.header given.host self.old ids.now given.past }
        requires front { given.front ≡ event.Taken (Down (host_id given.host) object control) message.now ∷ [] }
        requires answer { IsAnswer self.old.size message.now }
        requires other { is_ready_message message.now ≡ false }
        requires nothing { log.old.items ≡ [] }
        requires copies { IsOfPushed given.host object.0 message.now given.past }
        ensures works { IfOk result (λ woken. Works given.header given.host self.new ids.now woken (log.new.items ++ (given.front ++ given.past))) }
        ensures fails { IfOk result (λ woken. FailsNow given.header given.host woken (log.new.items ++ (given.front ++ given.past))) }
        ensures fresh { IfOk result (λ woken. EndsNobody woken (log.new.items ++ (given.front ++ given.past))) }
        ensures asker { IfOk result (λ woken. HasAsker woken self.new.waits.rows) }
        ensures answered { IfOk result (λ woken. IsAnswered woken self.new.memory.resident) }
        ensures waits { OnOk result (self.new.waits ≡ self.old.waits) }
        ensures goes { OnOk result (LegalEvents given.header given.host given.outside given.command (given.front ++ given.past) [] log.new.items) }
        ensures brought { OnOk result (IsBrought log.new.items) }
        ensures zeroed { OnOk result (IsAbsencePaid given.header (log.new.items ++ (given.front ++ given.past))) }
        ensures plays { OnOk result (PlaysAnswer given.header (given.front ++ given.past) object
            (outcome_of (object_at self.old.memory.objects object.0) control (row_at self.old.memory.resident object.0) message.now) (paging self.old)
            log.new.items (paging self.new)) }
        ensures spends { OnOk result (Spends 1 0 0 self.old log.old self.new log.new) }
        ensures succeeds { IsRoomy 1 0 self.old log.old.room → 0 < self.old.memory.objects.marks → IsOk result }
        ensures buffers { OnOk result (self.new.memory.buffers ≡ self.old.memory.buffers) }
        ensures failing { IfOk result (λ woken. (key : PageKey) → woken ≡ who.Fails key → HasBuffers self.old → HasBuffers self.new) }
        ensures dies { IfOk result (λ woken. (key : PageKey) → woken ≡ who.Fails key → Dies message.now self.old self.new) }
    {
        let woken = answer(self.host, object, control, message, &mut self.memory, log)?;
        Ok(woken)
    }

    // Lets those be run again whom an answer wakes, and ends those whose page has failed.
    #[tactic(auto, using(crate::proofs::lists::ListsAsTold::plays_still))]
    fn wake(&mut self, ids: &Ids, woken: Woken, log: &mut Events) -> Result<(), NoMemory>
        ghost given: { Doing }
        requires works { Works given.header given.host self.old ids.now woken (log.old.items ++ given.past) }
        requires fails { FailsNow given.header given.host woken (log.old.items ++ given.past) }
        requires fresh { EndsNobody woken (log.old.items ++ given.past) }
        requires asker { HasAsker woken self.old.waits.rows }
        requires answered { IsAnswered woken self.old.memory.resident }
        ensures works { OnOk result (Works given.header given.host self.new ids.now who.Nobody (log.new.items ++ given.past)) }
        ensures goes { OnOk result (LegalEvents given.header given.host given.outside given.command given.past log.old.items log.new.items) }
        ensures failed { OnOk result (HasFailed woken (log.new.items ++ given.past)) }
        ensures plays { OnOk result (Plays given.header given.past log.old.items (paging self.old) log.new.items (paging self.new)) }
        ensures ended { OnOk result (HasEnded woken self.old.waits.rows (log.new.items ++ given.past)) }
        ensures quiet { OnOk result (RunsNobody self.old.waits.queue self.new.waits.queue log.old.items log.new.items) }
        ensures spends { OnOk result (Spends (waking woken self.old ids.now) 0 0 self.old log.old self.new log.new) }
        ensures succeeds { IsRoomy (waking woken self.old ids.now) 0 self.old log.old.room → ((key : PageKey) → woken ≡ who.Fails key → HasBuffers self.old)
            → IsOk result }
        ensures buffers { OnOk result (HasBuffers self.old → HasBuffers self.new) }
        ensures enough { OnOk result (((key : PageKey) → woken ≡ who.Fails key → HasBuffers self.old) → 0 < self.old.memory.buffers.count
            → 0 < self.new.memory.buffers.count) }
    {
        match woken {
            Woken::Nobody => Ok(()),
            Woken::ReadyOf { object } => {
                self.waits.wake_ready(object);
                Ok(())
            }
            Woken::Page { key } => {
                self.waits.wake_page(key);
                Ok(())
            }
            Woken::Fails { key } => {
                self.fail(ids, key, log)?;
                self.waits.wake_page(key);
                Ok(())
            }
        }
    }

    // Ends each access that waits for a page that its pager can't give, and the region that it fills.
    // Whoever was to push another page into its place is to be woken.
    #[tactic(auto, using(crate::proofs::lists::ListsAsTold::plays_still))]
    fn fail(&mut self, ids: &Ids, key: PageKey, log: &mut Events) -> Result<(), NoMemory>
        ghost given: { Erring }
        requires page { given.page ≡ key }
        requires works { Works given.header given.host self.old ids.now (who.Fails key) (log.old.items ++ given.past) }
        requires fails { FailsNow given.header given.host (who.Fails key) (log.old.items ++ given.past) }
        requires fresh { EndsNobody (who.Fails key) (log.old.items ++ given.past) }
        requires asker { HasAsker (who.Fails key) self.old.waits.rows }
        requires answered { IsAnswered (who.Fails key) self.old.memory.resident }
        ensures works { OnOk result (Works given.header given.host self.new ids.now (who.Page key) (log.new.items ++ given.past)) }
        ensures goes { OnOk result (LegalEvents given.header given.host given.outside given.command given.past log.old.items log.new.items) }
        ensures failed { OnOk result (HasFailed (who.Fails key) (log.new.items ++ given.past)) }
        ensures plays { OnOk result (Plays given.header given.past log.old.items (paging self.old) log.new.items (paging self.new)) }
        ensures ended { OnOk result (HasEnded (who.Fails key) self.old.waits.rows (log.new.items ++ given.past)) }
        ensures answered { OnOk result (IsAnswered (who.Page key) self.new.memory.resident) }
        ensures quiet { OnOk result (RunsNobody self.old.waits.queue self.new.waits.queue log.old.items log.new.items) }
        ensures spends { OnOk result (Spends (leaving self.old ids.now) 0 (leaving self.new ids.now) self.old log.old self.new log.new) }
        ensures succeeds { IsRoomy (leaving self.old ids.now) 0 self.old log.old.room → HasBuffers self.old → IsOk result }
        ensures buffers { OnOk result (HasBuffers self.old → HasBuffers self.new) }
    {
        'all: while let Some(waiting) = self.waits.next_on(key) {
            log.push(Event::Failed {
                task: waiting.task,
                object: key.object,
                page: key.page,
            })?;
            self.waits.remove(waiting.task);
            if let Some(destination) = waiting.destination {
                self.end_region(ids, destination.region, log)?;
            }
        }
        Ok(())
    }

    // Whom the word of a pager wakes is run again.
    pub fn take(
        &mut self,
        ids: &mut Ids,
        object: ObjectId,
        control: u32,
        message: &Message,
        log: &mut Events,
    ) -> Result<(), NoMemory>
        ghost given: { Passing }
        requires rests { Rests given.header given.host self.old ids.old given.past }
        requires front { given.front ≡ event.Taken (Down (host_id given.host) object control) message.now ∷ [] }
        requires word { IsWord self.old.size message.now }
        requires destroy { is_destroy message.now ≡ true → MayDestroy given.header given.host object.0 given.past }
        requires nothing { log.old.items ≡ [] }
        requires copies { IsOfPushed given.host object.0 message.now given.past }
        ensures rests { OnOk result (Rests given.header given.host self.new ids.new (log.new.items ++ (given.front ++ given.past))) }
        ensures goes { OnOk result (LegalEvents given.header given.host given.outside given.command (given.front ++ given.past) [] log.new.items) }
        ensures failed { OnOk result (IsErrorPaid given.header (log.new.items ++ (given.front ++ given.past))) }
        ensures zeroed { OnOk result (IsAbsencePaid given.header (log.new.items ++ (given.front ++ given.past))) }
        ensures locked { OnOk result (IsLockPaid given.header (log.new.items ++ (given.front ++ given.past))) }
        ensures changed { OnOk result (IsChangePaid (log.new.items ++ (given.front ++ given.past))) }
        ensures destroyed { OnOk result (IsDestroyPaid given.header (log.new.items ++ (given.front ++ given.past))) }
        ensures plays { OnOk result (PlaysAnswer given.header (given.front ++ given.past) object
            (outcome_of (object_at self.old.memory.objects object.0) control (row_at self.old.memory.resident object.0) message.now) (paging self.old)
            log.new.items (paging self.new)) }
        ensures ended { OnOk result (EndsEach given.header self.old.waits.rows (log.new.items ++ (given.front ++ given.past))) }
        ensures restarts { OnOk result (Restarted given.header given.host self.new.waits.rows (given.front ++ given.past)
            (queue_behind object.0 control message.now self.old) self.new.waits.queue log.new.items) }
        ensures few { OnOk result (length log.new.items + dues self.new ≤ length log.old.items + (full_dues self.old + front (word_breadth message.now)
            self.old)) }
        ensures room { (more : ℕ) → HasMore (front (word_breadth message.now) self.old) (making (word_breadth message.now) self.old) more self.old log.old.room
            → 0 < self.old.memory.objects.marks → HasBuffers self.old
            → (is_lock_request message.now ≡ true → listed_pages self.old.memory.queues + 1 ≤ self.old.memory.buffers.count) → IsOk result
            × (HasRoom more self.new log.new.room × (0 < self.new.memory.buffers.count)) }
    {
        self.memory.queues.stand_once();
        let woken = self.heed(ids, object, control, message, log)?;
        self.wake(ids, woken, log)?;
        self.restart(ids, log)
    }

    // The frame of the oldest return is free.
    pub fn launder(&mut self, ids: &Ids)
        ghost given: { Passing }
        requires rests { Rests given.header given.host self.old ids.now given.past }
        requires front { IsLaundered given.host given.front }
        requires held { self.old.laundry.held ≢ [] }
        ensures rests { Rests given.header given.host self.new ids.now (given.front ++ given.past) }
        ensures same { paging self.new ≡ paging self.old }
        ensures waits { self.new.waits ≡ self.old.waits }
        ensures rest { self.new ≡ record self.old { memory = record self.old.memory { frames = self.new.memory.frames }; laundry = self.new.laundry } }
        ensures frames { frame_count self.new.memory.frames ≡ frame_count self.old.memory.frames }
    {
        let Some(frame) = self.laundry.first() else {
            unreachable!()
        };
        self.memory.release(frame);
    }
}
