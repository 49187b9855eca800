// Lock requests of pagers are done.
ghost use Rattle.std.specs.Prelude.{◌≡◌, ◌≤◌, ◌<◌, ◌+◌, ◌++◌, ◌∷◌, [], true, false, map, IfOk, IsOk, OnOk, IfSome, is_none};
ghost use Rattle.vm_base.specs.declared.ids.PageKey.{PageKey};
ghost use Rattle.vm_model.specs.declared.event.Event.TheVariants as event;
ghost use Rattle.vm_model.specs.declared.message.Channel.TheVariants.{Down};
ghost use Rattle.vm_kernel.specs.Begun.{LegalEvents, Passing};
ghost use Rattle.vm_kernel.specs.Destroying.{IsDestroyPaid, MayDestroy, is_destroy, queue_behind};
ghost use Rattle.vm_kernel.specs.Matches.{Rests, Works, host_id};
ghost use Rattle.vm_kernel.specs.Plays.{Plays, PlaysAnswer, paging};
ghost use Rattle.vm_kernel.specs.Rooms.{Dies, HasBuffers, IsRoomy, Spends, heeding, may_end};
ghost use Rattle.vm_parts.specs.Listed.{listed_pages};
ghost use Rattle.vm_kernel.specs.Taking.{EndsNobody, FailsNow, HasAsker, IsAbsencePaid, IsAnswered, IsChangePaid, IsLockPaid, IsWord, KeepsAskers};
ghost use Rattle.vm_kernel.specs.Taking.{IsOfPushed, PageWaitedFor};
ghost use Rattle.vm_kernel.specs.Taking.{is_away, is_lock_request, is_unlocked, page_awaited, page_waited};
ghost use Rattle.vm_waits.specs.Waits.{oldest_row, woken};
ghost use Rattle.vm_kernel.specs.Turns.{RunsNoneYet};
ghost use Rattle.vm_objects.specs.Objects.{object_at};
ghost use Rattle.vm_resident.specs.Resident.{row_at};
ghost use Rattle.vm_state.specs.Pagers.{live_in};
ghost use Rattle.vm_model.specs.Controls.{is_control};
ghost use Rattle.vm_supply.specs.Answers.{outcome_of};
ghost use Rattle.vm_supply.specs.declared.woken.Woken.TheVariants as who;

use crate::parts::Parts;
use vm_base::{NoMemory, ObjectId, PageKey, PageNo};
use vm_locks::lock;
use vm_model::{Events, Message};
use vm_resident::Resident;
use vm_shadow::Ids;
use vm_supply::Woken;
use vm_waits::{On, Waits};

impl Parts {
    /// Does what a pager says: its answer is heard, its lock request is obeyed, its object stays without an
    /// entry from now on, or no more, or its object ends.
    pub fn heed(
        &mut self,
        ids: &Ids,
        object: ObjectId,
        control: u32,
        message: &Message,
        log: &mut Events,
    ) -> Result<Woken, NoMemory>
        ghost given: { Passing }
        requires rests { Rests given.header given.host self.old ids.now given.past }
        requires front { given.front ≡ event.Taken (Down (host_id given.host) object control) message.now ∷ [] }
        requires word { IsWord self.old.size message.now }
        requires destroy { is_destroy message.now ≡ true → MayDestroy given.header given.host object.0 given.past }
        requires nothing { log.old.items ≡ [] }
        requires copies { IsOfPushed given.host object.0 message.now given.past }
        ensures works { IfOk result (λ woken. Works given.header given.host self.new ids.now woken (log.new.items ++ (given.front ++ given.past))) }
        ensures fails { IfOk result (λ woken. FailsNow given.header given.host woken (log.new.items ++ (given.front ++ given.past))) }
        ensures fresh { IfOk result (λ woken. EndsNobody woken (log.new.items ++ (given.front ++ given.past))) }
        ensures asker { IfOk result (λ woken. HasAsker woken self.new.waits.rows) }
        ensures answered { IfOk result (λ woken. IsAnswered woken self.new.memory.resident) }
        ensures askers { IfOk result (λ woken. KeepsAskers woken self.old.waits.rows self.new.waits.rows) }
        ensures queue { OnOk result (self.new.waits.queue ≡ queue_behind object.0 control message.now self.old) }
        ensures goes { OnOk result (LegalEvents given.header given.host given.outside given.command (given.front ++ given.past) [] log.new.items) }
        ensures early { OnOk result (RunsNoneYet log.new.items) }
        ensures zeroed { OnOk result (IsAbsencePaid given.header (log.new.items ++ (given.front ++ given.past))) }
        ensures locked { OnOk result (IsLockPaid given.header (log.new.items ++ (given.front ++ given.past))) }
        ensures changed { OnOk result (IsChangePaid (log.new.items ++ (given.front ++ given.past))) }
        ensures destroyed { OnOk result (IsDestroyPaid given.header (log.new.items ++ (given.front ++ given.past))) }
        ensures plays { OnOk result (PlaysAnswer given.header (given.front ++ given.past) object
            (outcome_of (object_at self.old.memory.objects object.0) control (row_at self.old.memory.resident object.0) message.now) (paging self.old)
            log.new.items (paging self.new)) }
        ensures spends { OnOk result (Spends (heeding message.now self.old ids.now) 0 0 self.old log.old self.new log.new) }
        ensures succeeds { IsRoomy (heeding message.now self.old ids.now) 0 self.old log.old.room
            → (is_lock_request message.now ≡ true → listed_pages self.old.memory.queues + 1 ≤ self.old.memory.buffers.count)
            → (may_end message.now ≡ true → HasBuffers self.old) → 0 < self.old.memory.objects.marks → IsOk result }
        ensures buffers { OnOk result ((is_lock_request message.now ≡ true → listed_pages self.old.memory.queues + 1 ≤ self.old.memory.buffers.count)
            → HasBuffers self.old → 0 < self.new.memory.buffers.count) }
        ensures failing { IfOk result (λ woken. (key : PageKey) → woken ≡ who.Fails key → HasBuffers self.old → HasBuffers self.new) }
        ensures dies { IfOk result (λ woken. (key : PageKey) → woken ≡ who.Fails key → Dies message.now self.old self.new) }
    {
        match message {
            Message::Lock { .. } => {
                self.obey(ids, object, control, message, log)?;
                Ok(Woken::Nobody)
            }
            Message::Attributes { .. } => {
                self.change(ids, object, control, message, log)?;
                Ok(Woken::Nobody)
            }
            Message::Destroy { .. } => {
                self.destroy(ids, object, control, log)?;
                Ok(Woken::Nobody)
            }
            Message::Ready { .. } => self.ready(ids, object, control, message, log),
            _ => self.hear(ids, object, control, message, log),
        }
    }

    // Does what a lock request says, if it came for the live control. Those that waited for the
    // unlock of a page of its range are to be run again; those that wait for an asked one wait on.
    fn obey(
        &mut self,
        ids: &Ids,
        object: ObjectId,
        control: u32,
        message: &Message,
        log: &mut Events,
    ) -> Result<(), NoMemory>
        ghost given: { Passing }
        requires rests { Rests given.header given.host self.old ids.now given.past }
        requires front { given.front ≡ event.Taken (Down (host_id given.host) object control) message.now ∷ [] }
        requires word { IsWord self.old.size message.now }
        requires request { is_lock_request message.now ≡ true }
        requires nothing { log.old.items ≡ [] }
        ensures works { OnOk result (Works given.header given.host self.new ids.now who.Nobody (log.new.items ++ (given.front ++ given.past))) }
        ensures fails { OnOk result (FailsNow given.header given.host who.Nobody (log.new.items ++ (given.front ++ given.past))) }
        ensures queue { OnOk result (self.new.waits.queue ≡ self.old.waits.queue) }
        ensures goes { OnOk result (LegalEvents given.header given.host given.outside given.command (given.front ++ given.past) [] log.new.items) }
        ensures early { OnOk result (RunsNoneYet log.new.items) }
        ensures zeroed { OnOk result (IsAbsencePaid given.header (log.new.items ++ (given.front ++ given.past))) }
        ensures locked { OnOk result (IsLockPaid given.header (log.new.items ++ (given.front ++ given.past))) }
        ensures plays { OnOk result (Plays given.header (given.front ++ given.past) [] (paging self.old) log.new.items (paging self.new)) }
        ensures spends { OnOk result (Spends (listed_pages self.old.memory.queues + 1) 0 0 self.old log.old self.new log.new) }
        ensures succeeds { IsRoomy (listed_pages self.old.memory.queues + 1) 0 self.old log.old.room
            → listed_pages self.old.memory.queues + 1 ≤ self.old.memory.buffers.count → IsOk result }
        ensures buffers { OnOk result (listed_pages self.old.memory.queues + 1 ≤ self.old.memory.buffers.count → 0 < self.new.memory.buffers.count) }
    {
        if !self.is_live(object, control) {
            return Ok(());
        }
        let Message::Lock { page, count, .. } = message else {
            unreachable!()
        };
        wake_unlocked(
            &mut self.waits,
            &self.memory.resident,
            object,
            *page,
            *count,
        );
        self.memory.queues.stand_once();
        lock(
            self.host,
            object,
            message,
            &mut self.memory,
            &mut self.laundry,
            log,
        )
    }

    // Whether the control of an object lives.
    pub fn is_live(&self, object: ObjectId, control: u32) -> bool
        ensures { result ≡ is_control control (live_in (object_at self.now.memory.objects object.0)) }
    {
        match self.memory.objects.find(object) {
            Some(known) => known.live && known.control == control,
            None => false,
        }
    }
}

// Those that wait for a page of the range which isn't asked are to be run again: each waits for an
// unlock.
fn wake_unlocked(waits: &mut Waits, resident: &Resident, object: ObjectId, page: PageNo, count: u32)
    ensures rows { waits.new.rows ≡ map (woken (is_unlocked resident.now object.0 page.0 count)) waits.old.rows }
    ensures queue { waits.new.queue ≡ waits.old.queue }
{
    'all: while let Some(key) = next_unlocked(waits, resident, object, page, count) {
        waits.wake_page(key);
    }
}

// The page for which the oldest of these waits; None exactly where there is none.
fn next_unlocked(
    waits: &Waits,
    resident: &Resident,
    object: ObjectId,
    page: PageNo,
    count: u32,
) -> Option<PageKey>
    ensures { PageWaitedFor result (oldest_row (is_unlocked resident.now object.0 page.0 count) waits.now.rows) }
{
    let rows = waits.rows();
    'all: for waiting in rows {
        if is_unlocked(resident, waiting.on, object, page, count) {
            return awaited(waiting.on);
        }
    }
    None
}

// The page for whose word an access waits, if it waits for one.
fn awaited(on: On) -> Option<PageKey>
    ensures { result ≡ page_awaited on }
{
    match on {
        On::Page { key } | On::Push { key } => Some(key),
        On::Again | On::Ready { .. } | On::Frame => None,
    }
}

// Whether an access waits for a page of the range which isn't asked.
fn is_unlocked(resident: &Resident, on: On, object: ObjectId, page: PageNo, count: u32) -> bool
    ensures { result ≡ is_unlocked resident.now object.0 page.0 count on }
{
    match on {
        On::Page { key } | On::Push { key } => {
            key.object.0 == object.0
                && key.page.0 >= page.0
                && key.page.0 - page.0 < count
                && !is_away(resident, key)
        }
        On::Again | On::Ready { .. } | On::Frame => false,
    }
}

// Whether a page is asked.
fn is_away(resident: &Resident, key: PageKey) -> bool
    ensures { result ≡ is_away (row_at resident.now key.object.0 key.page.0) }
{
    match resident.get(key) {
        Some(row) => !row.here,
        None => false,
    }
}

/// The page for which an access waits, if it waits for one.
pub fn page_of(on: On) -> Option<PageKey>
    ensures { result ≡ page_waited on }
{
    match on {
        On::Page { key } => Some(key),
        On::Again | On::Ready { .. } | On::Push { .. } | On::Frame => None,
    }
}
