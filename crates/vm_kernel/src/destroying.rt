// Wild objects end as their pager says, and accesses on those without a control fail.
ghost use Rattle.std.specs.Prelude.{ℕ, ◌≡◌, ◌+◌, ◌<◌, ◌≤◌, ◌++◌, [], ◌∷◌, false, true, length, IsOk, None, OnOk, Some};
ghost use Rattle.std.specs.Option.{option_map};
ghost use Rattle.vm_base.specs.Entries.{entry_at};
ghost use Rattle.vm_legal.specs.InTurn.{FallsInTurn};
ghost use Rattle.vm_maps.specs.Judge.{IsAllowed, place_at};
ghost use Rattle.vm_maps.specs.Maps.{rows_in};
ghost use Rattle.vm_model.specs.Controls.{is_control};
ghost use Rattle.vm_model.specs.declared.event.Event.TheVariants as event;
ghost use Rattle.vm_objects.specs.Objects.{object_at};
ghost use Rattle.vm_parts.specs.Listed.{listed_pages};
ghost use Rattle.vm_state.specs.Pagers.{live_in};
ghost use Rattle.vm_state.specs.References.{is_live_in};
ghost use Rattle.vm_supply.specs.declared.woken.Woken.TheVariants as who;
ghost use Rattle.vm_waits.specs.Waits.{EachOnce, PutsEntry, WaitTable, count_again, entry, is_again, is_listed, one_again, one_frame, queue_without, queued};
ghost use Rattle.vm_waits.specs.Waits.{rows_without, waits_for_frame};
ghost use Rattle.vm_waits.specs.Wants.{address_in, need_in};
ghost use Rattle.vm_kernel.specs.Begun.{Doing, LegalEvents, Passing};
ghost use Rattle.vm_kernel.specs.Destroying.{AllUnserved, FailsOnly, HasEmptied, HaveFallen, IsDestroyPaid, MayDestroy, StandOrFell, TakesDestroy, WakesOn};
ghost use Rattle.vm_kernel.specs.Destroying.{is_on, is_place_on, oldest_on, queue_but_on, stands_on, unserved, unserved_at};
ghost use Rattle.vm_kernel.specs.Matches.{Rests, Undone, Works};
ghost use Rattle.vm_kernel.specs.Plays.{Plays, paging};
ghost use Rattle.vm_kernel.specs.Rooms.{IsRoomy, Spends};
ghost use Rattle.vm_kernel.specs.Sweeping.{EndsOnly};
ghost use Rattle.vm_kernel.specs.Turns.{RunsNoneYet};

use crate::parts::Parts;
use vm_base::{Access, NoMemory, ObjectId, PageKey, TaskId};
use vm_maps::Place;
use vm_model::{Event, Events};
use vm_shadow::Ids;
use vm_terminate::destroy;
use vm_waits::{On, Waiting, Want};

impl Parts {
    /// Ends an object as its pager says, if that came for the live control: its pages go, its control ends,
    /// and each access that waits on it fails, in the order in which they began.
    pub fn destroy(
        &mut self,
        ids: &Ids,
        object: ObjectId,
        control: u32,
        log: &mut Events,
    ) -> Result<(), NoMemory>
        ghost given: { Passing }
        requires rests { Rests given.header given.host self.old ids.now given.past }
        requires front { TakesDestroy given.host object control given.front }
        requires may { MayDestroy given.header given.host object.0 given.past }
        requires nothing { log.old.items ≡ [] }
        ensures works { OnOk result (Works given.header given.host self.new ids.now who.Nobody (log.new.items ++ (given.front ++ given.past))) }
        ensures goes { OnOk result (LegalEvents given.header given.host given.outside given.command (given.front ++ given.past) [] log.new.items) }
        ensures early { OnOk result (RunsNoneYet log.new.items) }
        ensures paid { OnOk result (IsDestroyPaid given.header (log.new.items ++ (given.front ++ given.past))) }
        ensures plays { OnOk result (Plays given.header (given.front ++ given.past) [] (paging self.old) log.new.items (paging self.new)) }
        ensures queue { is_control control (live_in (object_at self.old.memory.objects object.0)) ≡ true
            → OnOk result (self.new.waits.queue ≡ queue_but_on self.old.maps object.0 self.old.waits.rows self.old.waits.queue) }
        ensures dead { is_control control (live_in (object_at self.old.memory.objects object.0)) ≡ false
            → OnOk result (self.new.waits.queue ≡ self.old.waits.queue) }
        ensures spends { OnOk result (Spends (listed_pages self.old.memory.queues + 1) 0 0 self.old log.old self.new log.new) }
        ensures succeeds { IsRoomy (listed_pages self.old.memory.queues + 1) 0 self.old log.old.room → IsOk result }
        ensures buffers { OnOk result (self.new.memory.buffers ≡ self.old.memory.buffers) }
    {
        if !self.is_live(object, control) {
            return Ok(());
        }
        self.empty(ids, object, control, log)?;
        self.wake_on(object);
        self.fail_unserved(ids, log)
    }

    // The pages of an object whose pager ends it go, and its control ends; what held it here without an
    // entry does so no more.
    fn empty(
        &mut self,
        ids: &Ids,
        object: ObjectId,
        control: u32,
        log: &mut Events,
    ) -> Result<(), NoMemory>
        ghost given: { Passing }
        requires rests { Rests given.header given.host self.old ids.now given.past }
        requires front { TakesDestroy given.host object control given.front }
        requires may { MayDestroy given.header given.host object.0 given.past }
        requires live { is_control control (live_in (object_at self.old.memory.objects object.0)) ≡ true }
        requires nothing { log.old.items ≡ [] }
        ensures works { OnOk result ((waits : WaitTable) → WakesOn self.old.maps object.0 self.old.waits waits
            → Undone given.header given.host (record self.new { waits = waits }) ids.now (log.new.items ++ (given.front ++ given.past))) }
        ensures same { OnOk result (self.new ≡ record self.old { memory = self.new.memory }) }
        ensures ended { OnOk result (is_live_in (object_at self.new.memory.objects object.0) ≡ false) }
        ensures goes { OnOk result (LegalEvents given.header given.host given.outside given.command (given.front ++ given.past) [] log.new.items) }
        ensures only { OnOk result (EndsOnly [] log.new.items) }
        ensures emptied { OnOk result (HasEmptied given.header given.host object.0 given.past (log.new.items ++ (given.front ++ given.past))) }
        ensures plays { OnOk result (Plays given.header (given.front ++ given.past) [] (paging self.old) log.new.items (paging self.new)) }
        ensures spends { OnOk result (Spends (listed_pages self.old.memory.queues + 1) 0 0 self.old log.old self.new log.new) }
        ensures succeeds { IsRoomy (listed_pages self.old.memory.queues + 1) 0 self.old log.old.room → IsOk result }
        ensures buffers { OnOk result (self.new.memory.buffers ≡ self.old.memory.buffers) }
    {
        destroy(self.host, object, &mut self.memory, log)?;
        let Some(known) = self.memory.objects.find(object) else {
            unreachable!()
        };
        if known.cache {
            self.memory.objects.set_cache(object, false);
            let _ = self.memory.objects.unrefer(object);
        }
        Ok(())
    }

    // Each load and each store on an object is to be run again, and leaves the frame queue.
    fn wake_on(&mut self, object: ObjectId)
        ensures wakes { WakesOn self.old.maps object.0 self.old.waits self.new.waits }
        ensures same { self.new ≡ record self.old { waits = self.new.waits } }
    {
        'all: while let Some(waiting) = self.next_on(object) {
            self.waits.set_on(waiting.task, On::Again);
        }
    }

    // The oldest access on an object that isn't to be run again yet; None exactly where there is none.
    fn next_on(&self, object: ObjectId) -> Option<Waiting>
        ensures oldest { result ≡ oldest_on self.now.maps object.0 self.now.waits.rows }
        ensures once { EachOnce self.now.waits.rows }
        ensures line { (t : ℕ) → is_listed t self.now.waits.queue ≡ waits_for_frame (entry self.now.waits.rows t) }
    {
        if self.waits.count() == 0 {
            return None;
        }
        let rows = self.waits.rows();
        'all: for waiting in rows {
            if self.stands_on(*waiting, object) {
                return Some(*waiting);
            }
        }
        None
    }

    // Whether an access is on an object, and isn't to be run again yet.
    fn stands_on(&self, waiting: Waiting, object: ObjectId) -> bool
        ensures { result ≡ stands_on self.now.maps object.0 waiting }
    {
        match waiting.on {
            On::Again => false,
            On::Ready { .. } | On::Page { .. } | On::Push { .. } | On::Frame => {
                self.is_on(waiting, object)
            }
        }
    }

    // Whether a load or a store is on an object.
    fn is_on(&self, waiting: Waiting, object: ObjectId) -> bool
        ensures { result ≡ is_on self.now.maps object.0 waiting }
    {
        match waiting.want {
            Want::Load { address, .. } | Want::Store { address, .. } => {
                self.leads_to(waiting.task, address, object)
            }
            Want::CopyTo { .. } => false,
        }
    }

    // Whether an address of a task is in the region of a declared object.
    fn leads_to(&self, task: TaskId, address: u64, object: ObjectId) -> bool
        ensures { result ≡ is_place_on object.0 (option_map (place_at self.now.maps.size address) (entry_at address (rows_in task.0 self.now.maps))) }
    {
        if !self.maps.has(task) {
            return false;
        }
        match self.maps.entry(task, address) {
            Some(entry) => entry.region.0 == object.0,
            None => false,
        }
    }

    // Ends each access that is to be run again, the oldest first: each is on an object without a control.
    fn fail_unserved(&mut self, ids: &Ids, log: &mut Events) -> Result<(), NoMemory>
        ghost given: { Doing }
        requires undone { Undone given.header given.host self.old ids.now (log.old.items ++ given.past) }
        requires unserved { AllUnserved self.old }
        requires standing { StandOrFell given.header self.old (log.old.items ++ given.past) }
        ensures undone { OnOk result (Undone given.header given.host self.new ids.now (log.new.items ++ given.past)) }
        ensures replied { OnOk result (HaveFallen given.header (log.new.items ++ given.past)) }
        ensures goes { OnOk result (LegalEvents given.header given.host given.outside given.command given.past log.old.items log.new.items) }
        ensures only { OnOk result (FailsOnly log.old.items log.new.items) }
        ensures plays { OnOk result (Plays given.header given.past log.old.items (paging self.old) log.new.items (paging self.new)) }
        ensures queue { OnOk result (self.new.waits.queue ≡ self.old.waits.queue) }
        ensures spends { OnOk result (Spends 0 0 0 self.old log.old self.new log.new) }
        ensures succeeds { IsRoomy 0 0 self.old log.old.room → IsOk result }
        ensures same { OnOk result (self.new ≡ record self.old { waits = self.new.waits }) }
    {
        'all: while let Some(waiting) = self.waits.next_again() {
            let Some(key) = self.unserved(waiting) else {
                unreachable!()
            };
            self.end_unserved(ids, waiting, key, log)?;
        }
        Ok(())
    }

    /// The page that an access is about, where it is one of a declared object of which no control lives here.
    pub fn unserved(&self, waiting: Waiting) -> Option<PageKey>
        requires allowed { IsAllowed self.now.maps waiting.task.0 (address_in self.now.maps.size waiting.want) (need_in waiting.want) }
        ensures { result ≡ unserved self.now waiting }
    {
        let (address, need) = match waiting.want {
            Want::Load { address, .. } => (address, Access::Load),
            Want::Store { address, .. } => (address, Access::Store),
            Want::CopyTo { .. } => return None,
        };
        let Ok(place) = self.maps.lookup(waiting.task, address, need) else {
            unreachable!()
        };
        self.unserved_at(place)
    }

    // The page of a place, where it is one of a declared object of which no control lives here.
    fn unserved_at(&self, place: Place) -> Option<PageKey>
        ensures { result ≡ unserved_at self.now (Some place) }
    {
        if place.region.0 >= self.declared.len() {
            return None;
        }
        let object = ObjectId(place.region.0);
        match self.memory.objects.find(object) {
            Some(known) if known.live => None,
            _ => Some(PageKey {
                object,
                page: place.page,
            }),
        }
    }

    /// Ends an access on an object without a control: memory failure, as for memory_object_data_error.
    pub fn end_unserved(
        &mut self,
        ids: &Ids,
        waiting: Waiting,
        key: PageKey,
        log: &mut Events,
    ) -> Result<(), NoMemory>
        ghost given: { Doing }
        requires undone { Undone given.header given.host self.old ids.now (log.old.items ++ given.past) }
        requires turn { FallsInTurn given.header waiting.task.0 key.object.0 (log.old.items ++ given.past) }
        requires waits { entry self.old.waits.rows waiting.task.0 ≡ Some waiting }
        requires unserved { unserved self.old waiting ≡ Some key }
        ensures undone { OnOk result (Undone given.header given.host self.new ids.now (log.new.items ++ given.past)) }
        ensures told { OnOk result (log.new.items ≡ event.Failed waiting.task key.object key.page ∷ log.old.items) }
        ensures goes { OnOk result (LegalEvents given.header given.host given.outside given.command given.past log.old.items log.new.items) }
        ensures same { OnOk result (self.new ≡ record self.old { waits = self.new.waits }) }
        ensures rows { OnOk result (self.new.waits.rows ≡ rows_without waiting.task.0 self.old.waits.rows) }
        ensures entry { OnOk result (PutsEntry waiting.task.0 None self.old.waits.rows self.new.waits.rows) }
        ensures again { OnOk result (count_again self.new.waits.rows + one_again waiting.on ≡ count_again self.old.waits.rows) }
        ensures queued { OnOk result (queued self.new.waits.rows + one_frame waiting.on ≡ queued self.old.waits.rows) }
        ensures length { OnOk result (length self.new.waits.rows + 1 ≡ length self.old.waits.rows) }
        ensures queue { OnOk result (self.new.waits.queue ≡ queue_without waiting.task.0 self.old.waits.queue) }
        ensures room { OnOk result (log.old.room ≤ log.new.room + 1) }
        ensures succeeds { 0 < log.old.room → IsOk result }
    {
        log.push(Event::Failed {
            task: waiting.task,
            object: key.object,
            page: key.page,
        })?;
        self.waits.remove(waiting.task);
        Ok(())
    }
}
