// One host's kernel.
ghost use Rattle.std.specs.Prelude.{ℕ, ◌≡◌, ◌≢◌, ◌+◌, ◌++◌, ◌∷◌, ◌<◌, ◌≤◌, [], length, false, true, is_some, IfOk, OnErr, OnOk};
ghost use Rattle.vm_model.specs.declared.event.Event.TheVariants as event;
ghost use Rattle.vm_model.specs.declared.message.Channel.TheVariants.{Down};
ghost use Rattle.vm_waits.specs.Waits.{entry, queued};
ghost use Rattle.vm_kernel.specs.Serving.{HasQueue};
ghost use Rattle.vm_frames.specs.Frames.{free};
ghost use Rattle.vm_objects.specs.Objects.{object_at};
ghost use Rattle.vm_model.specs.Ranges.{InRange};
ghost use Rattle.vm_legal.specs.Refusal.{refusal};
ghost use Rattle.vm_kernel.specs.Begun.{Doing, Given, IsLaundered, Passed, Passing, Ran, Served, Starts, acts_on, targets_here};
ghost use Rattle.vm_kernel.specs.Destroying.{IsDestroyPaid, MayDestroy, is_destroy, queue_behind};
ghost use Rattle.vm_kernel.specs.Built.{kernel_runs};
ghost use Rattle.vm_kernel.specs.Endings.{EndsByAddress};
ghost use Rattle.vm_kernel.specs.Plays.{PlaysAnswer, PlaysBy, may_reclaim, paging};
ghost use Rattle.vm_resident.specs.Resident.{row_at};
ghost use Rattle.vm_supply.specs.Answers.{outcome_of};
ghost use Rattle.vm_state.specs.Stands.{HasTasks};
ghost use Rattle.vm_kernel.specs.Matches.{IsRanged, Rests, first_ids, host_id};
ghost use Rattle.vm_kernel.specs.Refusing.{maps_elsewhere, takes_name};
ghost use Rattle.vm_kernel.specs.Rooms.{IsReady, MayServe, ServeRoom, breadth_of, dues, front, full_dues, has_queue, most, own_dues};
ghost use Rattle.vm_kernel.specs.Rooms.{with_rooms_of, word_breadth};
ghost use Rattle.vm_kernel.specs.Taking.{IsAbsencePaid, IsChangePaid, IsErrorPaid, IsLockPaid, IsOfPushed, IsWord};
ghost use Rattle.vm_legal.specs.InTurn.{EndsAll, NoneSleepsOn};
ghost use Rattle.vm_legal.specs.Returned.{OnlyReturned};
ghost use Rattle.vm_model.specs.Named.{named};
ghost use Rattle.vm_kernel.specs.Turns.{KeepsOthers, LeavesInTurn, Restarted};

use crate::breadth::Breadth;
use crate::parts::Parts;
use std::alloc::Global;
use std::marker::Model;
use vm_base::{Code, HostId, NoMemory, ObjectId, TaskId};
use vm_copies::Copies;
use vm_maps::Maps;
use vm_model::{Command, Declarations, Events, Header, Message};
use vm_objects::ObjectRow;
use vm_pageout::Laundry;
use vm_parts::HostParts;
use vm_shadow::{Chains, Ids};
use vm_waits::Waits;

/// The kernel of one host: its tasks with their entries, its regions and memory objects, and the
/// pages that are in its frames.
///
/// It does what the Mach 3 Kernel Interfaces say of a kernel in external memory management; in which
/// order things happen in a step, who gets a frame and which page is reclaimed is this profile's.
/// Contracts see its parts, and which histories it stands for.
#[derive(Drop)]
pub struct Kernel {
    parts: Parts,
}

impl Model for Kernel {
    ghost use Rattle.vm_kernel.specs.declared.parts.Parts.{Parts};

    ghost Value = { Parts };

    ghost view = { λ k. k.parts };
}

impl Kernel {
    /// The kernel of a host before anything has happened; all its frames are taken now.
    pub fn new(alloc: Global, host: HostId, header: &Header) -> Result<Kernel, NoMemory>
        requires ranged { IsRanged header.now }
        requires host { host.0 < length header.now.frames.items }
        ensures rests { IfOk result (λ kernel. Rests header.now host.0 kernel (first_ids header.now) []) }
        ensures queue { IfOk result (λ kernel. queued kernel.waits.rows ≡ 0) }
        ensures lists { IfOk result (λ kernel. (kernel.memory.queues.active ≡ []) × (kernel.memory.queues.inactive ≡ [])) }
    {
        let count = *header.frames.at(host.0);
        let declared = copied(alloc, &header.objects)?;
        let memory = HostParts::new(alloc, count, header.size)?;
        let laundry = Laundry::new(alloc, count)?;
        let parts = Parts {
            alloc,
            host,
            size: header.size,
            declared,
            memory,
            maps: Maps::new(alloc, header.size),
            chains: Chains::new(alloc),
            copies: Copies::new(alloc),
            laundry,
            waits: Waits::new(alloc),
        };
        Ok(Kernel { parts })
    }

    /// The most events that the next `begin`, `take` or `laundered` and the serving behind it add on this
    /// host. It takes no memory.
    pub fn most(&self, breadth: Breadth) -> u64
        ensures { result ≡ most breadth self.now }
    {
        self.parts.most(breadth)
    }

    /// Makes room for a step in the host's tables; nothing but room changes. It fails for want of memory
    /// alone. Then `serve` and `laundered` want none, nor does a `take` but for a lock request of an object
    /// that isn't declared; and where `begin` does, it leaves all as it was.
    pub fn reserve(&mut self, breadth: Breadth) -> Result<(), NoMemory>
        ensures is { self.new ≡ with_rooms_of self.new self.old }
        ensures ready { OnOk result (IsReady breadth self.new) }
    {
        self.parts.reserve(breadth)
    }

    /// Runs a command that isn't refused, and adds what happened behind its line to the log, which is
    /// empty; the frame queues are served behind that.
    ///
    /// The commands are vm_allocate, vm_deallocate, vm_protect, vm_inherit, task_create and
    /// task_terminate, vm_copy, loads and stores, and this profile's `pageout`, `wire` and `unwire`.
    /// Addresses and lengths are in bytes.
    ///
    /// It fails for want of memory alone. Behind `reserve`, and with room for as many events in the log, all
    /// but room is then as it was, and the same call may be made again.
    pub fn begin(
        &mut self,
        command: &Command,
        ids: &mut Ids,
        log: &mut Events,
    ) -> Result<(), NoMemory>
        ghost given: { Given }
        requires starts { Starts given.header given.host command.now given.past self.old ids.old log.old.items }
        requires built { kernel_runs command.now ≡ true }
        ensures ran { OnOk result (Ran given.header given.host given.outside command.now given.past self.new ids.new log.new.items) }
        ensures plays { OnOk result (PlaysBy given.header (may_reclaim command.now self.old.waits.queue given.past) given.past [] (paging self.old)
            log.new.items (paging self.new)) }
        ensures restarts { OnOk result (Restarted given.header given.host self.new.waits.rows given.past self.old.waits.queue self.new.waits.queue
            log.new.items) }
        ensures ends { OnOk result (EndsByAddress given.header given.past command.now log.new.items) }
        ensures few { OnOk result (length log.new.items + dues self.new ≤ full_dues self.old + front (breadth_of command.now) self.old) }
        ensures room { (more : ℕ) → IsReady (breadth_of command.now) self.old → most (breadth_of command.now) self.old + more ≤ log.old.room
            → OnOk result (ServeRoom more self.new log.new.room) }
        ensures err { IsReady (breadth_of command.now) self.old → most (breadth_of command.now) self.old ≤ log.old.room
            → OnErr result ((self.new ≡ with_rooms_of self.new self.old) × ((ids.new ≡ ids.old) × (log.new.items ≡ []))) }
    {
        self.parts.reserve_for(command)?;
        self.parts.run(command, ids, log)
    }

    /// Takes what a pager says to a control of an object, and adds what happened behind the taking to the
    /// log, which is empty, up to where the frame queues are served. What isn't for the live control, or
    /// answers nothing, is discarded (this profile).
    ///
    /// The messages are memory_object_ready, memory_object_data_supply, memory_object_data_unavailable,
    /// memory_object_data_error, memory_object_lock_request, memory_object_change_attributes, and for a wild
    /// object memory_object_destroy. Whoever waited for the unlock of a page that a lock request is over is
    /// run again behind memory_object_lock_completed. Where a declared object that has no entry here is to
    /// stay no more, by a change of attributes or a first ready, it ends, behind
    /// memory_object_change_completed. An object that its pager ends loses its pages, changed ones too, and
    /// its control, and then each access that waits on it fails, in the order in which they began.
    ///
    /// It fails for want of memory alone. Behind `reserve`, and with room for as many events in the log, it
    /// does only for a lock request of an object that isn't declared, and then all but room is as it was.
    pub fn take(
        &mut self,
        object: ObjectId,
        control: u32,
        message: &Message,
        ids: &mut Ids,
        log: &mut Events,
    ) -> Result<(), NoMemory>
        ghost given: { Passing }
        requires rests { Rests given.header given.host self.old ids.old given.past }
        requires front { given.front ≡ event.Taken (Down (host_id given.host) object control) message.now ∷ [] }
        requires word { IsWord given.header.size message.now }
        requires destroy { is_destroy message.now ≡ true → MayDestroy given.header given.host object.0 given.past }
        requires nothing { log.old.items ≡ [] }
        requires copies { IsOfPushed given.host object.0 message.now given.past }
        ensures passed { OnOk result (Passed given.header given.host given.outside given.command (given.front ++ given.past) self.new ids.new log.new.items) }
        ensures failed { OnOk result (IsErrorPaid given.header (log.new.items ++ (given.front ++ given.past))) }
        ensures zeroed { OnOk result (IsAbsencePaid given.header (log.new.items ++ (given.front ++ given.past))) }
        ensures locked { OnOk result (IsLockPaid given.header (log.new.items ++ (given.front ++ given.past))) }
        ensures changed { OnOk result (IsChangePaid (log.new.items ++ (given.front ++ given.past))) }
        ensures destroyed { OnOk result (IsDestroyPaid given.header (log.new.items ++ (given.front ++ given.past))) }
        ensures plays { OnOk result (PlaysAnswer given.header (given.front ++ given.past) object
            (outcome_of (object_at self.old.memory.objects object.0) control (row_at self.old.memory.resident object.0) message.now) (paging self.old)
            log.new.items (paging self.new)) }
        ensures ended { HasQueue given.header given.host self.old given.past
            → OnOk result (EndsAll given.header (log.new.items ++ (given.front ++ given.past))) }
        ensures restarts { OnOk result (Restarted given.header given.host self.new.waits.rows (given.front ++ given.past)
            (queue_behind object.0 control message.now self.old) self.new.waits.queue log.new.items) }
        ensures few { OnOk result (length log.new.items + dues self.new ≤ full_dues self.old + front (word_breadth message.now) self.old) }
        ensures room { (more : ℕ) → IsReady (word_breadth message.now) self.old → most (word_breadth message.now) self.old + more ≤ log.old.room
            → OnOk result (ServeRoom more self.new log.new.room) }
        ensures err { IsReady (word_breadth message.now) self.old → most (word_breadth message.now) self.old ≤ log.old.room
            → OnErr result ((self.new ≡ with_rooms_of self.new self.old) × ((ids.new ≡ ids.old) × (log.new.items ≡ []))) }
    {
        self.parts.reserve_for_word(message)?;
        self.parts.take(ids, object, control, message, log)
    }

    /// The pager of an object took the oldest return without a copy: its frame is free. Nothing happens
    /// behind that up to where the frame queues are served.
    pub fn laundered(&mut self, ids: &Ids)
        ghost given: { Passing }
        requires rests { Rests given.header given.host self.old ids.now given.past }
        requires front { IsLaundered given.host given.front }
        requires held { self.old.laundry.held ≢ [] }
        ensures passed { Passed given.header given.host given.outside given.command (given.front ++ given.past) self.new ids.now [] }
        ensures pages { paging self.new ≡ paging self.old }
        ensures waits { self.new.waits ≡ self.old.waits }
        ensures ready { (breadth : Breadth) → IsReady breadth self.old → IsReady breadth self.new }
        ensures most { (breadth : Breadth) → most breadth self.new ≡ most breadth self.old }
    {
        self.parts.launder(ids);
    }

    /// A step ends: the host's frame queue is served, and what happened is added to the step's
    /// events (this profile). It is called at the end of every step, whosever the step is, but of one
    /// that is refused and of the line of a `settle`. An access whose walk then comes to a page that is
    /// here, and whose lock lets it in, waits only while no frame is free, where the pagers of temporary
    /// memory give no more than they were given.
    pub fn serve(&mut self, ids: &mut Ids, log: &mut Events)
        ghost given: { Doing }
        requires rests { Rests given.header given.host self.old ids.old (log.old.items ++ given.past) }
        requires room { (more : ℕ) × MayServe more self.old log.old.room }
        ensures served { Served given.header given.host given.outside given.command given.past log.old.items self.new ids.new log.new.items }
        ensures awake { OnlyReturned given.header given.host (log.new.items ++ given.past)
            → NoneSleepsOn given.header given.host (log.new.items ++ given.past) }
        ensures leaves { LeavesInTurn given.header given.past self.old self.new log.old.items log.new.items }
        ensures others { KeepsOthers self.old.waits.queue self.old.waits.rows self.new.waits.rows }
        ensures few { length log.new.items ≤ length log.old.items + own_dues self.old }
        ensures left { (more : ℕ) → MayServe more self.old log.old.room → more ≤ log.new.room }
    {
        let Ok(()) = self.parts.go_on(ids, log) else {
            unreachable!()
        };
    }

    /// Whether an access waits for a frame here: where none does, `serve` wants no room and tells nothing.
    pub fn has_queue(&self) -> bool
        ensures { result ≡ has_queue self.now }
    {
        self.parts.waits.has_queue()
    }

    /// Whether a task waits: it has begun an access that hasn't ended.
    pub fn waits(&self, task: TaskId) -> bool
        ensures { result ≡ is_some (entry self.now.waits.rows task.0) }
    {
        self.parts.waits.get(task).is_some()
    }

    /// Why a command that acts on this host is refused now, if it is; the numbers that it gives to
    /// tasks are free, and the task to which it copies lives here. A file that it maps may belong to
    /// another host (`elsewhere`). It takes no memory.
    pub fn refusal(&self, command: &Command, ids: &Ids, elsewhere: bool) -> Option<Code>
        ghost given: { Given }
        requires rests { Rests given.header given.host self.now ids.now given.past }
        requires acts { acts_on given.host command.now given.past ≡ true }
        requires both { targets_here given.host command.now given.past ≡ true }
        requires range { InRange given.header command.now }
        requires built { kernel_runs command.now ≡ true }
        requires unnamed { takes_name command.now given.past ≡ false }
        requires elsewhere { elsewhere ≡ maps_elsewhere given.header given.host command.now given.past }
        ensures { result ≡ refusal given.header given.past command.now }
    {
        self.parts.refusal(command, ids, elsewhere)
    }

    /// The number of frames that are neither claimed nor wired.
    pub fn free(&self) -> u32
        ensures { result ≡ free self.now.memory.frames }
    {
        self.parts.memory.frames.free()
    }

    /// The number of wired frames.
    pub fn wired(&self) -> u32
        ensures { result ≡ self.now.memory.frames.wired }
    {
        self.parts.memory.frames.wired()
    }

    /// The address maps of the host's tasks.
    pub fn maps(&self) -> &Maps
        ensures { result.now ≡ self.now.maps }
    {
        &self.parts.maps
    }

    /// The host's regions.
    pub fn chains(&self) -> &Chains
        ensures { result.now ≡ self.now.chains }
    {
        &self.parts.chains
    }

    /// What the host knows of a memory object; None where it knows nothing.
    pub fn object(&self, id: ObjectId) -> Option<ObjectRow>
        ensures { result ≡ object_at self.now.memory.objects id.0 }
    {
        self.parts.memory.objects.find(id)
    }
}

// The declared objects once more.
fn copied(alloc: Global, objects: &Declarations) -> Result<Declarations, NoMemory>
    ensures { IfOk result (λ declared. declared.items ≡ objects.now.items) }
{
    let mut declared = Declarations::new(alloc);
    'all: for i in 0..objects.len() {
        declared.push(*objects.at(i))?;
    }
    Ok(declared)
}
