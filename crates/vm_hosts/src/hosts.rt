// The kernels of all hosts.
ghost use Rattle.std.specs.Prelude.{ℕ, ◌≡◌, ◌+◌, ◌<◌, ◌≤◌, ◌∷◌, ◌++◌, List, [], length, true, false, None, Some, IfOk, OnErr, OnOk, MatchOption, is_some};
ghost use Rattle.std.specs.Prelude.{Option, option_map};
ghost use Rattle.vm_base.specs.declared.code.Code.TheVariants as code;
ghost use Rattle.vm_base.specs.declared.ids.HostId.{HostId};
ghost use Rattle.vm_model.specs.declared.event.Event.TheVariants as event;
ghost use Rattle.vm_model.specs.declared.message.Channel.TheVariants as channels;
ghost use Rattle.vm_model.specs.Controls.{live_control};
ghost use Rattle.vm_model.specs.Ranges.{InRange};
ghost use Rattle.vm_model.specs.Tasks.{host_of};
ghost use Rattle.vm_model.specs.Waiting.{waiting};
ghost use Rattle.vm_legal.specs.InTurn.{LicensedInTurn};
ghost use Rattle.vm_legal.specs.Refusal.{is_elsewhere, refusal};
ghost use Rattle.vm_kernel.specs.Begun.{IsLined, targets_here};
ghost use Rattle.vm_kernel.specs.Built.{kernel_runs};
ghost use Rattle.vm_kernel.specs.Matches.{IsRanged};
ghost use Rattle.vm_kernel.specs.Destroying.{IsDestroyPaid, MayDestroy, is_destroy};
ghost use Rattle.vm_kernel.specs.Taking.{IsAbsencePaid, IsChangePaid, IsErrorPaid, IsLockPaid, IsOfPushed, IsWord};
ghost use Rattle.vm_legal.specs.InTurn.{EndsAll};
ghost use Rattle.vm_kernel.specs.Refusing.{maps_elsewhere, takes_name};
ghost use Rattle.vm_kernel.specs.Rooms.{IsReady as IsReadyOn, breadth_of, with_rooms_of, word_breadth};
ghost use Rattle.vm_hosts.specs.Hosts.{AllQueued, AllRest, AreNew, CanServe, IsReady, acts_in, knows_file, most_on, sum_of_dues, takes_part};
ghost use Rattle.vm_model.specs.declared.event.Event.{Event};
ghost use Rattle.vm_model.specs.declared.script.Header.{Header};
ghost use Rattle.vm_objects.specs.Objects.{object_at};
ghost use Rattle.vm_hosts.specs.Steps.{ActsOn, Began, Going, HostsPart, IsFoundOn, PagerStep, Step, Went};

use std::alloc::Global;
use std::marker::Model;
use vm_base::{Code, HostId, NoMemory, ObjectId, ObjectKind, TaskId};
use vm_kernel::{Breadth, Kernel};
use vm_model::{Command, Events, Header, Message};
use vm_shadow::Ids;

/// The kernels of the hosts of a script, and the next numbers of regions and objects, which they have in
/// common.
///
/// Contracts see the kernels' parts, which stand for the history.
#[derive(Drop)]
pub struct Hosts {
    alloc: Global,
    kernels: Vec<Kernel>,
    ids: Ids,
    // The room that the log was asked for last.
    asked: u32,
}

impl Model for Hosts {
    ghost use Rattle.vm_hosts.specs.Hosts.{HostTable};

    ghost Value = { HostTable };

    ghost view = { λ s. record { kernels = s.kernels.items; ids = s.ids } };
}

impl Hosts {
    /// The kernels before anything has happened; all frames are taken now.
    pub fn new(alloc: Global, header: &Header) -> Result<Hosts, NoMemory>
        requires ranged { IsRanged header.now }
        ensures rests { IfOk result (λ hosts. AllRest header.now hosts []) }
        ensures queues { IfOk result (λ hosts. AllQueued header.now hosts []) }
    {
        let kernels = make_kernels(alloc, header)?;
        let declared = header.objects.len();
        let ids = Ids {
            next_object: declared,
            next_region: declared,
            marks: 0,
        };
        Ok(Hosts {
            alloc,
            kernels,
            ids,
            asked: 0,
        })
    }

    /// Makes room for one step in which a host acts in such a breadth, or none does, and for its events in the log,
    /// with so many more; gives how many events the step adds at most. A host that doesn't act takes part where an
    /// access waits for a frame there. Nothing but room changes. It fails for want of memory alone.
    pub fn reserve(
        &mut self,
        acting: Option<HostId>,
        breadth: Breadth,
        more: u32,
        log: &mut Events,
    ) -> Result<u32, NoMemory>
        ensures rests { (header : Header) (past : List Event) → AllRest header self.old past → AllRest header self.new past }
        ensures queues { (header : Header) (past : List Event) → AllRest header self.old past → AllQueued header self.old past
            → AllQueued header self.new past }
        ensures items { log.new.items ≡ log.old.items }
        ensures ready { IfOk result (λ events. IsReady acting breadth events self.new log.new.room × (events + more ≤ log.new.room)) }
    {
        let most = self.reserve_tables(acting, breadth)?;
        let Ok(events) = u32::try_from(most) else {
            return Err(NoMemory);
        };
        let Some(room) = events.checked_add(more) else {
            return Err(NoMemory);
        };
        let asked = room_to_ask(self.asked, room);
        log.reserve(asked)?;
        self.asked = asked;
        Ok(events)
    }

    // Makes room for one step in the tables of each host that takes part, and gives how many events the step adds at most.
    fn reserve_tables(&mut self, acting: Option<HostId>, breadth: Breadth) -> Result<u64, NoMemory>
        ensures rests { (header : Header) (past : List Event) → AllRest header self.old past → AllRest header self.new past }
        ensures queues { (header : Header) (past : List Event) → AllRest header self.old past → AllQueued header self.old past
            → AllQueued header self.new past }
        ensures ready { IfOk result (λ most. (space : ℕ) → most ≤ space → IsReady acting breadth most self.new space) }
    {
        let mut most: u64 = 0;
        'rooms: for host in 0..self.kernels.len() {
            let told = reserve_on(&mut self.kernels[host], acting, host, breadth)?;
            let Some(sum) = most.checked_add(told) else {
                return Err(NoMemory);
            };
            most = sum;
        }
        Ok(most)
    }

    /// Runs a command of a host that isn't refused, up to the end of its step, and adds what happened behind its
    /// line to the log. It fails for want of memory alone, and then nothing but room has changed.
    pub fn begin(
        &mut self,
        host: HostId,
        command: &Command,
        log: &mut Events,
    ) -> Result<(), NoMemory>
        ghost given: { Step }
        requires rests { AllRest given.header self.old given.past }
        requires command { given.command ≡ command.now }
        requires range { InRange given.header command.now }
        requires built { kernel_runs command.now ≡ true }
        requires accepted { refusal given.header given.past command.now ≡ None }
        requires begins { IsLined given.past }
        requires empty { log.old.items ≡ [] }
        requires acts { ActsOn given.header host.0 command.now given.past }
        requires ready { (events : ℕ) × IsReady (Some host) (breadth_of command.now) events self.old log.old.room }
        ensures began { OnOk result (Began given.header given.outside command.now given.past self.new log.new.items) }
        ensures few { OnOk result ((events : ℕ) → IsReady (Some host) (breadth_of command.now) events self.old log.old.room → length log.new.items ≤ events) }
        ensures err { OnErr result (AllRest given.header self.new given.past
            × ((AllQueued given.header self.old given.past → AllQueued given.header self.new given.past) × (log.new.items ≡ []))) }
    {
        self.kernels[host.0 as usize].begin(command, &mut self.ids, log)?;
        self.serve_all(log);
        Ok(())
    }

    /// A host takes what a pager says to a control of an object; what happened behind the taking, up to the end
    /// of its step, is added to the log. It fails for want of memory alone, and then nothing but room has changed.
    pub fn take(
        &mut self,
        host: HostId,
        object: ObjectId,
        control: u32,
        message: &Message,
        log: &mut Events,
    ) -> Result<(), NoMemory>
        ghost given: { Step }
        requires rests { AllRest given.header self.old given.past }
        requires queues { AllQueued given.header self.old given.past }
        requires host { host.0 < length given.header.frames.items }
        requires word { IsWord given.header.size message.now }
        requires licensed { LicensedInTurn given.header given.outside given.command (event.Taken (channels.Down host object control) message.now) given.past }
        requires empty { log.old.items ≡ [] }
        requires ready { (events : ℕ) × IsReady (Some host) (word_breadth message.now) events self.old log.old.room }
        requires destroy { is_destroy message.now ≡ true → MayDestroy given.header host.0 object.0 given.past }
        requires copies { IsOfPushed host.0 object.0 message.now given.past }
        ensures passed { OnOk result (HostsPart given.header given.outside given.command
            (event.Taken (channels.Down host object control) message.now ∷ given.past) self.new log.new.items) }
        ensures failed { OnOk result (IsErrorPaid given.header (log.new.items ++ event.Taken (channels.Down host object control) message.now ∷ given.past)) }
        ensures zeroed { OnOk result (IsAbsencePaid given.header (log.new.items ++ event.Taken (channels.Down host object control) message.now ∷ given.past)) }
        ensures locked { OnOk result (IsLockPaid given.header (log.new.items ++ event.Taken (channels.Down host object control) message.now ∷ given.past)) }
        ensures changed { OnOk result (IsChangePaid (log.new.items ++ event.Taken (channels.Down host object control) message.now ∷ given.past)) }
        ensures destroyed { OnOk result (IsDestroyPaid given.header
            (log.new.items ++ event.Taken (channels.Down host object control) message.now ∷ given.past)) }
        ensures ended { OnOk result (EndsAll given.header (log.new.items ++ event.Taken (channels.Down host object control) message.now ∷ given.past)) }
        ensures few { OnOk result ((events : ℕ) → IsReady (Some host) (word_breadth message.now) events self.old log.old.room → length log.new.items ≤ events) }
        ensures err { OnErr result (AllRest given.header self.new given.past × (AllQueued given.header self.new given.past × (log.new.items ≡ []))) }
    {
        self.hear(host, object, control, message, log)
    }

    /// The pager of a host took a message and answered; where that returned a page that the host didn't keep
    /// (`washed`), its frame is free. What happened behind that, up to the end of the step, is added to the log.
    pub fn follow(&mut self, host: HostId, washed: bool, log: &mut Events)
        ghost given: { Going }
        requires rests { AllRest given.header self.old given.past }
        requires answers { PagerStep given.header given.outside given.command host washed given.past given.front }
        requires empty { log.old.items ≡ [] }
        requires ready { (acting : Option HostId) × ((breadth : Breadth) × ((events : ℕ) × IsReady acting breadth events self.old log.old.room)) }
        ensures passed { HostsPart given.header given.outside given.command (given.front ++ given.past) self.new log.new.items }
        ensures few { (acting : Option HostId) (breadth : Breadth) (events : ℕ) → IsReady acting breadth events self.old log.old.room
            → length log.new.items ≤ events }
    {
        self.behind(host, washed);
        self.serve_all(log);
    }

    // A host takes what a pager says, which stands in front.
    fn hear(
        &mut self,
        host: HostId,
        object: ObjectId,
        control: u32,
        message: &Message,
        log: &mut Events,
    ) -> Result<(), NoMemory>
        ghost given: { Going }
        requires rests { AllRest given.header self.old given.past }
        requires queues { AllQueued given.header self.old given.past }
        requires host { host.0 < length given.header.frames.items }
        requires front { given.front ≡ event.Taken (channels.Down host object control) message.now ∷ [] }
        requires word { IsWord given.header.size message.now }
        requires licensed { LicensedInTurn given.header given.outside given.command (event.Taken (channels.Down host object control) message.now) given.past }
        requires empty { log.old.items ≡ [] }
        requires ready { (events : ℕ) × IsReady (Some host) (word_breadth message.now) events self.old log.old.room }
        requires destroy { is_destroy message.now ≡ true → MayDestroy given.header host.0 object.0 given.past }
        requires copies { IsOfPushed host.0 object.0 message.now given.past }
        ensures passed { OnOk result (HostsPart given.header given.outside given.command (given.front ++ given.past) self.new log.new.items) }
        ensures failed { OnOk result (IsErrorPaid given.header (log.new.items ++ (given.front ++ given.past))) }
        ensures zeroed { OnOk result (IsAbsencePaid given.header (log.new.items ++ (given.front ++ given.past))) }
        ensures locked { OnOk result (IsLockPaid given.header (log.new.items ++ (given.front ++ given.past))) }
        ensures changed { OnOk result (IsChangePaid (log.new.items ++ (given.front ++ given.past))) }
        ensures destroyed { OnOk result (IsDestroyPaid given.header (log.new.items ++ (given.front ++ given.past))) }
        ensures ended { OnOk result (EndsAll given.header (log.new.items ++ (given.front ++ given.past))) }
        ensures few { OnOk result ((events : ℕ) → IsReady (Some host) (word_breadth message.now) events self.old log.old.room → length log.new.items ≤ events) }
        ensures err { OnErr result (AllRest given.header self.new given.past × (AllQueued given.header self.new given.past × (log.new.items ≡ []))) }
    {
        self.kernels[host.0 as usize].take(object, control, message, &mut self.ids, log)?;
        self.serve_all(log);
        Ok(())
    }

    // Gives the frame of a return that was taken back.
    fn behind(&mut self, host: HostId, washed: bool)
        ghost given: { Going }
        requires rests { AllRest given.header self.old given.past }
        requires answers { PagerStep given.header given.outside given.command host washed given.past given.front }
        ensures rests { AllRest given.header self.new (given.front ++ given.past) }
        ensures ready { (acting : Option HostId) (breadth : Breadth) (events room : ℕ) → IsReady acting breadth events self.old room
            → IsReady acting breadth events self.new room }
    {
        if washed {
            self.kernels[host.0 as usize].laundered(&self.ids);
        }
    }

    /// A step ends: every host serves its frame queue, and what happened is added to the step's events.
    pub fn serve(&mut self, log: &mut Events)
        ghost given: { Step }
        requires rests { AllRest given.header self.old (log.old.items ++ given.past) }
        requires ready { (acting : Option HostId) × ((breadth : Breadth) × ((events : ℕ) × IsReady acting breadth events self.old log.old.room)) }
        ensures went { Went given.header given.outside given.command given.past log.old.items self.new log.new.items }
        ensures few { (acting : Option HostId) (breadth : Breadth) (events : ℕ) → IsReady acting breadth events self.old log.old.room
            → length log.new.items ≤ length log.old.items + events }
    {
        self.serve_all(log);
    }

    // Every host serves its frame queue, by rising number.
    fn serve_all(&mut self, log: &mut Events)
        ghost given: { Step }
        requires rests { AllRest given.header self.old (log.old.items ++ given.past) }
        requires room { CanServe self.old log.old.room }
        ensures went { Went given.header given.outside given.command given.past log.old.items self.new log.new.items }
        ensures few { length log.new.items ≤ length log.old.items + sum_of_dues self.old.kernels }
    {
        'hosts: for host in 0..self.kernels.len() {
            self.kernels[host].serve(&mut self.ids, log);
        }
    }

    /// Why a command is refused now, if it is, that acts on a host as `host_for` tells: its names are judged
    /// here, and all else by that host's kernel. It takes no memory.
    pub fn refusal(&self, host: Option<HostId>, command: &Command) -> Option<Code>
        ghost given: { Step }
        requires rests { AllRest given.header self.now given.past }
        requires range { InRange given.header command.now }
        requires built { kernel_runs command.now ≡ true }
        requires found { IsFoundOn given.header command.now given.past host }
        ensures { result ≡ refusal given.header given.past command.now }
    {
        let Some(host) = host else {
            return Some(Code::NoSuchName);
        };
        if self.takes_name(command) {
            return Some(Code::NameTaken);
        }
        if let Some(code) = self.pair_refusal(host, command) {
            return Some(code);
        }
        let elsewhere = self.maps_elsewhere(host, command);
        self.kernels[host.0 as usize].refusal(command, &self.ids, elsewhere)
    }

    /// The control of an object that lives on a host, if one does.
    pub fn control(&self, host: HostId, object: ObjectId) -> Option<u32>
        ghost given: { Step }
        requires rests { AllRest given.header self.now given.past }
        requires known { host.0 < length given.header.frames.items }
        ensures { result ≡ live_control host.0 object.0 given.past }
    {
        match self.kernels[host.0 as usize].object(object) {
            Some(known) => {
                if known.live {
                    Some(known.control)
                } else {
                    None
                }
            }
            None => None,
        }
    }

    // Whether a command of a host maps a file that belongs to another one: a file is known on its own host
    // alone.
    fn maps_elsewhere(&self, host: HostId, command: &Command) -> bool
        ghost given: { Step }
        requires rests { AllRest given.header self.now given.past }
        requires acts { ActsOn given.header host.0 command.now given.past }
        ensures { result ≡ maps_elsewhere given.header host.0 command.now given.past }
    {
        match command {
            Command::Map { object, .. } => self.is_elsewhere(host, *object),
            _ => false,
        }
    }

    // Whether an object is a file that another host knows.
    fn is_elsewhere(&self, host: HostId, object: ObjectId) -> bool
        ghost given: { Step }
        requires rests { AllRest given.header self.now given.past }
        ensures { result ≡ is_elsewhere given.header object.0 (Some host.0) given.past }
    {
        'search: for other in 0..self.kernels.len() {
            if other != host.0 as usize && knows_file(&self.kernels[other], object) {
                return true;
            }
        }
        false
    }

    // Why a copy from a task of the host is refused before its kernel judges it: its target doesn't live, an
    // access of either task waits, or they live on different hosts.
    fn pair_refusal(&self, host: HostId, command: &Command) -> Option<Code>
        ghost given: { Step }
        requires rests { AllRest given.header self.now given.past }
        requires acts { ActsOn given.header host.0 command.now given.past }
        ensures { MatchOption result (targets_here host.0 command.now given.past ≡ true) (λ code. refusal given.header given.past command.now ≡ Some code) }
    {
        let Command::Copy { task, target, .. } = command else {
            return None;
        };
        let Some(other) = self.home(*target) else {
            return Some(Code::NoSuchName);
        };
        if self.waits(host, *task) || self.waits(other, *target) {
            return Some(Code::Blocked);
        }
        if other != host {
            return Some(Code::InvalidArgument);
        }
        None
    }

    // Whether a task of the host waits.
    fn waits(&self, host: HostId, task: TaskId) -> bool
        ghost given: { Step }
        requires rests { AllRest given.header self.now given.past }
        requires lives { host_of task.0 given.past ≡ Some host.0 }
        ensures { result ≡ is_some (waiting task.0 given.past) }
    {
        self.kernels[host.0 as usize].waits(task)
    }

    /// The host on which a command acts; None where its task doesn't live.
    pub fn host_for(&self, command: &Command) -> Option<HostId>
        ghost given: { Step }
        requires rests { AllRest given.header self.now given.past }
        requires range { InRange given.header command.now }
        requires built { kernel_runs command.now ≡ true }
        ensures { IsFoundOn given.header command.now given.past result }
    {
        match command {
            Command::Task { host, .. }
            | Command::Pageout { host, .. }
            | Command::Wire { host, .. }
            | Command::Unwire { host, .. } => Some(*host),
            Command::Fork { task, .. }
            | Command::Exit { task }
            | Command::Allocate { task, .. }
            | Command::Deallocate { task, .. }
            | Command::Protect { task, .. }
            | Command::Inherit { task, .. }
            | Command::Load { task, .. }
            | Command::Store { task, .. } => self.home(*task),
            Command::Map { task, .. } => self.home(*task),
            Command::Copy { task, .. } => self.home(*task),
            _ => None,
        }
    }

    // Whether the command makes a task whose number is taken.
    fn takes_name(&self, command: &Command) -> bool
        ghost given: { Step }
        requires rests { AllRest given.header self.now given.past }
        ensures { result ≡ takes_name command.now given.past }
    {
        match command {
            Command::Task { task, .. } => self.home(*task).is_some(),
            Command::Fork { child, .. } => self.home(*child).is_some(),
            _ => false,
        }
    }

    // The host of a task that lives; None where it doesn't.
    fn home(&self, task: TaskId) -> Option<HostId>
        ghost given: { Step }
        requires rests { AllRest given.header self.now given.past }
        ensures { option_map (λ (h : HostId). h.0) result ≡ host_of task.0 given.past }
    {
        'search: for host in 0..self.kernels.len() {
            if self.kernels[host].maps().has(task) {
                return Some(HostId(host as u32));
            }
        }
        None
    }
}

// Makes room for one step on a host, if it takes part, and gives how many events it adds at most.
fn reserve_on(
    kernel: &mut Kernel,
    acting: Option<HostId>,
    host: usize,
    breadth: Breadth,
) -> Result<u64, NoMemory>
    ensures is { kernel.new ≡ with_rooms_of kernel.new kernel.old }
    ensures most { IfOk result (λ most. most ≡ most_on acting breadth host kernel.new) }
    ensures ready { OnOk result (takes_part acting host kernel.new ≡ true → IsReadyOn breadth kernel.new) }
{
    if !acts_in(acting, host) && !kernel.has_queue() {
        return Ok(0);
    }
    kernel.reserve(breadth)?;
    Ok(kernel.most(breadth))
}

// Whether a host acts in a step.
fn acts_in(acting: Option<HostId>, host: usize) -> bool
    ensures { result ≡ acts_in acting host }
{
    match acting {
        Some(acting) => acting.0 as usize == host,
        None => false,
    }
}

// The room to ask a log for: what it was asked for last, or half as much again as is needed, so that it
// seldom grows.
fn room_to_ask(last: u32, needed: u32) -> u32
    ensures { needed ≤ result }
{
    if needed <= last {
        return last;
    }
    needed.saturating_add(needed / 2)
}

// Whether a host knows an object that is a file.
fn knows_file(kernel: &Kernel, object: ObjectId) -> bool
    ensures { result ≡ knows_file (object_at kernel.now.memory.objects object.0) }
{
    match kernel.object(object) {
        Some(known) => known.kind == ObjectKind::File,
        None => false,
    }
}

// The kernels of the header's hosts.
fn make_kernels(alloc: Global, header: &Header) -> Result<Vec<Kernel>, NoMemory>
    requires ranged { IsRanged header.now }
    ensures made { IfOk result (λ kernels. AreNew header.now (length header.now.frames.items) kernels.items) }
{
    let mut kernels = Vec::new(alloc);
    'hosts: for host in 0..header.frames.len() {
        let kernel = Kernel::new(alloc, HostId(host), header)?;
        kernels.push(kernel)?;
    }
    Ok(kernels)
}
