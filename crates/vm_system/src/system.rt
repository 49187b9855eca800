// The whole system.
ghost use Rattle.std.specs.Prelude.{◌≡◌, ◌≢◌, ◌+◌, ◌≤◌, ◌<◌, ◌↔◌, ◌⊎◌, ◌^◌, ◌∷◌, ℕ, List, [], true, false, None, Ok, Some, IfOk, IsErrOf, IsOkAnd, IsTrue};
ghost use Rattle.std.specs.Prelude.{OnOk, OnErr, length, nat_le, reverse};
ghost use Rattle.vm_base.specs.Limits.{most_slots};
ghost use Rattle.vm_base.specs.declared.code.Code.{Code};
ghost use Rattle.vm_model.specs.Limits.{most_events};
ghost use Rattle.vm_model.specs.Ranges.{InRange};
ghost use Rattle.vm_legal.specs.Refusal.{refusal};
ghost use Rattle.vm_legal.specs.Outside.{Outside};
ghost use Rattle.vm_model.specs.declared.script.Header.{Header};
ghost use Rattle.vm_legal.specs.Undelivered.{undelivered};
ghost use Rattle.vm_model.specs.declared.event.Device.TheVariants as device;
ghost use Rattle.vm_outside.specs.Areas.{Told};
ghost use Rattle.vm_system.specs.Backed.{BackingGoes, BackingsFit};
ghost use Rattle.vm_system.specs.Keeping.{FilesAreTold, FilesCarry};
ghost use Rattle.vm_outside.specs.Arming.{KeepsArming, ReachesOne};
ghost use Rattle.vm_model.specs.declared.event.Event.TheVariants as event;
ghost use Rattle.vm_legal.specs.Steps.{before_step, takings};
ghost use Rattle.vm_model.specs.Moments.{before_last_line};
ghost use Rattle.vm_kernel.specs.Matches.{IsRanged};
ghost use Rattle.vm_model.specs.Named.{named};
ghost use Rattle.vm_hosts.specs.Steps.{Step};
ghost use Rattle.vm_system.specs.Resting.{LeavesAtRest};
ghost use Rattle.vm_system.specs.Stands.{AllFilesServe, AllTold, AreEmpty, AreNumbered, FilesAreKept, IsServable, PagingIsKept, SystemStands};
ghost use Rattle.vm_system.specs.Steps.{GrowsWithinLimit, HasMore, KeepsCanonical, KeepsOpen, LeavesBacking, Setting, arms, takes_any, took_up};

use crate::channels::Channels;
use crate::state::State;
use crate::stop::SystemStop;
use pg_default::DefaultPager;
use pg_file::FilePager;
use sms_server::Server;
use std::alloc::Global;
use std::marker::Model;
use vm_base::{Buffers, Code, HostId, Listing, NoMemory, ObjectId};
use vm_hosts::Hosts;
use vm_model::limits::MOST_EVENTS;
use vm_model::{Command, Declared, Header, History};
use vm_outside::{Armed, Backing};
use vm_ports::Ports;

/// The hosts with their kernels and default pagers, the channels between them, and what happened.
///
/// Contracts see its parts, which stand for the history.
#[derive(Drop)]
pub struct System {
    state: State,
}

impl Model for System {
    ghost use Rattle.vm_system.specs.declared.state.State.{State};

    ghost Value = { State };

    ghost view = { λ s. s.state };
}

impl System {
    /// Nothing has happened yet; the hosts' frames are taken.
    pub fn new(alloc: Global, header: &Header) -> Result<System, NoMemory>
        requires built { IsServable header.now }
        requires few { header.now.slots ≤ most_slots }
        ensures stands { (outside : Outside) → IfOk result (λ system. SystemStands header.now outside system) }
        ensures kept { (outside : Outside) → (areas : List ℕ → Told)
            → IfOk result (λ system. (outside.paging ≡ true → AllTold areas system.pagers.items) → PagingIsKept header.now outside areas system) }
        ensures files { (outside : Outside) → (areas : List ℕ → Told)
            → IfOk result (λ system. FilesAreTold header.now outside areas → FilesAreKept header.now outside areas system) }
        ensures carried { (areas : List ℕ → Told) → FilesCarry header.now areas areas [] }
        ensures nothing { IfOk result (λ system. system.history.items ≡ []) }
        ensures pagers { IfOk result (λ system. AreNumbered header.now system.pagers.items) }
    {
        let hosts = Hosts::new(alloc, header)?;
        let pagers = make_pagers(alloc, header)?;
        let files = make_files(alloc, header)?;
        let declared = make_declared(alloc, header)?;
        let state = State {
            alloc,
            size: header.size,
            hosts,
            pagers,
            declared,
            files,
            server: Server::new(alloc, header.size),
            ports: Ports::new(alloc),
            channels: Channels::new(alloc),
            buffers: Buffers::new(alloc, header.size),
            history: History::new(alloc),
            log: Listing::new(alloc),
        };
        Ok(System { state })
    }

    /// Why a command is refused now, if it is. It takes no memory.
    pub fn refusal(&self, command: &Command) -> Option<Code>
        ghost given: { Setting }
        requires stands { SystemStands given.header given.outside self.now }
        requires range { InRange given.header command.now }
        ensures { result ≡ refusal given.header self.now.history.items command.now }
    {
        let host = self.state.acting(command);
        self.state.refusal(host, command)
    }

    /// Makes one command's step, and gives the number of events that it added; of a `settle` that
    /// is its line alone.
    ///
    /// `EventLimit` comes exactly where the history has 200,000 events or more, and then nothing has
    /// changed. After `NoMemory` the system is as before, and the same call may be made again.
    pub fn step<F: Backing, P: Backing>(
        &mut self,
        line: u32,
        command: &Command,
        files: &mut Armed<F>,
        paging: &mut Armed<P>,
    ) -> Result<u32, SystemStop>
        ghost given: { Setting }
        requires stands { SystemStands given.header given.outside self.old }
        requires backings { (start : List ℕ → Told) × BackingsFit given.header given.outside start (F.area files.old.inner) (P.area paging.old.inner) self.old }
        requires range { InRange given.header command.now }
        ensures stands { OnOk result (SystemStands given.header given.outside self.new) }
        ensures legal { OnOk result (KeepsCanonical given.header given.outside (record { line = line; command = command.now }) self.old.history.items
            self.new.history.items) }
        ensures rests { OnOk result (LeavesAtRest given.header self.old.history.items self.new.history.items) }
        ensures count { IfOk result (λ n. length self.new.history.items ≡ length self.old.history.items + n) }
        ensures full { IsErrOf result SystemStop.EventLimit ↔ (most_events ≤ length self.old.history.items) }
        ensures below { OnOk result (length self.old.history.items < most_events) }
        ensures grew { GrowsWithinLimit self.old.history.items self.new.history.items }
        ensures front { OnOk result (before_last_line self.new.history.items ≡ self.old.history.items) }
        ensures unchanged { IsErrOf result SystemStop.EventLimit → (self.new ≡ self.old) × (files.new ≡ files.old) × (paging.new ≡ paging.old) }
        ensures refused { IsErrOf result SystemStop.NoMemory → SystemStands given.header given.outside self.new
            × ((self.new.history.items ≡ self.old.history.items) × (KeepsArming files.old files.new × KeepsArming paging.old paging.new)) }
        ensures backings { (start : List ℕ → Told) → BackingsFit given.header given.outside start (F.area files.old.inner) (P.area paging.old.inner) self.old
            → BackingsFit given.header given.outside start (F.area files.new.inner) (P.area paging.new.inner) self.new }
        ensures alone { OnOk result ((count : ℕ) → command.now ≡ Command.Settle count → self.new.history.items ≡ event.Line line ∷ self.old.history.items) }

        // The backings; at an error all is as it was, unless the command takes a message that goes to a pager, which may have asked its own.
        ensures files { OnOk result (LeavesBacking given.header device.Files command.now self.new.history.items files.old files.new) }
        ensures paging { OnOk result (LeavesBacking given.header device.Paging command.now self.new.history.items paging.old paging.new) }
        ensures files_reached { ReachesOne files.old files.new }
        ensures reached { ReachesOne paging.old paging.new }
        ensures calm { OnErr result (takes_any command.now ≡ false → (self.new.history.items ≡ self.old.history.items) × (files.new ≡ files.old)
            × (paging.new ≡ paging.old)) }
        ensures files_go { BackingGoes device.Files (arms device.Files command.now ≡ None → ⟦<Armed<F> as Backing>⟧.later files.old files.new)
            (⟦<Armed<F> as Backing>⟧.faults files.old) (⟦<Armed<F> as Backing>⟧.faults files.new) self.old.history.items self.new.history.items }
        ensures paging_goes { BackingGoes device.Paging (arms device.Paging command.now ≡ None → ⟦<Armed<P> as Backing>⟧.later paging.old paging.new)
            (⟦<Armed<P> as Backing>⟧.faults paging.old) (⟦<Armed<P> as Backing>⟧.faults paging.new) self.old.history.items self.new.history.items }
    {
        if self.is_full() {
            return Err(SystemStop::EventLimit);
        }
        let before = self.state.history.len();
        self.state.step(line, command, files, paging)?;
        Ok(self.state.history.len() - before)
    }

    /// Takes the undelivered message that was sent first, in the step of a settle; false exactly where
    /// nothing is undelivered.
    ///
    /// `EventLimit` comes exactly where something is undelivered and the history has 200,000 events or
    /// more, and then nothing has changed. After `NoMemory` the system is as before, and the same call may be made again.
    pub fn take_oldest<F: Backing, P: Backing>(
        &mut self,
        files: &mut Armed<F>,
        paging: &mut Armed<P>,
    ) -> Result<bool, SystemStop>
        ghost given: { Step }
        requires stands { SystemStands given.header given.outside self.old }
        requires backings { (start : List ℕ → Told) × BackingsFit given.header given.outside start (F.area files.old.inner) (P.area paging.old.inner) self.old }
        requires past { given.past ≡ self.old.history.items }
        requires more { HasMore given.command self.old.history.items }
        ensures stands { OnOk result (SystemStands given.header given.outside self.new) }
        ensures legal { IfOk result (λ took. took ≡ true → KeepsOpen given.header given.outside given.command self.old.history.items self.new.history.items) }
        ensures rests { OnOk result (LeavesAtRest given.header self.old.history.items self.new.history.items) }
        ensures quiet { IfOk result (λ took. took ≡ false → (undelivered self.old.history.items ≡ []) × (self.new ≡ self.old) × (files.new ≡ files.old)
            × (paging.new ≡ paging.old)) }
        ensures some { IfOk result (λ took. took ≡ true → undelivered self.old.history.items ≢ []) }
        ensures calm { undelivered self.old.history.items ≡ [] → result ≡ Ok false }
        ensures count { IfOk result (λ took. took ≡ true → takings self.new.history.items ≡ takings self.old.history.items + 1) }
        ensures below { IfOk result (λ took. took ≡ true → length self.old.history.items < most_events) }
        ensures grew { GrowsWithinLimit self.old.history.items self.new.history.items }
        ensures front { IfOk result (λ took. took ≡ true → before_step self.new.history.items ≡ self.old.history.items) }
        ensures files_unasked { IfOk result (λ took. took ≡ true → took_up given.header device.Files self.new.history.items ≡ false → files.new ≡ files.old) }
        ensures unasked { IfOk result (λ took. took ≡ true → took_up given.header device.Paging self.new.history.items ≡ false → paging.new ≡ paging.old) }
        ensures full { IsErrOf result SystemStop.EventLimit ↔ ((most_events ≤ length self.old.history.items) × (undelivered self.old.history.items ≢ [])) }
        ensures unchanged { IsErrOf result SystemStop.EventLimit → (self.new ≡ self.old) × (files.new ≡ files.old) × (paging.new ≡ paging.old) }
        ensures refused { IsErrOf result SystemStop.NoMemory → SystemStands given.header given.outside self.new
            × ((self.new.history.items ≡ self.old.history.items) × (KeepsArming files.old files.new × KeepsArming paging.old paging.new)) }
        ensures backings { (start : List ℕ → Told) → BackingsFit given.header given.outside start (F.area files.old.inner) (P.area paging.old.inner) self.old
            → BackingsFit given.header given.outside start (F.area files.new.inner) (P.area paging.new.inner) self.new }
        ensures files_reached { ReachesOne files.old files.new }
        ensures reached { ReachesOne paging.old paging.new }
        ensures files_go { BackingGoes device.Files (⟦<Armed<F> as Backing>⟧.later files.old files.new) (⟦<Armed<F> as Backing>⟧.faults files.old)
            (⟦<Armed<F> as Backing>⟧.faults files.new) self.old.history.items self.new.history.items }
        ensures paging_goes { BackingGoes device.Paging (⟦<Armed<P> as Backing>⟧.later paging.old paging.new) (⟦<Armed<P> as Backing>⟧.faults paging.old)
            (⟦<Armed<P> as Backing>⟧.faults paging.new) self.old.history.items self.new.history.items }
    {
        let Some(number) = self.state.ports.oldest() else {
            return Ok(false);
        };
        if self.is_full() {
            return Err(SystemStop::EventLimit);
        }
        self.state.take(None, number, files, paging)?;
        Ok(true)
    }

    // No step begins any more.
    fn is_full(&self) -> bool
        ensures { result ≡ nat_le most_events (length self.now.history.items) }
    {
        self.state.history.len() >= MOST_EVENTS
    }

    /// What happened.
    pub fn history(&self) -> &History
        ensures { result.now ≡ self.now.history }
    {
        &self.state.history
    }

    /// What happened, given up.
    pub fn into_history(self) -> History
        ensures { result ≡ self.history }
    {
        let state = self.state;
        state.history
    }

    /// Whether nothing is undelivered.
    pub fn quiet(&self) -> bool
        ensures { (header : Header) (outside : Outside) → SystemStands header outside self.now → IsTrue result ↔ (undelivered self.now.history.items ≡ []) }
    {
        self.state.ports.oldest().is_none()
    }
}

// The default pagers of the header's hosts.
fn make_pagers(alloc: Global, header: &Header) -> Result<Vec<DefaultPager>, NoMemory>
    requires ranged { IsRanged header.now }
    requires few { header.now.slots ≤ most_slots }
    ensures numbered { IfOk result (λ pagers. AreNumbered header.now pagers.items) }
    ensures empty { IfOk result (λ pagers. AreEmpty header.now pagers.items) }
{
    let mut pagers = Vec::new(alloc);
    'hosts: for host in 0..header.frames.len() {
        let pager = DefaultPager::new(alloc, HostId(host), header.slots, header.size)?;
        pagers.push(pager)?;
    }
    Ok(pagers)
}

// The pagers of the declared objects, as if all were files.
fn make_files(alloc: Global, header: &Header) -> Result<Vec<FilePager>, NoMemory>
    requires { named header.now < 2 ^ 32 }
    ensures { IfOk result (λ files. AllFilesServe header.now files.items []) }
{
    let mut files = Vec::new(alloc);
    'objects: for object in 0..header.objects.len() {
        let name = header.objects.at(object).name;
        let pager = FilePager::new(alloc, ObjectId(object), name, header.size)?;
        files.push(pager)?;
    }
    Ok(files)
}

// The declared objects.
fn make_declared(alloc: Global, header: &Header) -> Result<Vec<Declared>, NoMemory>
    ensures { IfOk result (λ objects. objects.items ≡ reverse header.now.objects.items) }
{
    let mut objects = Vec::new(alloc);
    'objects: for object in 0..header.objects.len() {
        objects.push(*header.objects.at(object))?;
    }
    Ok(objects)
}
