// The hosts, the server, and what happens between them.
ghost use Rattle.std.specs.Prelude.{◌≡◌, ◌≤◌, ◌<◌, ◌+◌, OnOk, OnErr, IfOk, IsOk, Some, length, slice_get, true, false};
ghost use Rattle.sms_proto.specs.Steps.{Takes};
ghost use Rattle.sms_proto.specs.declared.step.WorldStep.TheVariants as step;
ghost use Rattle.sms_pages.specs.Desk.{AllLong};
ghost use Rattle.sms_proto.specs.Worlds.{WorldStands};

use crate::kernel::{Kernel, Want};
use sms_pages::PageDirectory;
use std::alloc::Global;
use vm_base::{HostId, Listing, NoMemory, PageBytes, PageSize};
use vm_model::Events;

/// The kernels of the hosts, the server's directory, the events so far, and pages for the supplies
/// to come.
#[derive(Drop)]
pub struct Stage {
    pub size: PageSize,
    pub kernels: Vec<Kernel>,
    pub directory: PageDirectory,
    pub events: Events,
    pub spare: Listing<PageBytes>,
    pub alloc: Global,
}

impl Stage {
    /// The host's task begins a load, if it waits for no access.
    pub fn load(&mut self, host: HostId) -> Result<(), NoMemory>
        requires host { host.0 < length self.old.kernels.items }
        requires stands { WorldStands self.old.size self.old.kernels.items self.old.directory self.old.events.items }
        requires spare { AllLong self.old.size self.old.spare.items }
        ensures stands { WorldStands self.new.size self.new.kernels.items self.new.directory self.new.events.items }
        ensures same { (self.new.size ≡ self.old.size)
            × (length self.new.kernels.items ≡ length self.old.kernels.items) }
        ensures spare { AllLong self.new.size self.new.spare.items }
        ensures takes { OnOk result (Takes self.old.size (step.Load host) self.old.events.items self.new.events.items) }
        ensures err { OnErr result (self.new.events.items ≡ self.old.events.items) }
    {
        let want = Want {
            store: false,
            value: 0,
        };
        self.kernels[host.0 as usize].access(want, &mut self.events)
    }

    /// The host's task begins a store, if it waits for no access.
    pub fn store(&mut self, host: HostId, value: u64) -> Result<(), NoMemory>
        requires host { host.0 < length self.old.kernels.items }
        requires stands { WorldStands self.old.size self.old.kernels.items self.old.directory self.old.events.items }
        requires spare { AllLong self.old.size self.old.spare.items }
        ensures stands { WorldStands self.new.size self.new.kernels.items self.new.directory self.new.events.items }
        ensures same { (self.new.size ≡ self.old.size)
            × (length self.new.kernels.items ≡ length self.old.kernels.items) }
        ensures spare { AllLong self.new.size self.new.spare.items }
        ensures takes { OnOk result (Takes self.old.size (step.Store host value) self.old.events.items self.new.events.items) }
        ensures err { OnErr result (self.new.events.items ≡ self.old.events.items) }
    {
        let want = Want { store: true, value };
        self.kernels[host.0 as usize].access(want, &mut self.events)
    }

    /// The host gives the page up, if it has it and its task waits for no access.
    pub fn evict(&mut self, host: HostId) -> Result<(), NoMemory>
        requires host { host.0 < length self.old.kernels.items }
        requires stands { WorldStands self.old.size self.old.kernels.items self.old.directory self.old.events.items }
        requires spare { AllLong self.old.size self.old.spare.items }
        ensures stands { WorldStands self.new.size self.new.kernels.items self.new.directory self.new.events.items }
        ensures same { (self.new.size ≡ self.old.size)
            × (length self.new.kernels.items ≡ length self.old.kernels.items) }
        ensures spare { AllLong self.new.size self.new.spare.items }
        ensures takes { OnOk result (Takes self.old.size (step.Evict host) self.old.events.items self.new.events.items) }
        ensures err { OnErr result (self.new.events.items ≡ self.old.events.items) }
    {
        self.kernels[host.0 as usize].evict(&mut self.events)
    }

    /// The host gives the page up and ends its control, if it has one and its task waits for no access.
    pub fn leave(&mut self, host: HostId) -> Result<(), NoMemory>
        requires host { host.0 < length self.old.kernels.items }
        requires stands { WorldStands self.old.size self.old.kernels.items self.old.directory self.old.events.items }
        requires spare { AllLong self.old.size self.old.spare.items }
        ensures stands { WorldStands self.new.size self.new.kernels.items self.new.directory self.new.events.items }
        ensures same { (self.new.size ≡ self.old.size)
            × (length self.new.kernels.items ≡ length self.old.kernels.items) }
        ensures spare { AllLong self.new.size self.new.spare.items }
        ensures takes { OnOk result (Takes self.old.size (step.Leave host) self.old.events.items self.new.events.items) }
        ensures err { OnErr result (self.new.events.items ≡ self.old.events.items) }
    {
        self.kernels[host.0 as usize].leave(&mut self.events)
    }

    /// The host takes the oldest message to its control, if there is one.
    pub fn take_down(&mut self, host: HostId) -> Result<(), NoMemory>
        requires host { host.0 < length self.old.kernels.items }
        requires stands { WorldStands self.old.size self.old.kernels.items self.old.directory self.old.events.items }
        requires spare { AllLong self.old.size self.old.spare.items }
        ensures stands { WorldStands self.new.size self.new.kernels.items self.new.directory self.new.events.items }
        ensures same { (self.new.size ≡ self.old.size)
            × (length self.new.kernels.items ≡ length self.old.kernels.items) }
        ensures spare { AllLong self.new.size self.new.spare.items }
        ensures takes { OnOk result (Takes self.old.size (step.TakeDown host) self.old.events.items self.new.events.items) }
        ensures err { OnErr result (self.new.events.items ≡ self.old.events.items) }
    {
        self.kernels[host.0 as usize].take_down(&mut self.events)
    }
}
