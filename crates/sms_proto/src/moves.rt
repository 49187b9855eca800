// The steps that a host's kernel takes.
ghost use Rattle.std.specs.Prelude.{◌≡◌, ◌≢◌, ◌+◌, ◌<◌, ◌∷◌, ◌++◌, true, false, None, Some, OnOk, OnErr, IsOk, ℕ};
ghost use Rattle.vm_model.specs.PagePart.{world_part};
ghost use Rattle.vm_model.specs.PageLicences.{ActsLicensed};
ghost use Rattle.sms_proto.specs.Adds.{HostDoes};
ghost use Rattle.sms_proto.specs.Kernels.{KernelFits, HasRoom, IsPrompt, access_head, order_head, evicted_by, kernel_leaves, given_up};
ghost use Rattle.sms_proto.specs.Steps.{StepEvents, begun_event};
ghost use Rattle.sms_proto.specs.Worlds.{Moved};

use crate::kernel::{Kernel, Right, Want};
use vm_base::NoMemory;
use vm_model::Events;

impl Kernel {
    // Makes room for a step's events and letters.
    fn prepare(&mut self, events: &mut Events) -> Result<(), NoMemory>
        requires fits { KernelFits events.old.items self.old }
        ensures fits { KernelFits events.new.items self.new }
        ensures same { (self.new.host ≡ self.old.host) × (self.new.size ≡ self.old.size)
            × (self.new.live ≡ self.old.live) × (self.new.want ≡ self.old.want) × (self.new.right ≡ self.old.right)
            × (self.new.asked ≡ self.old.asked) × (self.new.unlocking ≡ self.old.unlocking)
            × (self.new.dirty ≡ self.old.dirty) × (self.new.bytes ≡ self.old.bytes)
            × (self.new.control ≡ self.old.control) × (self.new.down.items ≡ self.old.down.items) }
        ensures events { events.new.items ≡ events.old.items }
        ensures room { OnOk result (HasRoom 4 events.new self.new) }
    {
        events.reserve(4)?;
        self.up.reserve(4)?;
        Ok(())
    }

    // Begins an access, with a new control if the host has none. It fails for want of memory alone, or
    // where the controls are used up, and then nothing has changed.
    fn start(&mut self, want: Want, events: &mut Events) -> Result<(), NoMemory>
        requires idle { self.old.want ≡ None }
        requires plain { want.store ≡ false → want.value ≡ 0 }
        requires room { HasRoom 2 events.old self.old }
        requires fits { KernelFits events.old.items self.old }
        requires licensed { ActsLicensed self.old.size (world_part self.old.size events.old.items) }
        ensures fits { KernelFits events.new.items self.new }
        ensures licensed { ActsLicensed self.new.size (world_part self.new.size events.new.items) }
        ensures same { (self.new.host ≡ self.old.host) × (self.new.size ≡ self.old.size) }
        ensures exact { OnOk result (events.new.items
            ≡ begun_event self.old.host.0 want.store want.value ∷ events.old.items) }
        ensures begun { OnOk result (self.new.live ≡ true) }
        ensures room { OnOk result (HasRoom 1 events.new self.new) }
        ensures err { OnErr result ((events.new.items ≡ events.old.items) × (self.new.want ≡ None)) }
    {
        if self.live {
            self.begin(want, events)?;
            return Ok(());
        }
        let Some(control) = self.control.checked_add(1) else {
            return Err(NoMemory);
        };
        self.begin_anew(control, want, events)?;
        Ok(())
    }

    /// The host's task begins an access, if it waits for none. It fails for want of memory alone, and
    /// then nothing has changed.
    pub fn access(&mut self, want: Want, events: &mut Events) -> Result<(), NoMemory>
        requires plain { want.store ≡ false → want.value ≡ 0 }
        requires fits { KernelFits events.old.items self.old }
        requires prompt { IsPrompt self.old }
        requires licensed { ActsLicensed self.old.size (world_part self.old.size events.old.items) }
        ensures fits { KernelFits events.new.items self.new }
        ensures prompt { IsPrompt self.new }
        ensures licensed { ActsLicensed self.new.size (world_part self.new.size events.new.items) }
        ensures same { (self.new.host ≡ self.old.host) × (self.new.size ≡ self.old.size) }
        ensures moved { Moved self.old.size self.old.host.0 events.old.items events.new.items }
        ensures err { OnErr result (events.new.items ≡ events.old.items) }
        ensures goes { OnOk result (StepEvents (HostDoes self.old.host.0) (access_head self.old want) events.old.items events.new.items) }
    {
        self.prepare(events)?;
        if self.want.is_some() {
            return Ok(());
        }
        self.start(want, events)?;
        self.go_on(events)?;
        Ok(())
    }

    /// The kernel takes the oldest message from the server to its control, if there is one. It fails
    /// for want of memory alone, and then nothing has changed.
    pub fn take_down(&mut self, events: &mut Events) -> Result<(), NoMemory>
        requires fits { KernelFits events.old.items self.old }
        requires prompt { IsPrompt self.old }
        requires licensed { ActsLicensed self.old.size (world_part self.old.size events.old.items) }
        ensures fits { KernelFits events.new.items self.new }
        ensures prompt { IsPrompt self.new }
        ensures licensed { ActsLicensed self.new.size (world_part self.new.size events.new.items) }
        ensures same { (self.new.host ≡ self.old.host) × (self.new.size ≡ self.old.size) }
        ensures moved { Moved self.old.size self.old.host.0 events.old.items events.new.items }
        ensures err { OnErr result (events.new.items ≡ events.old.items) }
        ensures goes { OnOk result (StepEvents (HostDoes self.old.host.0) (order_head self.old) events.old.items events.new.items) }
    {
        if !self.live || self.down.is_empty() {
            return Ok(());
        }
        self.prepare(events)?;
        self.take_order(events)?;
        self.go_on(events)?;
        Ok(())
    }

    // Gives the page up, if it is here.
    fn clear(&mut self, events: &mut Events) -> Result<(), NoMemory>
        requires room { HasRoom 2 events.old self.old }
        requires fits { KernelFits events.old.items self.old }
        requires licensed { ActsLicensed self.old.size (world_part self.old.size events.old.items) }
        ensures fits { KernelFits events.new.items self.new }
        ensures licensed { ActsLicensed self.new.size (world_part self.new.size events.new.items) }
        ensures exact { OnOk result (events.new.items ≡ given_up self.old ++ events.old.items) }
        ensures kept { OnOk result ((self.new.right ≡ 0) × (self.new.want ≡ self.old.want)
            × (self.new.live ≡ self.old.live) × (self.new.asked ≡ self.old.asked)) }
        ensures same { (self.new.host ≡ self.old.host) × (self.new.size ≡ self.old.size) }
        ensures room { OnOk result (HasRoom 1 events.new self.new) }
        ensures err { OnErr result (events.new.items ≡ events.old.items) }
    {
        if self.right == Right::AWAY {
            return Ok(());
        }
        self.put_away(events)?;
        Ok(())
    }

    /// The host gives the page up, if it has it and its task waits for no access. It fails for want of
    /// memory alone, and then nothing has changed.
    pub fn evict(&mut self, events: &mut Events) -> Result<(), NoMemory>
        requires fits { KernelFits events.old.items self.old }
        requires prompt { IsPrompt self.old }
        requires licensed { ActsLicensed self.old.size (world_part self.old.size events.old.items) }
        ensures fits { KernelFits events.new.items self.new }
        ensures prompt { IsPrompt self.new }
        ensures licensed { ActsLicensed self.new.size (world_part self.new.size events.new.items) }
        ensures same { (self.new.host ≡ self.old.host) × (self.new.size ≡ self.old.size) }
        ensures moved { Moved self.old.size self.old.host.0 events.old.items events.new.items }
        ensures err { OnErr result (events.new.items ≡ events.old.items) }
        ensures exact { OnOk result (events.new.items ≡ evicted_by self.old events.old.items) }
    {
        if self.want.is_some() {
            return Ok(());
        }
        self.prepare(events)?;
        self.clear(events)?;
        Ok(())
    }

    /// The host gives the page up and ends its control, if it has one and its task waits for no access.
    /// It fails for want of memory alone, and then nothing has changed.
    pub fn leave(&mut self, events: &mut Events) -> Result<(), NoMemory>
        requires fits { KernelFits events.old.items self.old }
        requires prompt { IsPrompt self.old }
        requires licensed { ActsLicensed self.old.size (world_part self.old.size events.old.items) }
        ensures fits { KernelFits events.new.items self.new }
        ensures prompt { IsPrompt self.new }
        ensures licensed { ActsLicensed self.new.size (world_part self.new.size events.new.items) }
        ensures same { (self.new.host ≡ self.old.host) × (self.new.size ≡ self.old.size) }
        ensures moved { Moved self.old.size self.old.host.0 events.old.items events.new.items }
        ensures err { OnErr result (events.new.items ≡ events.old.items) }
        ensures exact { OnOk result (events.new.items ≡ kernel_leaves self.old events.old.items) }
    {
        if self.want.is_some() || !self.live {
            return Ok(());
        }
        self.prepare(events)?;
        self.clear(events)?;
        self.end(events)?;
        Ok(())
    }
}
