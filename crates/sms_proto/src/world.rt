// The page world.
ghost use Rattle.std.specs.Prelude.{◌≡◌, ◌≤◌, ◌<◌, [], List, ℕ, take, length, slice_get, OnOk, OnErr, IfOk};
ghost use Rattle.vm_base.specs.Limits.{most_hosts};
ghost use Rattle.sms_proto.specs.Steps.{Takes, TakesSteps};
ghost use Rattle.sms_proto.specs.Worlds.{StandsAt};
ghost use Rattle.sms_proto.specs.World.{AllWithin, IsPageWorld, step_host};

use crate::kernel::Kernel;
use crate::stage::Stage;
use crate::step::WorldStep;
use sms_pages::PageDirectory;
use std::alloc::Global;
use std::marker::Model;
use vm_base::{HostId, Listing, NoMemory, PageSize};
use vm_model::Events;

/// One page of shared memory, up to eight hosts that have it, its server, and what is on the way
/// between them.
///
/// Contracts see the page size, the number of hosts, and the events so far.
#[derive(Drop)]
pub struct World {
    stage: Stage,
}

impl Model for World {
    ghost use Rattle.std.specs.Prelude.{length};
    ghost use Rattle.sms_pages.specs.Desk.{AllLong};
    ghost use Rattle.sms_proto.specs.World.{Seen};
    ghost use Rattle.sms_proto.specs.Worlds.{WorldStands};

    ghost Value = { Seen };

    ghost view = { λ w. record { size = w.stage.size; hosts = length w.stage.kernels.items; events = w.stage.events.items } };

    ghost invariant = { λ w. WorldStands w.stage.size w.stage.kernels.items w.stage.directory w.stage.events.items × AllLong w.stage.size w.stage.spare.items };
}

impl World {
    /// A world of hosts that have nothing of a page of zeros; it fails for want of memory alone.
    pub fn new(alloc: Global, hosts: u32, size: PageSize) -> Result<World, NoMemory>
        requires some { 1 ≤ hosts }
        requires few { hosts ≤ most_hosts }
        ensures size { IfOk result (λ world. world.size ≡ size) }
        ensures hosts { IfOk result (λ world. world.hosts ≡ hosts) }
        ensures none { IfOk result (λ world. world.events ≡ []) }
    {
        let kernels = make_kernels(alloc, hosts, size)?;
        let stage = Stage {
            size,
            kernels,
            directory: PageDirectory::new(alloc, size)?,
            events: Events::new(alloc),
            spare: Listing::new(alloc),
            alloc,
        };
        Ok(World { stage })
    }

    // One step; where it isn't possible, nothing changes. It fails for want of memory alone, and then
    // nothing has changed.
    fn step(&mut self, step: &WorldStep) -> Result<(), NoMemory>
        requires { (step_host step.now).0 < self.old.hosts }
        ensures same { (self.new.size ≡ self.old.size) × (self.new.hosts ≡ self.old.hosts) }
        ensures takes { OnOk result (Takes self.old.size step.now self.old.events self.new.events) }
        ensures err { OnErr result (self.new.events ≡ self.old.events) }
    {
        match step {
            WorldStep::Load { host } => self.stage.load(*host),
            WorldStep::Store { host, value } => self.stage.store(*host, *value),
            WorldStep::Evict { host } => self.stage.evict(*host),
            WorldStep::Leave { host } => self.stage.leave(*host),
            WorldStep::TakeUp { host } => self.stage.take_up(*host),
            WorldStep::TakeDown { host } => self.stage.take_down(*host),
        }
    }

    // Takes the steps one by one.
    fn take_steps(&mut self, steps: &[WorldStep]) -> Result<(), NoMemory>
        requires { AllWithin self.old.hosts steps.now }
        ensures same { (self.new.size ≡ self.old.size) × (self.new.hosts ≡ self.old.hosts) }
        ensures runs { OnOk result (TakesSteps self.old.size steps.now self.old.events self.new.events) }
        ensures err { OnErr result ((n : ℕ) × (n ≤ length steps.now)
            × TakesSteps self.old.size (take n steps.now) self.old.events self.new.events) }
    {
        for step in steps {
            self.step(step)?;
        }
        Ok(())
    }

    // What holds of a world at every time.
    fn stands(&self)
        ensures { IsPageWorld self.now.size self.now.hosts self.now.events }
    {
        let _stage = &self.stage;
    }

    /// Takes the steps one by one; one that isn't possible changes nothing. It fails for want of
    /// memory alone, and then some first steps were taken, each whole.
    ///
    /// Whatever the steps, the page behaves as one memory: while one host can write it no other can
    /// read it, each page that is here or on the way has what the stores left, and each load answers
    /// that. Where nothing is on the way, no access waits.
    pub fn run(&mut self, steps: &[WorldStep]) -> Result<(), NoMemory>
        requires { AllWithin self.old.hosts steps.now }
        ensures same { (self.new.size ≡ self.old.size) × (self.new.hosts ≡ self.old.hosts) }
        ensures runs { OnOk result (TakesSteps self.old.size steps.now self.old.events self.new.events) }
        ensures err { OnErr result ((n : ℕ) × (n ≤ length steps.now)
            × TakesSteps self.old.size (take n steps.now) self.old.events self.new.events) }
        ensures holds { IsPageWorld self.new.size self.new.hosts self.new.events }
    {
        let result = self.take_steps(steps);
        self.stands();
        result
    }

    /// The events so far.
    pub fn events(&self) -> &Events
        ensures same { result.now.items ≡ self.now.events }
        ensures holds { IsPageWorld self.now.size self.now.hosts self.now.events }
    {
        &self.stage.events
    }
}

// The kernels of so many hosts, which have nothing of the page.
fn make_kernels(alloc: Global, hosts: u32, size: PageSize) -> Result<Vec<Kernel>, NoMemory>
    ensures each { IfOk result (λ kernels. (g : ℕ) → StandsAt size g [] (slice_get kernels.items g)) }
    ensures count { IfOk result (λ kernels. length kernels.items ≡ hosts) }
{
    let mut kernels = Vec::new(alloc);
    for host in 0..hosts {
        kernels.push(Kernel::new(alloc, HostId(host), size)?)?;
    }
    Ok(kernels)
}
