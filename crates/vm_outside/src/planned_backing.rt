// A backing in memory with calls that fail.
ghost use Rattle.std.specs.Prelude.{◌≡◌, ◌≢◌, ◌↔◌, List, ℕ, Some, None, length, IsTrue, IsErr, IsErrOf, OnOk, OnErr};
ghost use Rattle.std.specs.Option.{option_copied};
ghost use Rattle.vm_outside.specs.Areas.{LengthTold, ReadTold, WriteTold};
ghost use Rattle.vm_outside.specs.Calls.{AsksLength, Reads, Writes};
ghost use Rattle.vm_outside.specs.Causes.{CallHasCause, WriteHasCause};
ghost use Rattle.vm_outside.specs.Memory.{bytes_of, plan_of};
ghost use Rattle.vm_outside.specs.Plans.{PlanCounts, fails_next, after_fault, after_pass};

use crate::Backing;
use crate::areas::Areas;
use crate::plan::Plan;
use std::alloc::Global;
use vm_base::{Failed, NoMemory, WriteStop};

/// Areas in memory, where the calls of given numbers fail. Contracts see what area each name has,
/// which calls fail, and how many were made and failed.
#[derive(Drop)]
pub struct MemBacking {
    areas: Areas,
    plan: Plan,
}

impl MemBacking {
    /// No area is there yet. `fails` has the numbers of the calls of the trait that fail, counted
    /// from 1, whichever call it is.
    pub fn new(alloc: Global, fails: Vec<u64>) -> MemBacking
        ensures areas { (name : List ℕ) → bytes_of result name ≡ None }
        ensures plan { plan_of result ≡ record { fails = fails.items; calls = 0; faults = 0 } }
    {
        MemBacking {
            areas: Areas::new(alloc),
            plan: Plan::new(fails),
        }
    }

    /// The bytes of an area, None where it is not there.
    pub fn area(&self, name: &str) -> Option<&[u8]>
        ensures { option_copied result ≡ bytes_of self.now name.now }
    {
        self.areas.find(name)
    }

    /// Sets an area whole. This is no call of the trait: it is not counted, and is never one that
    /// fails; want of memory alone stops it.
    pub fn put_area(&mut self, name: &str, bytes: &[u8]) -> Result<(), NoMemory>
        ensures ok { OnOk result (bytes_of self.new name.now ≡ Some bytes.now) }
        ensures others { (other : List ℕ) → other ≢ name.now → bytes_of self.new other ≡ bytes_of self.old other }
        ensures err { OnErr result ((other : List ℕ) → bytes_of self.new other ≡ bytes_of self.old other) }
        ensures plan { plan_of self.new ≡ plan_of self.old }
    {
        self.areas.put(name, bytes)
    }
}

impl Backing for MemBacking {
    ghost use Rattle.vm_outside.specs.Memory.{bytes_of, plan_of};
    ghost use Rattle.vm_outside.specs.Plans.{PlanCounts};

    ghost area = { λ s name. Some (bytes_of s name) };

    ghost faults = { λ s. (plan_of s).faults };

    ghost armed = { λ s. 0 };

    ghost later = { λ s t. Unit {0} };

    ghost called = { λ c s t. PlanCounts c (plan_of s) (plan_of t) };

    ghost later_same = { λ s. tt };

    ghost later_more = { λ r s t one two. tt };

    /// Fails exactly where the number of this call is among those that fail.
    fn length(&mut self, name: &str) -> Result<Option<u64>, Failed>
        ensures told { LengthTold (λ other. Some (bytes_of self.old other)) (λ other. Some (bytes_of self.new other)) name.now result }
        ensures cause { CallHasCause (plan_of self.old).faults (plan_of self.new).faults result }
        ensures later { Unit {0} }
        ensures called { PlanCounts (AsksLength name.now result) (plan_of self.old) (plan_of self.new) }

        ensures fails { IsErr result ↔ IsTrue (fails_next (plan_of self.old)) }
        ensures failed { IsErr result → plan_of self.new ≡ after_fault (plan_of self.old) }
        ensures passed { OnOk result (plan_of self.new ≡ after_pass (plan_of self.old)) }
    {
        if self.plan.strikes() {
            return Err(Failed);
        }
        self.plan.pass();
        Ok(self.areas.length(name))
    }

    /// Fails exactly where the number of this call is among those that fail.
    fn read(&mut self, name: &str, at: u64, buf: &mut [u8]) -> Result<(), Failed>
        ensures told { ReadTold (λ other. Some (bytes_of self.old other)) (λ other. Some (bytes_of self.new other)) name.now at buf.new result }
        ensures cause { CallHasCause (plan_of self.old).faults (plan_of self.new).faults result }
        ensures later { Unit {0} }
        ensures called { PlanCounts (Reads name.now at (length buf.new) result) (plan_of self.old) (plan_of self.new) }

        ensures fails { IsErr result ↔ IsTrue (fails_next (plan_of self.old)) }
        ensures failed { IsErr result → plan_of self.new ≡ after_fault (plan_of self.old) }
        ensures passed { OnOk result (plan_of self.new ≡ after_pass (plan_of self.old)) }
    {
        if self.plan.strikes() {
            return Err(Failed);
        }
        self.plan.pass();
        self.areas.read(name, at, buf);
        Ok(())
    }

    /// Fails exactly where the number of this call is among those that fail, and then changes no
    /// area. A call that finds no memory is not counted.
    fn write(&mut self, name: &str, at: u64, bytes: &[u8]) -> Result<(), WriteStop>
        ensures told { WriteTold (λ other. Some (bytes_of self.old other)) (λ other. Some (bytes_of self.new other)) name.now at bytes.now result }
        ensures cause { WriteHasCause (plan_of self.old).faults (plan_of self.new).faults result }
        ensures later { Unit {0} }
        ensures called { PlanCounts (Writes name.now at bytes.now result) (plan_of self.old) (plan_of self.new) }
        ensures unmoved { IsErrOf result WriteStop.NoMemory → ◌≡◌ {A = ℕ} 0 0 }

        ensures fails { IsErrOf result WriteStop.Failed ↔ IsTrue (fails_next (plan_of self.old)) }
        ensures failed { IsErrOf result WriteStop.Failed → plan_of self.new ≡ after_fault (plan_of self.old) }
        ensures passed { OnOk result (plan_of self.new ≡ after_pass (plan_of self.old)) }
        ensures uncounted { IsErrOf result WriteStop.NoMemory → plan_of self.new ≡ plan_of self.old }
        ensures untouched { OnErr result ((other : List ℕ) → bytes_of self.new other ≡ bytes_of self.old other) }
    {
        if self.plan.strikes() {
            return Err(WriteStop::Failed);
        }
        if self.areas.write(name, at, bytes).is_err() {
            return Err(WriteStop::NoMemory);
        }
        self.plan.pass();
        Ok(())
    }
}
