// Backings in memory.
ghost use Rattle.std.specs.Prelude.{◌≡◌, ◌≢◌, List, ℕ, Some, None, IsErrOf, IsOk, IsOkUnless, OnOk, OnErr};
ghost use Rattle.std.specs.Option.{option_copied};
ghost use Rattle.vm_outside.specs.Areas.{LengthTold, ReadTold, WriteTold};
ghost use Rattle.vm_outside.specs.Causes.{CallHasCause, WriteHasCause};

use crate::Backing;
use crate::areas::Areas;
use std::alloc::Global;
use vm_base::{Failed, NoMemory, WriteStop};

/// Areas in memory, that never fail. Contracts see what area each name has.
#[derive(Drop)]
pub struct SureBacking {
    areas: Areas,
}

impl SureBacking {
    ghost use Rattle.vm_outside.specs.Memory.{area_of};

    /// No area is there yet.
    pub fn new(alloc: Global) -> SureBacking
        ensures { (name : List ℕ) → area_of result name ≡ None }
    {
        SureBacking {
            areas: Areas::new(alloc),
        }
    }

    /// The bytes of an area, None where it is not there.
    pub fn area(&self, name: &str) -> Option<&[u8]>
        ensures { option_copied result ≡ area_of self.now name.now }
    {
        self.areas.find(name)
    }

    /// Sets an area whole. This is no call of the trait.
    pub fn put_area(&mut self, name: &str, bytes: &[u8]) -> Result<(), NoMemory>
        ensures ok { OnOk result (area_of self.new name.now ≡ Some bytes.now) }
        ensures others { (other : List ℕ) → other ≢ name.now → area_of self.new other ≡ area_of self.old other }
        ensures err { OnErr result ((other : List ℕ) → area_of self.new other ≡ area_of self.old other) }
    {
        self.areas.put(name, bytes)
    }
}

impl Backing for SureBacking {
    ghost use Rattle.vm_outside.specs.Memory.{area_of};

    ghost area = { λ s name. Some (area_of s name) };

    ghost faults = { λ s. 0 };

    ghost armed = { λ s. 0 };

    ghost later = { λ s t. Unit {0} };

    ghost called = { λ c s t. Unit {0} };

    ghost later_same = { λ s. tt };

    ghost later_more = { λ r s t one two. tt };

    fn length(&mut self, name: &str) -> Result<Option<u64>, Failed>
        ensures told { LengthTold (λ other. Some (area_of self.old other)) (λ other. Some (area_of self.new other)) name.now result }
        ensures cause { CallHasCause 0 0 result }
        ensures later { Unit {0} }
        ensures called { Unit {0} }
        ensures sure { IsOk result }
    {
        Ok(self.areas.length(name))
    }

    fn read(&mut self, name: &str, at: u64, buf: &mut [u8]) -> Result<(), Failed>
        ensures told { ReadTold (λ other. Some (area_of self.old other)) (λ other. Some (area_of self.new other)) name.now at buf.new result }
        ensures cause { CallHasCause 0 0 result }
        ensures later { Unit {0} }
        ensures called { Unit {0} }
        ensures sure { IsOk result }
    {
        self.areas.read(name, at, buf);
        Ok(())
    }

    fn write(&mut self, name: &str, at: u64, bytes: &[u8]) -> Result<(), WriteStop>
        ensures told { WriteTold (λ other. Some (area_of self.old other)) (λ other. Some (area_of self.new other)) name.now at bytes.now result }
        ensures cause { WriteHasCause 0 0 result }
        ensures later { Unit {0} }
        ensures called { Unit {0} }
        ensures unmoved { IsErrOf result WriteStop.NoMemory → ◌≡◌ {A = ℕ} 0 0 }
        ensures sure { IsOkUnless result WriteStop.NoMemory }
    {
        match self.areas.write(name, at, bytes) {
            Ok(()) => Ok(()),
            Err(_) => Err(WriteStop::NoMemory),
        }
    }
}
