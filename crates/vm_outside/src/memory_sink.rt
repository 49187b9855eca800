// Sinks in memory.
ghost use Rattle.std.specs.Prelude.{◌≡◌, ◌↔◌, ◌++◌, [], IsTrue, IsErrOf, IsOkUnless, OnOk, Some};
ghost use Rattle.vm_outside.specs.Causes.{WriteEffects, WriteHasCause};
ghost use Rattle.vm_outside.specs.Plans.{fails_next, after_fault, after_pass};

use crate::Sink;
use crate::plan::Plan;
use std::alloc::Global;
use std::marker::Model;
use vm_base::WriteStop;

/// Bytes in memory, that never fail. Contracts see the bytes that were written.
#[derive(Drop)]
pub struct SureSink {
    bytes: Vec<u8>,
}

impl Model for SureSink {
    ghost use Rattle.std.specs.Prelude.{ℕ, List};

    ghost Value = { List ℕ };

    ghost view = { λ s. s.bytes.items };
}

impl SureSink {
    /// Nothing is written yet; it takes no memory.
    pub fn new(alloc: Global) -> SureSink
        ensures { result ≡ [] }
    {
        SureSink {
            bytes: Vec::new(alloc),
        }
    }

    /// All that was written.
    pub fn bytes(&self) -> &[u8]
        ensures { result.now ≡ self.now }
    {
        &self.bytes
    }
}

impl Sink for SureSink {
    ghost written = { λ s. Some s };

    ghost faults = { λ s. 0 };

    fn write(&mut self, piece: &[u8]) -> Result<(), WriteStop>
        ensures bytes { WriteEffects (Some self.old) (Some self.new) result piece.now }
        ensures cause { WriteHasCause 0 0 result }
        ensures sure { IsOkUnless result WriteStop.NoMemory }
    {
        match self.bytes.extend_from_slice(piece) {
            Ok(()) => Ok(()),
            Err(_) => Err(WriteStop::NoMemory),
        }
    }
}

/// Bytes in memory, where the calls of given numbers fail. Contracts see the bytes that were
/// written, which calls fail, and how many were made and failed.
#[derive(Drop)]
pub struct MemSink {
    bytes: Vec<u8>,
    plan: Plan,
}

impl Model for MemSink {
    ghost use Rattle.vm_outside.specs.Plans.{PlannedBytes};

    ghost Value = { PlannedBytes };

    ghost view = { λ s. record { bytes = s.bytes.items; plan = s.plan } };
}

impl MemSink {
    /// `fails` has the numbers of the calls of `write` that fail, counted from 1.
    pub fn new(alloc: Global, fails: Vec<u64>) -> MemSink
        ensures bytes { result.bytes ≡ [] }
        ensures plan { result.plan ≡ record { fails = fails.items; calls = 0; faults = 0 } }
    {
        MemSink {
            bytes: Vec::new(alloc),
            plan: Plan::new(fails),
        }
    }

    /// All that was written.
    pub fn bytes(&self) -> &[u8]
        ensures { result.now ≡ self.now.bytes }
    {
        &self.bytes
    }
}

impl Sink for MemSink {
    ghost written = { λ s. Some s.bytes };

    ghost faults = { λ s. s.plan.faults };

    /// Fails exactly where the number of this call is among those that fail, and then writes
    /// nothing. A call that finds no memory is not counted.
    fn write(&mut self, piece: &[u8]) -> Result<(), WriteStop>
        ensures bytes { WriteEffects (Some self.old.bytes) (Some self.new.bytes) result piece.now }
        ensures cause { WriteHasCause self.old.plan.faults self.new.plan.faults result }

        ensures fails { IsErrOf result WriteStop.Failed ↔ IsTrue (fails_next self.old.plan) }
        ensures failed { IsErrOf result WriteStop.Failed
            → self.new ≡ record { bytes = self.old.bytes; plan = after_fault self.old.plan } }
        ensures passed { OnOk result (self.new.plan ≡ after_pass self.old.plan) }
        ensures same { IsErrOf result WriteStop.NoMemory → self.new ≡ self.old }
    {
        if self.plan.strikes() {
            return Err(WriteStop::Failed);
        }
        if self.bytes.extend_from_slice(piece).is_err() {
            return Err(WriteStop::NoMemory);
        }
        self.plan.pass();
        Ok(())
    }
}
