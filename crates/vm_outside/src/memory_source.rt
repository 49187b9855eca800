// Sources in memory.
ghost use Rattle.std.specs.Prelude.{◌≡◌, ◌≤◌, ◌<◌, ◌↔◌, ◌++◌, [], IsTrue, IsErr, OnOk, Ok, Some, length, take, drop, min};
ghost use Rattle.std.specs.Io.{ReadsAtMost};
ghost use Rattle.std.specs.Io.KnownBytes.{ReadConsumes};
ghost use Rattle.vm_outside.specs.Causes.{CallHasCause};
ghost use Rattle.vm_outside.specs.Plans.{fails_next, after_fault, after_pass};

use crate::Source;
use crate::plan::Plan;
use std::marker::Model;
use vm_base::Failed;

// Moves as many bytes from `at` on as there are and fit, and says how many.
fn give(bytes: &[u8], at: &mut usize, buf: &mut [u8]) -> usize
    requires { at.old ≤ length bytes.now }
    ensures count { result ≡ min (length buf.new) (length (drop at.old bytes.now)) }
    ensures inside { at.new ≤ length bytes.now }
    ensures given { drop at.old bytes.now ≡ take result buf.new ++ drop at.new bytes.now }
    ensures end { result ≡ 0 → 0 < length buf.new → drop at.new bytes.now ≡ [] }
{
    let count = buf.len().min(bytes.len() - *at);
    buf[..count].copy_from_slice(&bytes[*at..*at + count]);
    *at += count;
    count
}

/// Bytes in memory, that never fail. Contracts see the bytes that are left.
#[derive(Drop)]
pub struct SureSource {
    bytes: Vec<u8>,
    at: usize,
}

impl Model for SureSource {
    ghost use Rattle.std.specs.Prelude.{ℕ, List, length, drop, ◌≤◌};

    ghost Value = { List ℕ };

    ghost view = { λ s. drop s.at s.bytes.items };

    ghost invariant = { λ s. s.at ≤ length s.bytes.items };
}

impl SureSource {
    /// All the bytes are left to be read.
    pub fn new(bytes: Vec<u8>) -> SureSource
        ensures { result ≡ bytes.items }
    {
        SureSource { bytes, at: 0 }
    }
}

impl Source for SureSource {
    ghost left = { λ s. Some s };

    ghost faults = { λ s. 0 };

    /// Gives as many bytes as are left and fit.
    fn read(&mut self, buf: &mut [u8]) -> Result<usize, Failed>
        ensures bound { ReadsAtMost result buf.new }
        ensures bytes { ReadConsumes (Some self.old) (Some self.new) result buf.new }
        ensures cause { CallHasCause 0 0 result }
        ensures sure { result ≡ Ok (min (length buf.new) (length self.old)) }
    {
        Ok(give(&self.bytes, &mut self.at, buf))
    }
}

/// Bytes in memory, where the calls of given numbers fail. Contracts see the bytes that are left,
/// which calls fail, and how many were made and failed.
#[derive(Drop)]
pub struct MemSource {
    bytes: Vec<u8>,
    at: usize,
    plan: Plan,
}

impl Model for MemSource {
    ghost use Rattle.std.specs.Prelude.{length, drop, ◌≤◌};
    ghost use Rattle.vm_outside.specs.Plans.{PlannedBytes};

    ghost Value = { PlannedBytes };

    ghost view = { λ s. record { bytes = drop s.at s.bytes.items; plan = s.plan } };

    ghost invariant = { λ s. s.at ≤ length s.bytes.items };
}

impl MemSource {
    /// `fails` has the numbers of the calls of `read` that fail, counted from 1.
    pub fn new(bytes: Vec<u8>, fails: Vec<u64>) -> MemSource
        ensures bytes { result.bytes ≡ bytes.items }
        ensures plan { result.plan ≡ record { fails = fails.items; calls = 0; faults = 0 } }
    {
        MemSource {
            bytes,
            at: 0,
            plan: Plan::new(fails),
        }
    }
}

impl Source for MemSource {
    ghost left = { λ s. Some s.bytes };

    ghost faults = { λ s. s.plan.faults };

    /// Fails exactly where the number of this call is among those that fail; else it gives as many
    /// bytes as are left and fit.
    fn read(&mut self, buf: &mut [u8]) -> Result<usize, Failed>
        ensures bound { ReadsAtMost result buf.new }
        ensures bytes { ReadConsumes (Some self.old.bytes) (Some self.new.bytes) result buf.new }
        ensures cause { CallHasCause self.old.plan.faults self.new.plan.faults result }

        ensures fails { IsErr result ↔ IsTrue (fails_next self.old.plan) }
        ensures failed { IsErr result → self.new.plan ≡ after_fault self.old.plan }
        ensures passed { OnOk result (self.new.plan ≡ after_pass self.old.plan) }
        ensures count { OnOk result (result ≡ Ok (min (length buf.new) (length self.old.bytes))) }
    {
        if self.plan.strikes() {
            return Err(Failed);
        }
        self.plan.pass();
        Ok(give(&self.bytes, &mut self.at, buf))
    }
}
