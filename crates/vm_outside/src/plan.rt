// The calls of a value in memory that are to fail.
ghost use Rattle.std.specs.Prelude.{◌≡◌, ◌≤◌, if◌then◌else◌};
ghost use Rattle.vm_outside.specs.Plans.{fails_next, after_fault, after_pass};

use std::marker::Model;

/// Which calls fail, and how many were made and failed.
#[derive(Drop)]
pub(crate) struct Plan {
    fails: Vec<u64>,
    calls: u64,
    faults: u64,
}

impl Model for Plan {
    ghost use Rattle.vm_outside.specs.Plans.{Planned};

    ghost Value = { Planned };

    ghost view = { λ p. record { fails = p.fails.items; calls = p.calls; faults = p.faults } };
}

impl Plan {
    /// No call was made yet.
    pub(crate) fn new(fails: Vec<u64>) -> Plan
        ensures { result ≡ record { fails = fails.items; calls = 0; faults = 0 } }
    {
        Plan {
            fails,
            calls: 0,
            faults: 0,
        }
    }

    /// True where the coming call fails, which is then counted.
    pub(crate) fn strikes(&mut self) -> bool
        ensures planned { result ≡ fails_next self.old }
        ensures counted { self.new ≡ (if result then after_fault self.old else self.old) }
        ensures later { self.old.faults ≤ self.new.faults }
    {
        let call = self.calls.saturating_add(1);
        if !self.fails.contains(&call) {
            return false;
        }
        self.calls = call;
        self.faults = self.faults.saturating_add(1);
        true
    }

    /// Counts a call that did not fail.
    pub(crate) fn pass(&mut self)
        ensures { self.new ≡ after_pass self.old }
    {
        self.calls = self.calls.saturating_add(1);
    }
}
