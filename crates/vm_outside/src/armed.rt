// A backing whose coming calls can be made to fail.
ghost use Rattle.std.specs.Prelude.{◌≡◌, ◌≢◌, ◌-◌, ◌<◌, IsErr, IsErrOf, length, true, false};
ghost use Rattle.vm_outside.specs.Areas.{LengthTold, ReadTold, WriteTold};
ghost use Rattle.vm_outside.specs.Causes.{next_count, sum_count, CallHasCause, WriteHasCause};
ghost use Rattle.vm_outside.specs.Arming.{armed_later_same, armed_later_more, ArmedCalled, ArmedLater, Strikes, PassesOn, KeepsArming};
ghost use Rattle.vm_outside.specs.Calls.{AsksLength, Reads, Writes};

use crate::Backing;
use std::marker::Model;
use vm_base::{Failed, WriteStop};

/// A backing that passes each call on to the one within, but for one that it was told to fail.
///
/// Contracts see the backing within, the number of the coming call that fails (`left`, 0 where none
/// does) and how many calls it made fail (`reached`, of which at most 18,446,744,073,709,551,615
/// are counted).
#[derive(Drop)]
pub struct Armed<B: Backing> {
    inner: B,
    left: u64,
    reached: u64,
}

impl<B: Backing> Model for Armed<B> {
    ghost use Rattle.vm_outside.specs.Arming.{Arming};

    ghost Value = { Arming B };

    ghost view = { λ s. record { inner = s.inner; left = s.left; reached = s.reached } };
}

impl<B: Backing> Armed<B> {
    /// A backing that passes each call on, as long as none is armed to fail.
    pub fn new(inner: B) -> Armed<B>
        ensures { result ≡ record { inner = inner; left = 0; reached = 0 } }
    {
        Armed {
            inner,
            left: 0,
            reached: 0,
        }
    }

    /// Makes the n-th coming call fail, in place of one that was armed before.
    pub fn arm(&mut self, n: u64)
        requires { 0 < n }
        ensures { self.new ≡ record { inner = self.old.inner; left = n; reached = self.old.reached } }
    {
        self.left = n;
    }

    /// Lets all coming calls pass.
    pub fn disarm(&mut self)
        ensures { self.new ≡ record { inner = self.old.inner; left = 0; reached = self.old.reached } }
    {
        self.left = 0;
    }

    /// How many armed calls failed so far.
    pub fn reached(&self) -> u64
        ensures { result ≡ self.now.reached }
    {
        self.reached
    }

    /// The backing within.
    pub fn inner(&self) -> &B
        ensures { result.now ≡ self.now.inner }
    {
        &self.inner
    }
}

// True where the coming call is the one that fails, which then uses the arming up.
fn strikes(left: &mut u64, reached: &mut u64) -> bool
    ensures struck { result ≡ true → (left.old ≡ 1) × (left.new ≡ 0) × (reached.new ≡ next_count reached.old) }
    ensures spared { result ≡ false → (left.old ≢ 1) × (left.new ≡ left.old) × (reached.new ≡ reached.old) }
{
    if *left != 1 {
        return false;
    }
    *left = 0;
    *reached = reached.saturating_add(1);
    true
}

// A call less until the one that fails.
fn pass(left: &mut u64)
    ensures { left.new ≡ left.old - 1 }
{
    *left = left.saturating_sub(1);
}

impl<B: Backing> Backing for Armed<B> {
    ghost area = { λ s. B.area s.inner };

    ghost faults = { λ s. sum_count (B.faults s.inner) s.reached };

    ghost armed = { λ s. s.left };

    ghost later = { λ s t. B.later s.inner t.inner × ArmedLater s.left s.reached t.left t.reached };

    ghost called = { λ c s t. ArmedCalled B.called c s t };

    ghost later_same = { λ s. (B.later_same s.inner, armed_later_same s.left s.reached) };

    ghost later_more = { λ r s t one two. (B.later_more r.inner s.inner t.inner one.0 two.0, armed_later_more _ _ _ _ _ _ one.1 two.1) };

    fn length(&mut self, name: &str) -> Result<Option<u64>, Failed>
        ensures told { LengthTold (B.area self.old.inner) (B.area self.new.inner) name.now result }
        ensures cause { CallHasCause (sum_count (B.faults self.old.inner) self.old.reached) (sum_count (B.faults self.new.inner) self.new.reached) result }
        ensures later { B.later self.old.inner self.new.inner
            × ArmedLater self.old.left self.old.reached self.new.left self.new.reached }
        ensures called { ArmedCalled B.called (AsksLength name.now result) self.old self.new }

        ensures fails { self.old.left ≡ 1 → IsErr result }
        ensures strikes { self.old.left ≡ 1 → Strikes self.old self.new }
        ensures passes { self.old.left ≢ 1 → PassesOn self.old self.new }
        ensures inner { self.old.left ≢ 1 → CallHasCause (B.faults self.old.inner) (B.faults self.new.inner) result }
    {
        if strikes(&mut self.left, &mut self.reached) {
            return Err(Failed);
        }
        let answer = self.inner.length(name);
        pass(&mut self.left);
        answer
    }

    fn read(&mut self, name: &str, at: u64, buf: &mut [u8]) -> Result<(), Failed>
        ensures told { ReadTold (B.area self.old.inner) (B.area self.new.inner) name.now at buf.new result }
        ensures cause { CallHasCause (sum_count (B.faults self.old.inner) self.old.reached) (sum_count (B.faults self.new.inner) self.new.reached) result }
        ensures later { B.later self.old.inner self.new.inner
            × ArmedLater self.old.left self.old.reached self.new.left self.new.reached }
        ensures called { ArmedCalled B.called (Reads name.now at (length buf.new) result) self.old self.new }

        ensures fails { self.old.left ≡ 1 → IsErr result }
        ensures strikes { self.old.left ≡ 1 → Strikes self.old self.new }
        ensures passes { self.old.left ≢ 1 → PassesOn self.old self.new }
        ensures inner { self.old.left ≢ 1 → CallHasCause (B.faults self.old.inner) (B.faults self.new.inner) result }
    {
        if strikes(&mut self.left, &mut self.reached) {
            return Err(Failed);
        }
        let answer = self.inner.read(name, at, buf);
        pass(&mut self.left);
        answer
    }

    /// A call that answers `NoMemory` is not counted.
    fn write(&mut self, name: &str, at: u64, bytes: &[u8]) -> Result<(), WriteStop>
        ensures told { WriteTold (B.area self.old.inner) (B.area self.new.inner) name.now at bytes.now result }
        ensures cause { WriteHasCause (sum_count (B.faults self.old.inner) self.old.reached) (sum_count (B.faults self.new.inner) self.new.reached) result }
        ensures later { B.later self.old.inner self.new.inner
            × ArmedLater self.old.left self.old.reached self.new.left self.new.reached }
        ensures called { ArmedCalled B.called (Writes name.now at bytes.now result) self.old self.new }
        ensures unmoved { IsErrOf result WriteStop.NoMemory → self.new.left ≡ self.old.left }

        ensures fails { self.old.left ≡ 1 → IsErrOf result WriteStop.Failed }
        ensures strikes { self.old.left ≡ 1 → Strikes self.old self.new }
        ensures passes { self.old.left ≢ 1 → result ≢ Err WriteStop.NoMemory → PassesOn self.old self.new }
        ensures uncounted { IsErrOf result WriteStop.NoMemory → KeepsArming self.old self.new }
        ensures inner { self.old.left ≢ 1 → WriteHasCause (B.faults self.old.inner) (B.faults self.new.inner) result }
    {
        if strikes(&mut self.left, &mut self.reached) {
            return Err(WriteStop::Failed);
        }
        let answer = self.inner.write(name, at, bytes);
        if answer != Err(WriteStop::NoMemory) {
            pass(&mut self.left);
        }
        answer
    }
}
