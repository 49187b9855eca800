// Named areas of bytes that outlast the pages.
ghost use Rattle.std.specs.Prelude.{ℕ, ◌≡◌, List, IsErrOf, length};
ghost use Rattle.std.specs.declared.option.Option.{Option};
ghost use Rattle.vm_outside.specs.Areas.{LengthTold, ReadTold, WriteTold};
ghost use Rattle.vm_outside.specs.Calls.{Call, AsksLength, Reads, Writes};
ghost use Rattle.vm_outside.specs.Causes.{CallHasCause, WriteHasCause};

use vm_base::{Failed, WriteStop};

/// Named areas of bytes, as files or a paging device have.
pub trait Backing {
    /// What the backing tells of a name, None where it tells nothing: the bytes of its area, or
    /// that there is no such area. Of a name of which it tells it goes on telling.
    ghost area: { Self → List ℕ → Option (Option (List ℕ)) };

    /// How often it has failed; at most 18,446,744,073,709,551,615 are counted.
    ghost faults: { Self → ℕ };

    /// The number of the coming call that was armed to fail, 0 where none was.
    ghost armed: { Self → ℕ };

    /// The second state may come after the first: each call promises it of the states before and
    /// after it.
    ghost later: { Self → Self → Type 0 };

    /// The call led from the first state to the second: each call promises it of itself and the
    /// states before and after it, so that their number and order can be told.
    ghost called: { Call → Self → Self → Type 0 };

    /// The length of an area in bytes, None where it is not there.
    fn length(&mut self, name: &str) -> Result<Option<u64>, Failed>
        ensures told { LengthTold (area self.old) (area self.new) name.now result }
        ensures cause { CallHasCause (faults self.old) (faults self.new) result }
        ensures later { later self.old self.new }
        ensures called { called (AsksLength name.now result) self.old self.new };

    /// Fills the buffer with the bytes of an area from `at` on. An area that is not there is read
    /// as an empty one.
    fn read(&mut self, name: &str, at: u64, buf: &mut [u8]) -> Result<(), Failed>
        ensures told { ReadTold (area self.old) (area self.new) name.now at buf.new result }
        ensures cause { CallHasCause (faults self.old) (faults self.new) result }
        ensures later { later self.old self.new }
        ensures called { called (Reads name.now at (length buf.new) result) self.old self.new };

    /// Writes bytes to an area from `at` on, and makes or lengthens the area for it. A call that
    /// answers `NoMemory` brings no armed failure nearer.
    fn write(&mut self, name: &str, at: u64, bytes: &[u8]) -> Result<(), WriteStop>
        ensures told { WriteTold (area self.old) (area self.new) name.now at bytes.now result }
        ensures cause { WriteHasCause (faults self.old) (faults self.new) result }
        ensures later { later self.old self.new }
        ensures called { called (Writes name.now at bytes.now result) self.old self.new }
        ensures unmoved { IsErrOf result WriteStop.NoMemory → armed self.new ≡ armed self.old };

    ghost later_same: { (s : Self) → later s s };

    ghost later_more: { (r s t : Self) → later r s → later s t → later r t };
}
