// Where the script comes from.
ghost use Rattle.std.specs.Prelude.{ℕ, List};
ghost use Rattle.std.specs.Io.{ReadsAtMost};
ghost use Rattle.std.specs.Io.KnownBytes.{ReadConsumes};
ghost use Rattle.std.specs.declared.option.Option.{Option};
ghost use Rattle.vm_outside.specs.Causes.{CallHasCause};

use vm_base::Failed;

/// Bytes that are read from front to end.
pub trait Source {
    /// The bytes that are left, where the source tells them. One that tells goes on telling.
    ghost left: { Self → Option (List ℕ) };

    /// How often it has failed; at most 18,446,744,073,709,551,615 are counted.
    ghost faults: { Self → ℕ };

    /// Reads some bytes into the front of the buffer, and says how many. None into a buffer that is
    /// not empty is the end. A call that failed took no bytes.
    fn read(&mut self, buf: &mut [u8]) -> Result<usize, Failed>
        ensures bound { ReadsAtMost result buf.new }
        ensures bytes { ReadConsumes (left self.old) (left self.new) result buf.new }
        ensures cause { CallHasCause (faults self.old) (faults self.new) result };
}
