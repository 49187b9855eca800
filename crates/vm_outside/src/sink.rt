// Where the text goes.
ghost use Rattle.std.specs.Prelude.{ℕ, List};
ghost use Rattle.std.specs.declared.option.Option.{Option};
ghost use Rattle.vm_outside.specs.Causes.{WriteEffects, WriteHasCause};

use vm_base::WriteStop;

/// Bytes that are written one piece after another.
pub trait Sink {
    /// The bytes that were written, where the sink tells them. One that tells goes on telling.
    ghost written: { Self → Option (List ℕ) };

    /// How often it has failed; at most 18,446,744,073,709,551,615 are counted.
    ghost faults: { Self → ℕ };

    /// Writes the piece whole, or says why not. Where it failed, a first part of the piece may have
    /// been written.
    fn write(&mut self, piece: &[u8]) -> Result<(), WriteStop>
        ensures bytes { WriteEffects (written self.old) (written self.new) result piece.now }
        ensures cause { WriteHasCause (faults self.old) (faults self.new) result };
}
