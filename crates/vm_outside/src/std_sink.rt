// A writer of std as a sink.
ghost use Rattle.std.specs.Prelude.{◌≡◌, None, IsOkUnless, OnOk, OnErr};
ghost use Rattle.std.specs.Io.KnownBytes.{Appends};
ghost use Rattle.vm_outside.specs.Causes.{next_count, WriteEffects, WriteHasCause};

use crate::Sink;
use std::io::Write;
use std::marker::Model;
use vm_base::WriteStop;

/// Any writer of std. It tells nothing of content, and counts the pieces that failed. Each piece is
/// flushed, so that an answer of Ok says that the writer has let it go.
#[derive(Drop)]
pub struct StdSink<W: Write> {
    inner: W,
    faults: u64,
}

impl<W: Write> Model for StdSink<W> {
    ghost use Rattle.vm_outside.specs.Adapters.{Counted};

    ghost Value = { Counted W };

    ghost view = { λ s. record { inner = s.inner; faults = s.faults } };
}

impl<W: Write> StdSink<W> {
    /// No piece has failed yet.
    pub fn new(inner: W) -> StdSink<W>
        ensures { result ≡ record { inner = inner; faults = 0 } }
    {
        StdSink { inner, faults: 0 }
    }
}

impl<W: Write> Sink for StdSink<W> {
    ghost written = { λ s. None };

    ghost faults = { λ s. s.faults };

    fn write(&mut self, piece: &[u8]) -> Result<(), WriteStop>
        ensures bytes { WriteEffects None None result piece.now }
        ensures cause { WriteHasCause self.old.faults self.new.faults result }

        ensures passed { OnOk result (Appends (W.contents self.old.inner) (W.contents self.new.inner) piece.now) }
        ensures none { OnOk result (self.new.faults ≡ self.old.faults) }
        ensures fault { OnErr result (self.new.faults ≡ next_count self.old.faults) }
        ensures failed { IsOkUnless result WriteStop.Failed }
    {
        if self.inner.write_all(piece).is_ok() && self.inner.flush().is_ok() {
            return Ok(());
        }
        self.faults = self.faults.saturating_add(1);
        Err(WriteStop::Failed)
    }
}
