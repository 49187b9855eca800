// Which frames are spared where a victim is looked for.
ghost use Rattle.std.specs.Prelude.{◌≡◌, ℕ, Bool};
ghost use Rattle.vm_queues.specs.Queues.{is_skipped};

use vm_base::FrameNo;

/// Says of each frame whether its page may not be the victim.
pub trait Spares {
    ghost spares: { Self → ℕ → Bool };

    fn spares(&self, f: FrameNo) -> bool
        ensures { result ≡ spares self.now f.0 };
}

/// Spares the frames of a list.
#[derive(Clone, Copy)]
pub struct Listed<'a> {
    pub skip: &'a [FrameNo],
}

impl Spares for Listed<'_> {
    ghost spares = { λ s f. is_skipped s.skip.now f };

    fn spares(&self, f: FrameNo) -> bool {
        is_skipped(self.skip, f)
    }
}

fn is_skipped(skip: &[FrameNo], f: FrameNo) -> bool
    ensures { result ≡ is_skipped skip.now f.0 }
{
    'all: for other in skip {
        if other.0 == f.0 {
            return true;
        }
    }
    false
}
