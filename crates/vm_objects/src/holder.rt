// Who holds the frames of returns on their way.
ghost use Rattle.std.specs.Prelude.{◌≡◌, ◌+◌, ◌<◌, ℕ, List, [], ◌∷◌, ◌++◌};
ghost use Rattle.vm_base.specs.declared.ids.FrameNo.{FrameNo};

use vm_base::FrameNo;

/// Where a frame goes that a return holds until its pager has taken the message.
pub trait Holder {
    /// The frames that are held, the oldest first.
    ghost held: { Self → List FrameNo };

    /// How many more frames there is room for.
    ghost room: { Self → ℕ };

    /// Takes a frame, behind those that are held.
    fn hold(&mut self, f: FrameNo)
        requires { 0 < room self.old }
        ensures held { held self.new ≡ held self.old ++ f ∷ [] }
        ensures room { room self.new + 1 ≡ room self.old };
}
