// Frames that a holder takes.
ghost use Rattle.std.specs.Prelude.{◌≡◌, ◌<◌, [], ◌∷◌, ◌++◌};

use vm_base::FrameNo;
use vm_objects::Holder;

pub fn hold_two<H: Holder>(holder: &mut H, first: FrameNo, second: FrameNo)
    requires { 1 < H.room holder.old }
    ensures { H.held holder.new ≡ H.held holder.old ++ first ∷ [] ++ second ∷ [] }
{
    holder.hold(first);
    holder.hold(second);
}
