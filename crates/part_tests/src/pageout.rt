// The frames of returns that are on their way.
ghost use Rattle.std.specs.Prelude.{◌≡◌, ◌<◌, [], ◌∷◌, ◌++◌};

use crate::holding::hold_two;
use crate::shows::shows;
use std::test::Fail;
use vm_base::FrameNo;
use vm_objects::Holder;
use vm_pageout::Laundry;

#[test]
fn held_in_order(rt: HostRuntime) -> Result<(), Fail> {
    let mut laundry = Laundry::new(rt.alloc(), 2)?;
    hold_two(&mut laundry, FrameNo(5), FrameNo(4));
    shows(
        &rt,
        laundry.first() == Some(FrameNo(5)) && !laundry.is_empty(),
    );
    Ok(())
}
