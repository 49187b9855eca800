// A new kernel, on a host of four frames.
ghost use Rattle.std.specs.Prelude.{◌≡◌, IfOk, length};
ghost use Rattle.vm_kernel.specs.Matches.{IsRanged};

use crate::shows::{leave, shows};
use std::alloc::Global;
use std::test::Fail;
use vm_base::{HostId, Inherit, ObjectId, PageSize, Prot, RegionId, TaskId};
use vm_kernel::{Kernel, enter, inheritance, protection, removal};
use vm_maps::MapKind;
use vm_model::{Counts, Declarations, Header};

const HOST: HostId = HostId(0);

const TASK: TaskId = TaskId(3);

const READ_ONLY: Prot = Prot {
    read: true,
    write: false,
};

fn header_of(alloc: Global, frames: u32) -> Result<Header, Fail>
    ensures ranged { IfOk result (λ header. IsRanged header) }
    ensures hosts { IfOk result (λ header. length header.frames.items ≡ 1) }
{
    let size = PageSize::of(16).ok_or("16 is a page size")?;
    let mut counts = Counts::new(alloc);
    counts.push(frames)?;
    Ok(Header {
        size,
        slots: 0,
        frames: counts,
        objects: Declarations::new(alloc),
    })
}

#[test]
fn nothing_is_there(rt: HostRuntime) -> Result<(), Fail> {
    let header = header_of(rt.alloc(), 4)?;
    let kernel = Kernel::new(rt.alloc(), HOST, &header)?;
    shows(
        &rt,
        kernel.free() == 4 && kernel.wired() == 0 && !kernel.waits(TASK),
    );
    shows(&rt, kernel.object(ObjectId(0)).is_none());
    shows(&rt, kernel.chains().region(RegionId(0)).is_none());
    leave(kernel);
    Ok(())
}

#[test]
fn changes(rt: HostRuntime) {
    shows(
        &rt,
        enter(16, 32).kind == MapKind::Enter && removal(16, 32).kind == MapKind::Remove,
    );
    shows(&rt, protection(16, 32, READ_ONLY).prot == READ_ONLY);
    shows(
        &rt,
        inheritance(16, 32, Inherit::Share).inherit == Inherit::Share,
    );
}
