// A page of a file becomes another one, on a host of two frames.
ghost use Rattle.std.specs.Prelude.{◌≡◌, ◌<◌, IfOk};
ghost use Rattle.vm_parts.specs.Fits.{Fit, object_pages};

use crate::shows::{leave, shows};
use crate::told::{FILE, with_file};
use std::alloc::Global;
use std::test::Fail;
use vm_base::{NoMemory, PageKey, PageNo, PageSize};
use vm_parts::HostParts;

const LAST: PageKey = PageKey {
    object: FILE,
    page: PageNo(2),
};

const FIRST: PageKey = PageKey {
    object: FILE,
    page: PageNo(0),
};

fn host_of(alloc: Global) -> Result<HostParts, Fail>
    ensures fit { IfOk result (λ host. Fit host) }
    ensures pages { IfOk result (λ host. object_pages host.objects 7 ≡ 3) }
{
    let size = PageSize::of(16).ok_or("16 is a page size")?;
    let objects = with_file(alloc)?;
    let mut host = HostParts::new(alloc, 2, size)?;
    host.objects = objects;
    Ok(host)
}

// The last page comes, and becomes the first.
fn shift(host: &mut HostParts) -> Result<(), NoMemory>
    requires fit { Fit host.old }
    requires pages { object_pages host.old.objects 7 ≡ 3 }
{
    host.reserve(2)?;
    if host.frames.free() == 0 || host.resident.get(LAST).is_some() {
        return Err(NoMemory);
    }
    let _frame = host.bring(LAST);
    if host.resident.get(FIRST).is_none() {
        host.shift_page(LAST, FIRST);
    }
    Ok(())
}

#[test]
fn shifted(rt: HostRuntime) -> Result<(), Fail> {
    let mut host = host_of(rt.alloc())?;
    let came = shift(&mut host);
    let rows = (host.resident.get(LAST), host.resident.get(FIRST));
    leave(host);
    came?;
    shows(&rt, rows.0.is_none() && rows.1.is_some_and(|row| row.here));
    Ok(())
}
