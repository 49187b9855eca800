// Each call once.
use crate::shows::shows;
use std::alloc::Global;
use std::test::Fail;
use vm_base::PageSize;
use vm_frames::Frames;

fn three(alloc: Global) -> Result<Frames, Fail> {
    let size = PageSize::of(16).ok_or("16 is a page size")?;
    Ok(Frames::new(alloc, 3, size)?)
}

#[test]
fn claimed(rt: HostRuntime) -> Result<(), Fail> {
    let mut frames = three(rt.alloc())?;
    let first = frames.claim().ok_or("three are free")?;
    let second = frames.claim().ok_or("two are free")?;
    shows(&rt, first != second && frames.free() == 1);
    frames.release(first);
    shows(&rt, frames.free() == 2);
    Ok(())
}

#[test]
fn written(rt: HostRuntime) -> Result<(), Fail> {
    let size = PageSize::of(16).ok_or("16 is a page size")?;
    let mut frames = Frames::new(rt.alloc(), 3, size)?;
    let first = frames.claim().ok_or("three are free")?;
    frames.bytes_mut(first).put(0, 2, 0x0102);
    shows(&rt, frames.bytes(first).get(0, 4) == 0x0102);
    Ok(())
}

#[test]
fn wired(rt: HostRuntime) -> Result<(), Fail> {
    let mut frames = three(rt.alloc())?;
    shows(&rt, !frames.wire(4) && frames.wire(1));
    shows(&rt, frames.wired() == 1 && frames.free() == 2);
    shows(&rt, !frames.unwire(2) && frames.unwire(1));
    Ok(())
}
