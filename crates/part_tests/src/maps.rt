// Each change once, of a task that has one entry of four pages.
ghost use Rattle.std.specs.Prelude.{◌≡◌, IsSome, IfOk};
ghost use Rattle.vm_maps.specs.Maps.{entries_in};
ghost use Rattle.vm_maps.specs.declared.change.MapKind.TheVariants as kind;

use crate::shows::shows;
use std::alloc::Global;
use std::test::Fail;
use vm_base::{Access, Code, Entry, Inherit, PageNo, PageSize, Prot, RegionId, TaskId};
use vm_maps::{MapChange, MapKind, Maps, Place};

const TASK: TaskId = TaskId(3);

const OPEN: Prot = Prot {
    read: true,
    write: true,
};

fn change(kind: MapKind, address: u64, bytes: u64) -> MapChange
    ensures { result.kind ≡ kind }
{
    MapChange {
        kind,
        address,
        bytes,
        entry: None,
        prot: OPEN,
        inherit: Inherit::Never,
    }
}

fn with_task(alloc: Global) -> Result<Maps, Fail>
    ensures there { IfOk result (λ maps. IsSome (entries_in 3 maps)) }
    ensures size { IfOk result (λ maps. maps.size ≡ 16) }
{
    let size = PageSize::of(16).ok_or("16 is a page size")?;
    let mut maps = Maps::new(alloc, size);
    maps.reserve(1)?;
    maps.add_task(TASK)?;
    Ok(maps)
}

fn with_entry(alloc: Global) -> Result<Maps, Fail>
    ensures { IfOk result (λ maps. IsSome (entries_in 3 maps)) }
{
    let mut maps = with_task(alloc)?;
    let entry = Entry {
        address: 0,
        bytes: 64,
        region: RegionId(0),
        offset: 0,
        prot: OPEN,
        inherit: Inherit::Copy,
    };
    let entering = MapChange {
        kind: MapKind::Enter,
        address: 0,
        bytes: 64,
        entry: Some(entry),
        prot: OPEN,
        inherit: Inherit::Copy,
    };
    if maps.judge(TASK, &entering).is_some() {
        return Err("the place is free".into());
    }
    maps.enter(TASK, &entering)?;
    Ok(maps)
}

#[test]
fn looked_up(rt: HostRuntime) -> Result<(), Fail> {
    let maps = with_entry(rt.alloc())?;
    let place = Place {
        region: RegionId(0),
        page: PageNo(3),
        at: 5,
    };
    shows(&rt, maps.lookup(TASK, 53, Access::Store) == Ok(place));
    shows(
        &rt,
        maps.lookup(TASK, 64, Access::Load) == Err(Code::InvalidAddress),
    );
    shows(&rt, maps.entry(TASK, 53).is_some() && maps.has(TASK));
    Ok(())
}

#[test]
fn removed(rt: HostRuntime) -> Result<(), Fail> {
    let mut maps = with_entry(rt.alloc())?;
    let removal = change(MapKind::Remove, 16, 32);
    if maps.judge(TASK, &removal).is_none() {
        shows(&rt, maps.remove(TASK, &removal)?.len() == 1);
    }
    shows(&rt, maps.entries(TASK).len() == 2);
    shows(&rt, maps.end_task(TASK).len() == 2);
    Ok(())
}

#[test]
fn protected(rt: HostRuntime) -> Result<(), Fail> {
    let mut maps = with_entry(rt.alloc())?;
    let protection = change(MapKind::Protect, 16, 16);
    if maps.judge(TASK, &protection).is_none() {
        shows(&rt, maps.protect(TASK, &protection)?.len() == 1);
    }
    shows(&rt, maps.entries(TASK).len() == 3);
    Ok(())
}

#[test]
fn inherited(rt: HostRuntime) -> Result<(), Fail> {
    let mut maps = with_entry(rt.alloc())?;
    let inheritance = change(MapKind::Inherit, 48, 16);
    if maps.judge(TASK, &inheritance).is_none() {
        shows(&rt, maps.inherit(TASK, &inheritance)?.len() == 1);
    }
    shows(&rt, maps.entries(TASK).len() == 2);
    Ok(())
}
