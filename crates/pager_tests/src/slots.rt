// Each call once, over areas in memory.
ghost use Rattle.std.specs.Prelude.{◌≡◌, IfOk};

use crate::pages::page;
use crate::shows::{leave, shows};
use pg_slots::{Got, Put, Slots};
use std::alloc::Global;
use std::test::Fail;
use vm_base::{HostId, NoMemory, ObjectId, PageKey, PageNo, PageSize};
use vm_outside::SureBacking;

const fn key(object: u32, page: u32) -> PageKey {
    PageKey {
        object: ObjectId(object),
        page: PageNo(page),
    }
}

fn begins(got: &Got, first: u8) -> bool {
    match got {
        Got::Page { bytes } => bytes.as_slice().first() == Some(&first),
        _ => false,
    }
}

fn area_begins(paging: &SureBacking, name: &str, first: u8) -> bool {
    match paging.area(name) {
        Some(bytes) => bytes.first() == Some(&first),
        None => false,
    }
}

// Puts a page that begins with this byte.
fn put(
    alloc: Global,
    slots: &mut Slots,
    key: PageKey,
    first: u8,
    paging: &mut SureBacking,
) -> Result<Put, NoMemory>
    requires { slots.old.size ≡ 16 }
    ensures { slots.new.size ≡ 16 }
{
    slots.put(key, &page(alloc, first)?, paging)
}

fn one_slot(alloc: Global) -> Result<Slots, Fail>
    ensures { IfOk result (λ slots. slots.size ≡ 16) }
{
    let size = PageSize::of(16).ok_or("no size")?;
    Ok(Slots::new(alloc, HostId(1), 1, size)?)
}

// Whether a page is kept, at the first slot of the area.
fn keeps(alloc: Global, slots: &mut Slots, paging: &mut SureBacking) -> Result<bool, NoMemory>
    requires { slots.old.size ≡ 16 }
{
    let put = put(alloc, slots, key(2, 0), 5, paging)?;
    let got = slots.get(key(2, 0), paging)?;
    Ok(put == Put::Kept && begins(&got, 5) && area_begins(paging, "paging1", 5))
}

// Whether the one slot is free once its object has gone.
fn gives_back(alloc: Global, slots: &mut Slots, paging: &mut SureBacking) -> Result<bool, NoMemory>
    requires { slots.old.size ≡ 16 }
{
    let first = put(alloc, slots, key(2, 0), 5, paging)?;
    let second = put(alloc, slots, key(3, 0), 6, paging)?;
    slots.drop_object(ObjectId(2));
    let third = put(alloc, slots, key(3, 0), 6, paging)?;
    Ok(first == Put::Kept && second == Put::NoSlot && third == Put::Kept)
}

#[test]
fn kept(rt: HostRuntime) -> Result<(), Fail> {
    let mut paging = SureBacking::new(rt.alloc());
    let mut slots = one_slot(rt.alloc())?;
    shows(&rt, keeps(rt.alloc(), &mut slots, &mut paging) == Ok(true));
    leave(slots);
    leave(paging);
    Ok(())
}

#[test]
fn given_back(rt: HostRuntime) -> Result<(), Fail> {
    let mut paging = SureBacking::new(rt.alloc());
    let mut slots = one_slot(rt.alloc())?;
    shows(
        &rt,
        gives_back(rt.alloc(), &mut slots, &mut paging) == Ok(true),
    );
    leave(slots);
    leave(paging);
    Ok(())
}
