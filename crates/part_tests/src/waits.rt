// Orders of beginning and of joining, worked out by hand.
ghost use Rattle.std.specs.Prelude.{◌≡◌, ◌≤◌, IfOk, IsSome, Some};
ghost use Rattle.vm_waits.specs.Waits.{entry};

use crate::shows::shows;
use std::alloc::Global;
use std::test::Fail;
use vm_base::{ObjectId, PageKey, PageNo, RegionId, TaskId};
use vm_waits::{Destination, On, Waiting, Waits, Want};

const OLD: TaskId = TaskId(7);

const YOUNG: TaskId = TaskId(3);

const KEY: PageKey = PageKey {
    object: ObjectId(1),
    page: PageNo(2),
};

const ON_PAGE: On = On::Page { key: KEY };

const ON_READY: On = On::Ready {
    object: ObjectId(1),
};

const LOAD: Want = Want::Load {
    address: 16,
    size: 4,
};

// Task 7 began first, then task 3.
fn two(alloc: Global) -> Result<Waits, Fail>
    ensures { IfOk result (λ waits. (IsSome (entry waits.rows 7)) × (IsSome (entry waits.rows 3))) }
{
    let mut waits = Waits::new(alloc);
    waits.reserve(2)?;
    waits.begin(OLD, LOAD, None);
    waits.begin(YOUNG, LOAD, None);
    Ok(waits)
}

fn is(row: Option<Waiting>, task: TaskId) -> bool {
    match row {
        Some(row) => row.task == task,
        None => false,
    }
}

#[test]
fn woken_for_a_page(rt: HostRuntime) -> Result<(), Fail> {
    let mut waits = two(rt.alloc())?;
    waits.set_on(OLD, ON_PAGE);
    shows(
        &rt,
        is(waits.next_again(), YOUNG) && is(waits.next_on(KEY), OLD),
    );
    waits.wake_page(KEY);
    shows(&rt, is(waits.next_again(), OLD));
    Ok(())
}

#[test]
fn woken_for_ready(rt: HostRuntime) -> Result<(), Fail> {
    let mut waits = two(rt.alloc())?;
    waits.set_on(OLD, ON_READY);
    waits.wake_ready(ObjectId(1));
    shows(&rt, is(waits.next_again(), OLD));
    waits.remove(OLD);
    shows(&rt, waits.count() == 1 && waits.rows().len() == 1);
    Ok(())
}

// The access of a task joins the queue, unless it is there.
fn join(waits: &mut Waits, task: TaskId) {
    if let Some(row) = waits.get(task) {
        match row.on {
            On::Frame => {}
            On::Again | On::Ready { object: _ } | On::Page { key: _ } | On::Push { key: _ } => {
                waits.join_queue(task);
            }
        }
    }
}

#[test]
fn queued(rt: HostRuntime) -> Result<(), Fail> {
    let mut waits = two(rt.alloc())?;
    shows(&rt, !waits.has_queue());
    join(&mut waits, YOUNG);
    shows(&rt, waits.has_queue() && is(waits.front(), YOUNG));
    Ok(())
}

// A slow copy of three pages, of which so many are copied.
fn copy(next: u32) -> Want {
    Want::CopyTo {
        address: 64,
        pages: 3,
        target: ObjectId(9),
        next,
    }
}

#[test]
fn goes_on(rt: HostRuntime) -> Result<(), Fail> {
    let mut waits = Waits::new(rt.alloc());
    waits.reserve(1)?;
    let destination = Destination {
        region: RegionId(2),
        address: 128,
    };
    waits.begin(YOUNG, copy(0), Some(destination));
    waits.set_want(YOUNG, copy(2));
    let row = waits.get(YOUNG).ok_or("it waits")?;
    shows(&rt, row.want == copy(2) && row.on == On::Again);
    shows(&rt, row.destination.is_some() && waits.copies() == 1);
    Ok(())
}
