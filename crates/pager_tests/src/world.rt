// Runs of the world, with what is known of them from outside.
ghost use Rattle.std.specs.Prelude.{◌≡◌, IfOk};
ghost use Rattle.sms_proto.specs.World.{AllWithin};

use crate::shows::{leave, shows};
use sms_proto::{World, WorldStep};
use std::alloc::Global;
use vm_base::{HostId, NoMemory, PageSize};
use vm_model::{Event, Events};

const A: HostId = HostId(0);

const B: HostId = HostId(1);

// The task and the value of the newest event, if it is the end of a load.
fn loaded(events: &Events) -> Option<(u32, u64)> {
    if events.len() == 0 {
        return None;
    }
    match events.at(events.len() - 1) {
        Event::Loaded { task, value, .. } => Some((task.0, *value)),
        _ => None,
    }
}

// Two hosts and a page of 16 bytes.
fn two_hosts(alloc: Global) -> Result<World, NoMemory>
    ensures { IfOk result (λ world. world.hosts ≡ 2) }
{
    let Some(size) = PageSize::of(16) else {
        return Err(NoMemory);
    };
    let world = World::new(alloc, 2, size)?;
    Ok(world)
}

// Takes the steps.
fn take(world: &mut World, steps: &[WorldStep]) -> Result<(), NoMemory>
    requires { AllWithin world.old.hosts steps.now }
    ensures { world.new.hosts ≡ world.old.hosts }
{
    world.run(steps)
}

// Each host has read the page.
fn read_on_both(world: &mut World) -> Result<(), NoMemory>
    requires { world.old.hosts ≡ 2 }
    ensures { world.new.hosts ≡ world.old.hosts }
{
    take(
        world,
        &[
            WorldStep::Load { host: A },
            WorldStep::Load { host: B },
            WorldStep::TakeUp { host: A },
            WorldStep::TakeUp { host: B },
            WorldStep::TakeDown { host: A },
            WorldStep::TakeDown { host: B },
        ],
    )
}

// An unlock and a flush cross; and then one message more is taken, which changes nothing.
fn cross(world: &mut World) -> Result<(), NoMemory>
    requires { world.old.hosts ≡ 2 }
{
    read_on_both(world)?;
    take(
        world,
        &[
            WorldStep::Store { host: A, value: 5 },
            WorldStep::Store { host: B, value: 6 },
            WorldStep::TakeUp { host: A },
            WorldStep::TakeUp { host: B },
            WorldStep::TakeDown { host: B },
            WorldStep::TakeUp { host: B },
            WorldStep::TakeUp { host: B },
            WorldStep::TakeDown { host: A },
            WorldStep::TakeDown { host: A },
            WorldStep::TakeUp { host: A },
            WorldStep::TakeUp { host: A },
            WorldStep::TakeDown { host: B },
            WorldStep::Load { host: B },
            WorldStep::TakeUp { host: A },
        ],
    )
}

#[test]
fn an_unlock_and_a_flush_cross(rt: HostRuntime) -> Result<(), NoMemory> {
    let mut world = two_hosts(rt.alloc())?;
    shows(&rt, cross(&mut world) == Ok(()));
    shows(&rt, loaded(world.events()) == Some((1, 6)));
    shows(&rt, world.events().len() == 39);
    leave(world);
    Ok(())
}

// A host whose copy is to be flushed gives the page up.
fn give_up(world: &mut World) -> Result<(), NoMemory>
    requires { world.old.hosts ≡ 2 }
{
    read_on_both(world)?;
    take(
        world,
        &[
            WorldStep::Store { host: A, value: 8 },
            WorldStep::TakeUp { host: A },
            WorldStep::Leave { host: B },
            WorldStep::TakeUp { host: B },
            WorldStep::TakeDown { host: B },
            WorldStep::TakeDown { host: A },
            WorldStep::Load { host: B },
            WorldStep::TakeUp { host: B },
            WorldStep::TakeDown { host: A },
            WorldStep::TakeUp { host: A },
            WorldStep::TakeUp { host: A },
            WorldStep::TakeDown { host: B },
        ],
    )
}

#[test]
fn the_end_of_a_control_stands_for_its_answer(rt: HostRuntime) -> Result<(), NoMemory> {
    let mut world = two_hosts(rt.alloc())?;
    shows(&rt, give_up(&mut world) == Ok(()));
    shows(&rt, loaded(world.events()) == Some((1, 8)));
    leave(world);
    Ok(())
}
