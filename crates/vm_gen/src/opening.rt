// What stands in front of the drawn lines of a made script.
ghost use Rattle.std.specs.Prelude.{◌≡◌, IfOk, OnOk};
ghost use Rattle.vm_gen.specs.Made.{HasMadeHeader, shared_object, opening_commands, add_lines, task_line, map_line, allocate_line};

use std::alloc::Global;
use vm_base::{HostId, NoMemory, ObjectId, ObjectKind, PageSize, TaskId};
use vm_model::{Command, Commands, Counts, Declarations, Declared, Header, Name, Numbered};

/// Three hosts with eight frames each, pages of 64 bytes, and a shared object of four pages.
pub fn header(alloc: Global) -> Result<Header, NoMemory>
    ensures { IfOk result HasMadeHeader }
{
    let Some(size) = PageSize::of(64) else {
        unreachable!()
    };
    let mut frames = Counts::new(alloc);
    frames.push(8)?;
    frames.push(8)?;
    frames.push(8)?;
    let mut objects = Declarations::new(alloc);
    objects.push(shared_object())?;
    Ok(Header {
        size,
        slots: 512,
        frames,
        objects,
    })
}

fn shared_object() -> Declared
    ensures { result ≡ shared_object }
{
    let Some(name) = Name::new(b"a") else {
        unreachable!()
    };
    Declared {
        name,
        kind: ObjectKind::Shared,
        pages: 4,
    }
}

fn make_tasks(commands: &mut Commands) -> Result<(), NoMemory>
    ensures { OnOk result (commands.new.items ≡ add_lines task_line 5 6 commands.old.items) }
{
    for t in 0..6 {
        commands.push(Numbered {
            line: 5 + t,
            command: Command::Task {
                task: TaskId(t),
                host: HostId(t % 3),
            },
        })?;
    }
    Ok(())
}

fn map_the_object(commands: &mut Commands) -> Result<(), NoMemory>
    ensures { OnOk result (commands.new.items ≡ add_lines map_line 11 6 commands.old.items) }
{
    for t in 0..6 {
        commands.push(Numbered {
            line: 11 + t,
            command: Command::Map {
                task: TaskId(t),
                address: 0,
                bytes: 256,
                object: ObjectId(0),
                offset: 0,
            },
        })?;
    }
    Ok(())
}

fn allocate(commands: &mut Commands) -> Result<(), NoMemory>
    ensures { OnOk result (commands.new.items ≡ add_lines allocate_line 17 6 commands.old.items) }
{
    for t in 0..6 {
        commands.push(Numbered {
            line: 17 + t,
            command: Command::Allocate {
                task: TaskId(t),
                address: 4096,
                bytes: 256,
            },
        })?;
    }
    Ok(())
}

/// The commands of the lines behind the header, before any is drawn.
pub fn opening_commands(alloc: Global) -> Result<Commands, NoMemory>
    ensures { IfOk result (λ commands. commands.items ≡ opening_commands) }
{
    let mut commands = Commands::new(alloc);
    make_tasks(&mut commands)?;
    map_the_object(&mut commands)?;
    allocate(&mut commands)?;
    Ok(commands)
}
