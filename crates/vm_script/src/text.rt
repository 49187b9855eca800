// The text of a made script: the lines of its header, and one for each command.
ghost use Rattle.std.specs.Prelude.{◌≡◌, ◌++◌, true, codes, OnOk, reverse};
ghost use Rattle.std.specs.List.{flat_map};
ghost use Rattle.vm_model.specs.Text.{field, newline};
ghost use Rattle.vm_script.specs.Text.{command_line, command_words, is_access, is_of_range, spelled};

use itoa::Buffer;
use vm_base::NoMemory;
use vm_model::{Command, Commands};

// A space, and the number in base ten.
fn put_field(text: &mut Vec<u8>, number: u64) -> Result<(), NoMemory>
    ensures { OnOk result (text.new.items ≡ text.old.items ++ field number) }
{
    let mut buffer = Buffer::new();
    text.push(b' ')?;
    text.extend_from_slice(buffer.format(number).as_bytes())?;
    Ok(())
}

// A word, and each number behind a space.
fn put_words(text: &mut Vec<u8>, word: &[u8], numbers: &[u64]) -> Result<(), NoMemory>
    ensures { OnOk result (text.new.items ≡ text.old.items ++ (word.now ++ flat_map field numbers.now)) }
{
    text.extend_from_slice(word)?;
    for number in numbers {
        put_field(text, *number)?;
    }
    Ok(())
}

// The same with the line end behind it.
fn put_line(text: &mut Vec<u8>, word: &[u8], numbers: &[u64]) -> Result<(), NoMemory>
    ensures { OnOk result (text.new.items ≡ text.old.items ++ ((word.now ++ flat_map field numbers.now) ++ newline)) }
{
    put_words(text, word, numbers)?;
    text.push(b'\n')?;
    Ok(())
}

// The line that maps pages of the one object, from its page `offset` on.
fn put_map(text: &mut Vec<u8>, range: &[u64; 3], offset: u32) -> Result<(), NoMemory>
    ensures { OnOk result (text.new.items ≡ text.old.items
        ++ (((codes "map" ++ flat_map field range.now) ++ (codes " a" ++ field offset)) ++ newline)) }
{
    put_words(text, b"map", range)?;
    put_line(text, b" a", &[u64::from(offset)])
}

// The line of a command over a range of addresses.
fn put_range_command(text: &mut Vec<u8>, command: &Command) -> Result<(), NoMemory>
    requires { is_of_range command.now ≡ true }
    ensures { OnOk result (text.new.items ≡ text.old.items ++ (spelled (command_words command.now) ++ newline)) }
{
    match command {
        Command::Map {
            task,
            address,
            bytes,
            offset,
            ..
        } => put_map(text, &[u64::from(task.0), *address, *bytes], *offset),
        Command::Allocate {
            task,
            address,
            bytes,
        } => put_line(text, b"allocate", &[u64::from(task.0), *address, *bytes]),
        Command::Copy {
            task,
            address,
            bytes,
            target,
            to,
        } => {
            let target = u64::from(target.0);
            put_line(
                text,
                b"copy",
                &[u64::from(task.0), *address, *bytes, target, *to],
            )
        }
        _ => unreachable!(),
    }
}

// The line of an access.
fn put_access(text: &mut Vec<u8>, command: &Command) -> Result<(), NoMemory>
    requires { is_access command.now ≡ true }
    ensures { OnOk result (text.new.items ≡ text.old.items ++ (spelled (command_words command.now) ++ newline)) }
{
    match command {
        Command::Load {
            task,
            address,
            size,
        } => put_line(
            text,
            b"load",
            &[u64::from(task.0), *address, u64::from(*size)],
        ),
        Command::Store {
            task,
            address,
            size,
            value,
        } => put_line(
            text,
            b"store",
            &[u64::from(task.0), *address, u64::from(*size), *value],
        ),
        _ => unreachable!(),
    }
}

// The line of a command. An empty line stands for a command of a kind that no made script has.
fn put_command(text: &mut Vec<u8>, command: &Command) -> Result<(), NoMemory>
    ensures { OnOk result (text.new.items ≡ text.old.items ++ (spelled (command_words command.now) ++ newline)) }
{
    match command {
        Command::Task { task, host } => {
            put_line(text, b"task", &[u64::from(task.0), u64::from(host.0)])
        }
        Command::Fork { task, child } => {
            put_line(text, b"fork", &[u64::from(task.0), u64::from(child.0)])
        }
        Command::Exit { task } => put_line(text, b"exit", &[u64::from(task.0)]),
        Command::Pageout { host, count } => {
            put_line(text, b"pageout", &[u64::from(host.0), u64::from(*count)])
        }
        Command::Settle { count } => put_line(text, b"settle", &[u64::from(*count)]),
        Command::Map { .. } | Command::Allocate { .. } | Command::Copy { .. } => put_range_command(
            text, command,
        ),
        Command::Load { .. } | Command::Store { .. } => put_access(text, command),
        _ => put_line(text, b"", &[]),
    }
}

/// The lines of commands, the oldest first.
pub fn put_commands(text: &mut Vec<u8>, commands: &Commands) -> Result<(), NoMemory>
    ensures { OnOk result (text.new.items ≡ text.old.items ++ flat_map command_line (reverse commands.now.items)) }
{
    for place in 0..commands.len() {
        put_command(text, &commands.at(place).command)?;
    }
    Ok(())
}
