// The text of an exploration.
ghost use Rattle.std.specs.Prelude.{◌≡◌, ◌++◌, codes, IfOk, OnOk};
ghost use Rattle.vm_model.specs.Text.{field};
ghost use Rattle.vm_litmus.specs.Parts.{loads_of};
ghost use Rattle.vm_litmus.specs.Text.{explored_text, fields, hindrance_text, load_text, loads_text, row_text};

use crate::explored::{Explored, Hindrance};
use crate::parts::{FreeAccess, lines_of, loads_of};
use std::alloc::Global;
use vm_base::NoMemory;
use vm_explore::Row;

fn put_number(text: &mut Vec<u8>, number: u64) -> Result<(), NoMemory>
    ensures { OnOk result (text.new.items ≡ text.old.items ++ field number) }
{
    let mut buffer = itoa::Buffer::new();
    text.push(b' ')?;
    text.extend_from_slice(buffer.format(number).as_bytes())?;
    Ok(())
}

fn put_line(text: &mut Vec<u8>, word: &[u8], number: u64) -> Result<(), NoMemory>
    ensures { OnOk result (text.new.items ≡ text.old.items ++ (word.now ++ (field number ++ codes "\n"))) }
{
    text.extend_from_slice(word)?;
    put_number(text, number)?;
    text.push(b'\n')?;
    Ok(())
}

/// The line that says why a script is not explored.
pub fn hindrance_text(alloc: Global, hindrance: Hindrance) -> Result<Vec<u8>, NoMemory>
    ensures { IfOk result (λ text. text.items ≡ hindrance_text hindrance) }
{
    let mut text = Vec::new(alloc);
    match hindrance {
        Hindrance::Line(line) => put_line(&mut text, b"notexplored", line as u64)?,
        Hindrance::TooMany(count) => put_line(&mut text, b"toomany", count)?,
        Hindrance::Waits(line) => put_line(&mut text, b"waits", line as u64)?,
        Hindrance::EventLimit => text.extend_from_slice(b"limit\n")?,
    }
    Ok(text)
}

fn put_load(text: &mut Vec<u8>, load: &FreeAccess, value: u64) -> Result<(), NoMemory>
    ensures { OnOk result (text.new.items ≡ text.old.items ++ load_text load.now value) }
{
    put_number(text, load.line as u64)?;
    text.extend_from_slice(b" loaded")?;
    put_number(text, value)
}

fn put_loads(text: &mut Vec<u8>, loads: &[FreeAccess], values: &[u64]) -> Result<(), NoMemory>
    ensures { OnOk result (text.new.items ≡ text.old.items ++ loads_text loads.now values.now) }
{
    let count = loads.len().min(values.len());
    for i in 0..count {
        if i > 0 {
            text.push(b',')?;
        }
        put_load(text, &loads[i], values[i])?;
    }
    Ok(())
}

fn put_order(text: &mut Vec<u8>, lines: &[u32]) -> Result<(), NoMemory>
    ensures { OnOk result (text.new.items ≡ text.old.items ++ (codes "order" ++ (fields lines.now ++ codes "\n"))) }
{
    text.extend_from_slice(b"order")?;
    for line in lines {
        put_number(text, *line as u64)?;
    }
    text.push(b'\n')?;
    Ok(())
}

fn put_row(
    alloc: Global,
    text: &mut Vec<u8>,
    accesses: &[FreeAccess],
    loads: &[FreeAccess],
    row: &Row,
) -> Result<(), NoMemory>
    requires { loads.now ≡ loads_of accesses.now }
    ensures { OnOk result (text.new.items ≡ text.old.items ++ row_text accesses.now row.now) }
{
    text.extend_from_slice(b"outcome times")?;
    put_number(text, row.times as u64)?;
    text.push(b':')?;
    put_loads(text, loads, &row.values)?;
    text.push(b'\n')?;
    let lines = lines_of(alloc, accesses, &row.order)?;
    put_order(text, &lines)
}

/// The lines of an exploration: how many accesses and orders there are, each outcome with how often it
/// came and an order that gives it, and whether these are all.
pub fn explored_text(alloc: Global, explored: &Explored) -> Result<Vec<u8>, NoMemory>
    ensures { IfOk result (λ text. text.items ≡ explored_text explored.now) }
{
    let mut text = Vec::new(alloc);
    let loads = loads_of(alloc, &explored.accesses)?;
    put_line(&mut text, b"accesses", explored.accesses.len() as u64)?;
    put_line(&mut text, b"interleavings", explored.interleavings as u64)?;
    for row in &explored.rows {
        put_row(alloc, &mut text, &explored.accesses, &loads, row)?;
    }
    if explored.whole {
        text.extend_from_slice(b"whole\n")?;
    }
    Ok(text)
}
