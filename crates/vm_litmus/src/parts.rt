// The two parts of a script: its set-up, and the loads and stores behind that.
ghost use Rattle.std.specs.Prelude.{◌≡◌, ◌≤◌, length, reverse, slice_get, IfOk, None, true, false};
ghost use Rattle.std.specs.List.{All};
ghost use Rattle.vm_seen.specs.Behind.{later_of, oldest_items};
ghost use Rattle.vm_litmus.specs.Parts.{EndsSetUp, access_of, accesses_by, accesses_in, is_access};
ghost use Rattle.vm_litmus.specs.Parts.{is_settle, last_line, lines_of, loads_of, makes_fail, tasks_of};
ghost use Rattle.vm_free.specs.Orders.{occurrences};

use std::alloc::Global;
use vm_base::NoMemory;
use vm_model::{Command, Commands, Numbered};

/// A load or a store of the free part.
#[derive(Clone, Copy, Drop)]
pub struct FreeAccess {
    /// The line of the script that it stands on.
    pub line: u32,
    pub task: u32,
    pub loads: bool,
}

fn is_settle(command: &Command) -> bool
    ensures { result ≡ is_settle command.now }
{
    matches!(command, Command::Settle { .. })
}

/// How many commands the set-up has: all up to the last `settle`.
pub fn setup_of(commands: &Commands) -> u32
    ensures within { result ≤ length commands.now.items }
    ensures ends { EndsSetUp commands.now.items result }
{
    let mut setup = 0;
    for i in 0..commands.len() {
        if is_settle(&commands.at(i).command) {
            setup = i + 1;
        }
    }
    setup
}

/// The line on which the set-up ends, and 0 where there is none.
pub fn last_line_of(commands: &Commands, setup: u32) -> u32
    requires { setup ≤ length commands.now.items }
    ensures { result ≡ last_line (oldest_items setup commands.now.items) }
{
    if setup == 0 {
        0
    } else {
        commands.at(setup - 1).line
    }
}

fn access_of(numbered: &Numbered) -> Option<FreeAccess>
    ensures { result ≡ access_of numbered.now }
{
    let line = numbered.line;
    match &numbered.command {
        Command::Load { task, .. } => Some(FreeAccess {
            line,
            task: task.0,
            loads: true,
        }),
        Command::Store { task, .. } => Some(FreeAccess {
            line,
            task: task.0,
            loads: false,
        }),
        _ => None,
    }
}

fn is_access(numbered: &Numbered) -> bool
    ensures { result ≡ is_access numbered.now }
{
    access_of(numbered).is_some()
}

fn makes_fail(command: &Command) -> bool
    ensures { result ≡ makes_fail command.now }
{
    matches!(
        command,
        Command::FailFiles { .. } | Command::FailPaging { .. }
    )
}

/// The line of the first command that no exploration allows: one of the set-up that makes a backing fail,
/// or one behind it that is no load and no store.
pub fn first_other(commands: &Commands, setup: u32) -> Option<u32>
    ensures set_up { result ≡ None → All (λ numbered. makes_fail numbered.command ≡ false) commands.now.items }
    ensures free { result ≡ None → All (λ numbered. is_access numbered ≡ true) (later_of setup commands.now.items) }
    ensures allowed { All (λ numbered. makes_fail numbered.command ≡ false) commands.now.items
        → All (λ numbered. is_access numbered ≡ true) (later_of setup commands.now.items) → result ≡ None }
{
    for i in 0..commands.len() {
        let numbered = commands.at(i);
        if makes_fail(&numbered.command) || (i >= setup && !is_access(numbered)) {
            return Some(numbered.line);
        }
    }
    None
}

/// The accesses behind the set-up, in the order of their lines.
pub fn accesses(alloc: Global, commands: &Commands, setup: u32) -> Result<Vec<FreeAccess>, NoMemory>
    ensures { IfOk result (λ found. found.items ≡ reverse (accesses_in (later_of setup commands.now.items))) }
{
    let mut found = Vec::new(alloc);
    for i in setup..commands.len() {
        if let Some(access) = access_of(commands.at(i)) {
            found.push(access)?;
        }
    }
    Ok(found)
}

/// Their tasks.
pub fn tasks_of(alloc: Global, accesses: &[FreeAccess]) -> Result<Vec<u32>, NoMemory>
    ensures { IfOk result (λ tasks. tasks.items ≡ tasks_of accesses.now) }
{
    let mut tasks = Vec::new(alloc);
    for access in accesses {
        tasks.push(access.task)?;
    }
    Ok(tasks)
}

/// The loads among them.
pub fn loads_of(alloc: Global, accesses: &[FreeAccess]) -> Result<Vec<FreeAccess>, NoMemory>
    ensures { IfOk result (λ loads. loads.items ≡ loads_of accesses.now) }
{
    let mut loads = Vec::new(alloc);
    for access in accesses {
        if access.loads {
            loads.push(*access)?;
        }
    }
    Ok(loads)
}

fn times_in(task: u32, tasks: &[u32]) -> usize
    ensures { result ≡ occurrences task tasks.now }
{
    tasks.iter().filter(|other| **other == task).count()
}

fn access_number(accesses: &[FreeAccess], task: u32, number: usize) -> Option<FreeAccess>
    ensures { result ≡ slice_get (accesses_by task accesses.now) number }
{
    let mut left = number;
    for access in accesses {
        if access.task == task {
            if left == 0 {
                return Some(*access);
            }
            left -= 1;
        }
    }
    None
}

/// The lines of accesses that go in an order of their tasks.
pub fn lines_of(alloc: Global, accesses: &[FreeAccess], order: &[u32]) -> Result<Vec<u32>, NoMemory>
    ensures { IfOk result (λ lines. lines.items ≡ lines_of accesses.now order.now) }
{
    let mut lines = Vec::new(alloc);
    for i in 0..order.len() {
        if let Some(access) = access_number(accesses, order[i], times_in(order[i], &order[..i])) {
            lines.push(access.line)?;
        }
    }
    Ok(lines)
}
