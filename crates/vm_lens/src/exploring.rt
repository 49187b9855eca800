// Every order of the loads and stores behind a set-up.
ghost use Rattle.std.specs.Prelude.{Any, ◌≡◌, ◌≢◌, ◌≤◌, ◌<◌, ◌+◌, ◌-◌, ◌^◌, ◌&&◌, length, reverse, IfOk, IfSome, OnOk, IsTrue, Some, true, false, [], Bool};
ghost use Rattle.std.specs.Prelude.{List, ℕ};
ghost use Rattle.std.specs.List.{All};
ghost use Rattle.vm_explore.specs.Levels.{IsOrderOf};
ghost use Rattle.vm_explore.specs.Tables.{Line, times_of};
ghost use Rattle.vm_free.specs.Free.{GoesOn};
ghost use Rattle.vm_free.specs.Orders.{order_of};
ghost use Rattle.vm_legal.specs.Outside.{is_shared};
ghost use Rattle.vm_model.specs.declared.script.Script.{Script};
ghost use Rattle.vm_seen.specs.Behind.{later_of, oldest_items};
ghost use Rattle.vm_seen.specs.Headers.{SayTheSame};
ghost use Rattle.vm_text.specs.Script.{DeclaresNoTemporary};
ghost use Rattle.vm_lens.specs.Exploring.{AreLoaded, Gives, IsExplored, IsOnShared, IsSetUpRun, IsShown, RanWhole, free_of};
ghost use Rattle.vm_litmus.specs.Parts.{EndsSetUp, accesses_in, loads_of, tasks_of};

use crate::running::run;
use std::alloc::Global;
use vm_base::ObjectKind;
use vm_explore::{Table, count_orders, orders, outcome};
use vm_litmus::{
    Explored, FreeAccess, Hindrance, Lines, Stop, accesses, first_other, last_line_of, lines_of,
    loads_of, setup_of, tasks_of,
};
use vm_model::{Event, Header, History, Script};
use vm_seen::{
    begins_with, goes_on, has_wild, is_quiet, loaded_behind, nobody_waits, order_behind,
    same_commands, same_header,
};
use vm_top::{Outcome, Status};

const MOST_ACCESSES: u32 = 12;

const MOST_ORDERS: usize = 10_000;

// Runs a script to its end.
fn run_whole(alloc: Global, text: Vec<u8>) -> Result<Outcome, Stop>
    ensures { IfOk result (λ ran. RanWhole ran.script ran.history.items) }
{
    let ran = run(alloc, text)?;
    match ran.status {
        Status::Done => Ok(ran),
        Status::EventLimit => Err(Stop::Hindered(Hindrance::EventLimit)),
        _ => Err(Stop::NoMemory),
    }
}

// Whether a script with a header that says the same was run.
fn has_header(ran: &Outcome, header: &Header) -> bool
    ensures { (run : Script) → ran.now.script ≡ Some run → IsTrue result → SayTheSame run.header header.now }
{
    match &ran.script {
        Some(script) => same_header(&script.header, header),
        None => false,
    }
}

// Whether a script's first commands were run, and no others.
fn has_commands(ran: &Outcome, script: &Script, setup: u32) -> bool
    requires { setup ≤ length script.now.commands.items }
    ensures { (run : Script) → ran.now.script ≡ Some run → IsTrue result → run.commands.items ≡ oldest_items setup script.now.commands.items }
{
    match &ran.script {
        Some(front) => same_commands(&front.commands, &script.commands, setup),
        None => false,
    }
}

// Whether what was run is the set-up of a script, and left nobody waiting and nothing undelivered.
fn is_set_up(alloc: Global, ran: &Outcome, script: &Script, setup: u32) -> Result<bool, Stop>
    requires whole { RanWhole ran.now.script ran.now.history.items }
    requires within { setup ≤ length script.now.commands.items }
    ensures { IfOk result (λ is. IsTrue is → IsSetUpRun script.now setup ran.now.history.items) }
{
    let nobody = nobody_waits(alloc, &ran.history)?;
    if !nobody {
        return Ok(false);
    }
    if !is_quiet(&ran.history) {
        return Ok(false);
    }
    if !has_header(ran, &script.header) {
        return Ok(false);
    }
    Ok(has_commands(ran, script, setup))
}

// Runs the set-up of a script.
fn run_set_up(alloc: Global, lines: &Lines, script: &Script, setup: u32) -> Result<History, Stop>
    requires { setup ≤ length script.now.commands.items }
    ensures { IfOk result (λ start. IsSetUpRun script.now setup start.items) }
{
    let last = last_line_of(&script.commands, setup);
    let ran = run_whole(alloc, lines.front(alloc, last)?)?;
    if is_set_up(alloc, &ran, script, setup)? {
        Ok(ran.history)
    } else {
        Err(Stop::Hindered(Hindrance::Line(last)))
    }
}

fn is_shared(header: &Header, object: u32) -> bool
    ensures { IsTrue result → is_shared header.now object ≡ true }
{
    object < header.objects.len() && header.objects.at(object).kind == ObjectKind::Shared
}

// Whether an event ends no load and no store of memory that isn't shared.
fn is_on_shared(header: &Header, event: &Event) -> bool
    ensures { IsTrue result → IsOnShared header.now event.now }
{
    match event {
        Event::Loaded { object, .. } => is_shared(header, object.0),
        Event::Stored { object, .. } => is_shared(header, object.0),
        _ => true,
    }
}

// Whether each access that ended behind so many events was to a page of shared memory.
fn ended_on_shared(header: &Header, history: &History, from: u32) -> bool
    ensures { result ≡ true → All (IsOnShared header.now) (later_of from history.now.items) }
{
    for i in from..history.len() {
        if !is_on_shared(header, history.at(i)) {
            return false;
        }
    }
    true
}

// The first of these lines behind so many.
fn first_missing(lines: &[u32], ended: usize) -> Hindrance {
    if ended < lines.len() {
        Hindrance::Waits(lines[ended])
    } else {
        Hindrance::EventLimit
    }
}

// What an order gave.
#[derive(Drop)]
struct Seen {
    // What each load of the script gave.
    values: Vec<u64>,
    // Whether each access was to shared memory.
    shared: bool,
}

// Whether a history goes on from the set-up's with the free part alone, in an order.
fn is_in_order(
    alloc: Global,
    history: &History,
    script: &Script,
    setup: u32,
    start: &History,
    order: &[u32],
) -> Result<bool, Stop>
    ensures begins { IfOk result (λ is. IsTrue is → oldest_items (length start.now.items) history.now.items ≡ start.now.items) }
    ensures goes { IfOk result (λ is. IsTrue is → GoesOn (free_of script.now setup) (later_of (length start.now.items) history.now.items)) }
    ensures ended { IfOk result (λ is. IsTrue is → reverse order.now ≡ order_of (later_of (length start.now.items) history.now.items)) }
{
    let ended = order_behind(alloc, history, start.len())?;
    Ok(
        ended.as_slice() == order
            && begins_with(history, start)
            && goes_on(history, start.len(), &script.commands, setup),
    )
}

// The values of the loads behind a set-up's history.
fn values_behind(
    alloc: Global,
    history: &History,
    start: &History,
    accesses: &[FreeAccess],
) -> Result<Option<Vec<u64>>, Stop>
    ensures { IfOk result (λ found. IfSome found (λ values. AreLoaded (tasks_of (loads_of accesses.now)) (later_of (length start.now.items) history.now.items)
        values.items)) }
{
    let loads = tasks_of(alloc, &loads_of(alloc, accesses)?)?;
    let loaded = loaded_behind(alloc, history, start.len())?;
    Ok(outcome(alloc, &loads, &loaded)?)
}

// Runs one order, and tells what it gave.
fn run_order(
    alloc: Global,
    lines: &Lines,
    script: &Script,
    setup: u32,
    start: &History,
    accesses: &[FreeAccess],
    order: &[u32],
) -> Result<Seen, Stop>
    requires within { setup ≤ length script.now.commands.items }
    requires accesses { accesses.now ≡ reverse (accesses_in (free_of script.now setup)) }
    ensures { IfOk result (λ seen. IsShown script.now setup start.now.items seen.shared (record { values = seen.values.items; times = 1; order = order.now })) }
{
    let order_lines = lines_of(alloc, accesses, order)?;
    let last = last_line_of(&script.commands, setup);
    let ran = run_whole(alloc, lines.order(alloc, last, &order_lines)?)?;
    let in_order = is_in_order(alloc, &ran.history, script, setup, start, order)?;
    let is_run = in_order && has_header(&ran, &script.header);
    match values_behind(alloc, &ran.history, start, accesses)? {
        Some(values) if is_run => Ok(Seen {
            values,
            shared: ended_on_shared(&script.header, &ran.history, start.len()),
        }),
        _ => {
            let ended = order_behind(alloc, &ran.history, start.len())?;
            Err(Stop::Hindered(first_missing(&order_lines, ended.len())))
        }
    }
}

// Runs one order, and counts its outcome; whether each access was to shared memory.
fn explore_order(
    alloc: Global,
    lines: &Lines,
    script: &Script,
    setup: u32,
    start: &History,
    accesses: &[FreeAccess],
    order: &[u32],
    table: &mut Table,
) -> Result<bool, Stop>
    requires within { setup ≤ length script.now.commands.items }
    requires accesses { accesses.now ≡ reverse (accesses_in (free_of script.now setup)) }
    requires room { times_of table.old < 2 ^ 32 - 1 }
    ensures shown { IfOk result (λ on. (before : Bool) → All (IsShown script.now setup start.now.items before) table.old
        → All (IsShown script.now setup start.now.items (before && on)) table.new) }
    ensures kept { OnOk result ((given : List ℕ) → Any (Gives script.now setup start.now.items given) table.old
        → Any (Gives script.now setup start.now.items given) table.new) }
    ensures gives { OnOk result (Any (Gives script.now setup start.now.items order.now) table.new) }
    ensures times { OnOk result (times_of table.new ≡ times_of table.old + 1) }
{
    let seen = run_order(alloc, lines, script, setup, start, accesses, order)?;
    table.count(seen.values, order)?;
    Ok(seen.shared)
}

// Runs each of these orders; whether each access was to shared memory.
fn explore_orders(
    alloc: Global,
    lines: &Lines,
    script: &Script,
    setup: u32,
    start: &History,
    accesses: &[FreeAccess],
    all: &[Vec<u32>],
    table: &mut Table,
) -> Result<bool, Stop>
    requires within { setup ≤ length script.now.commands.items }
    requires accesses { accesses.now ≡ reverse (accesses_in (free_of script.now setup)) }
    requires few { length all.now ≤ 10000 }
    requires none { table.old ≡ [] }
    ensures shown { IfOk result (λ on. All (IsShown script.now setup start.now.items on) table.new) }
    ensures given { OnOk result (All (λ order. Any (Gives script.now setup start.now.items order.items) table.new) all.now) }
    ensures times { OnOk result (times_of table.new ≡ length all.now) }
{
    let mut shared = true;
    for order in all {
        let on = explore_order(alloc, lines, script, setup, start, accesses, order, table)?;
        shared = shared && on;
    }
    Ok(shared)
}

// The accesses behind the set-up, where there are no more than can be explored.
fn free_accesses(alloc: Global, script: &Script, setup: u32) -> Result<Vec<FreeAccess>, Stop>
    requires { setup ≤ length script.now.commands.items }
    ensures { IfOk result (λ found. found.items ≡ reverse (accesses_in (free_of script.now setup))) }
{
    if let Some(line) = first_other(&script.commands, setup) {
        return Err(Stop::Hindered(Hindrance::Line(line)));
    }
    let count = script.commands.len() - setup;
    if count > MOST_ACCESSES {
        return Err(Stop::Hindered(Hindrance::TooMany(count as u64)));
    }
    Ok(accesses(alloc, &script.commands, setup)?)
}

// The orders of these accesses, where there are no more than can be explored.
fn free_orders(alloc: Global, accesses: &[FreeAccess]) -> Result<Vec<Vec<u32>>, Stop>
    ensures all { IfOk result (λ found. (order : List ℕ) → IsOrderOf (tasks_of accesses.now) order → Any (λ it. it.items ≡ order) found.items) }
    ensures few { IfOk result (λ found. length found.items ≤ 10000) }
{
    let tasks = tasks_of(alloc, accesses)?;
    if tasks.len() > MOST_ACCESSES as usize {
        return Err(Stop::Hindered(Hindrance::TooMany(tasks.len() as u64)));
    }
    let count = count_orders(&tasks);
    if count > MOST_ORDERS as u64 {
        return Err(Stop::Hindered(Hindrance::TooMany(count)));
    }
    let found = orders(alloc, &tasks)?;
    if found.len() > MOST_ORDERS {
        return Err(Stop::Hindered(Hindrance::TooMany(found.len() as u64)));
    }
    Ok(found)
}

/// Runs every order of the accesses behind the script's last `settle` that keeps each task's, with a
/// `settle` behind each access. `bytes` spell the script.
pub fn explore(alloc: Global, bytes: &[u8], script: &Script) -> Result<Explored, Stop>
    requires { DeclaresNoTemporary script.now.header }
    ensures { IfOk result (IsExplored script.now) }
{
    let setup = setup_of(&script.commands);
    let accesses = free_accesses(alloc, script, setup)?;
    let all = free_orders(alloc, &accesses)?;
    let lines = Lines::of(alloc, bytes)?;
    let start = run_set_up(alloc, &lines, script, setup)?;
    let mut table = Table::new(alloc);
    let shared = explore_orders(
        alloc, &lines, script, setup, &start, &accesses, &all, &mut table,
    )?;
    Ok(Explored {
        setup,
        start,
        accesses,
        interleavings: all.len() as u32,
        rows: table.into_rows(),
        whole: shared && !has_wild(&script.header),
    })
}
