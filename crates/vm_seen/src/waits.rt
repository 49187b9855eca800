// Who waits at a history's end.
ghost use Rattle.std.specs.Prelude.{◌≡◌, [], ◌∷◌, ◌↔◌, ◌+◌, ◌-◌, ◌^◌, ◌<◌, List, IfOk, OnOk, IsTrue};
ghost use Rattle.vm_model.specs.declared.event.Event.{Event};
ghost use Rattle.vm_model.specs.Summary.{count_of, is_sent, is_taken_event};
ghost use Rattle.vm_model.specs.Text.{flag};
ghost use Rattle.vm_free.specs.Free.{NobodyWaits};
ghost use Rattle.vm_seen.specs.Waits.{AreWaiting, IsTurn, without};

use std::alloc::Global;
use vm_base::NoMemory;
use vm_model::{Event, History};

// What an event is to those who wait.
#[derive(Clone, Copy, Debug, PartialEq, Eq)]
enum Turn {
    // The task begins to wait.
    Begins(u32),
    // The task waits no more.
    Ends(u32),
    // Nothing.
    Neither,
}

fn turn_of(event: &Event) -> Turn
    ensures { IsTurn event.now result }
{
    match event {
        Event::BegunLoad { task, .. } => Turn::Begins(task.0),
        Event::BegunStore { task, .. } => Turn::Begins(task.0),
        Event::BegunCopy { task, .. } => Turn::Begins(task.0),
        Event::TaskMade { task, .. } => Turn::Ends(task.0),
        Event::TaskEnded { task } => Turn::Ends(task.0),
        Event::Loaded { task, .. } => Turn::Ends(task.0),
        Event::Stored { task, .. } => Turn::Ends(task.0),
        Event::CopyEnded { task } => Turn::Ends(task.0),
        Event::Failed { task, .. } => Turn::Ends(task.0),
        _ => Turn::Neither,
    }
}

// Takes a task out.
fn take_out(tasks: &mut Vec<u32>, task: u32)
    ensures { tasks.new.items ≡ without task tasks.old.items }
{
    tasks.retain(|other| *other != task);
}

// Notes one event more of those who wait.
#[tactic(auto, using(crate::proofs::Waiting::one_begins, crate::proofs::Waiting::one_ends))]
fn note(tasks: &mut Vec<u32>, event: &Event) -> Result<(), NoMemory>
    ensures { (past : List Event) → OnOk result (AreWaiting tasks.old.items past → AreWaiting tasks.new.items (event.now ∷ past)) }
{
    match turn_of(event) {
        Turn::Begins(task) => tasks.push(task)?,
        Turn::Ends(task) => take_out(tasks, task),
        Turn::Neither => {}
    }
    Ok(())
}

fn is_nobody(tasks: &[u32]) -> bool
    ensures { IsTrue result ↔ (tasks.now ≡ []) }
{
    tasks.is_empty()
}

/// Whether no task waits at the end; it fails for want of memory alone.
pub fn nobody_waits(alloc: Global, history: &History) -> Result<bool, NoMemory>
    ensures { IfOk result (λ nobody. IsTrue nobody ↔ NobodyWaits history.now.items) }
{
    let mut tasks = Vec::new(alloc);
    for i in 0..history.len() {
        note(&mut tasks, history.at(i))?;
    }
    Ok(is_nobody(&tasks))
}

fn is_sent(event: &Event) -> bool
    ensures { result ≡ is_sent event.now }
{
    matches!(event, Event::Sent { .. })
}

fn is_taken(event: &Event) -> bool
    ensures { result ≡ is_taken_event event.now }
{
    matches!(event, Event::Taken { .. })
}

// The count with one more, where it holds.
fn counted(count: u32, holds: bool) -> u32
    requires { count < 2 ^ 32 - 1 }
    ensures { result ≡ count + flag holds }
{
    if holds { count + 1 } else { count }
}

/// Whether as many messages were taken as were sent.
pub fn is_quiet(history: &History) -> bool
    ensures { IsTrue result ↔ (count_of is_sent history.now.items ≡ count_of is_taken_event history.now.items) }
{
    let mut sent = 0;
    let mut taken = 0;
    for i in 0..history.len() {
        let event = history.at(i);
        sent = counted(sent, is_sent(event));
        taken = counted(taken, is_taken(event));
    }
    sent == taken
}
