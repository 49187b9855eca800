// Whether a history goes on from a set-up's with a script's loads and stores alone.
ghost use Rattle.std.specs.Prelude.{◌≡◌, ◌↔◌, ◌∷◌, ◌≤◌, ℕ, List, length, IsTrue};
ghost use Rattle.vm_model.specs.Waiting.{Access};
ghost use Rattle.vm_free.specs.Free.{AreOldest, GoesOn, accesses_of, begins, begun, is_plain, made_to_begin};
ghost use Rattle.vm_seen.specs.Behind.{later_of, oldest_items};
ghost use Rattle.vm_seen.specs.Begun.{access_of, of_task};

use vm_model::{Command, Commands, Event, History};

// A load or a store of a task; a store has a value.
#[derive(Clone, Copy, Debug, PartialEq, Eq)]
struct Begun {
    task: u32,
    address: u64,
    size: u32,
    value: Option<u64>,
}

fn same_begun(a: Begun, b: Begun) -> bool
    ensures { IsTrue result ↔ (a ≡ b) }
{
    a == b
}

// The load or store that begins with the event.
fn begun_by(event: &Event) -> Option<Begun>
    ensures { (t : ℕ) → begins t event.now ≡ of_task t result }
{
    match *event {
        Event::BegunLoad {
            task,
            address,
            size,
        } => Some(Begun {
            task: task.0,
            address,
            size,
            value: None,
        }),
        Event::BegunStore {
            task,
            address,
            size,
            value,
        } => Some(Begun {
            task: task.0,
            address,
            size,
            value: Some(value),
        }),
        _ => None,
    }
}

// The load or store that the command makes a task begin.
fn made_by(command: &Command) -> Option<Begun>
    ensures { (t : ℕ) → made_to_begin t command.now ≡ of_task t result }
{
    match *command {
        Command::Load {
            task,
            address,
            size,
        } => Some(Begun {
            task: task.0,
            address,
            size,
            value: None,
        }),
        Command::Store {
            task,
            address,
            size,
            value,
        } => Some(Begun {
            task: task.0,
            address,
            size,
            value: Some(value),
        }),
        _ => None,
    }
}

fn is_plain(event: &Event) -> bool
    ensures { result ≡ is_plain event.now }
{
    !matches!(
        event,
        Event::TaskMade { .. }
            | Event::TaskEnded { .. }
            | Event::RegionMade { .. }
            | Event::RegionCopied { .. }
            | Event::Delayed { .. }
            | Event::Entered { .. }
            | Event::Removed { .. }
            | Event::Protected { .. }
            | Event::Inherited { .. }
            | Event::BegunCopy { .. }
            | Event::CopiedPage { .. }
            | Event::CopyEnded { .. }
            | Event::Failed { .. }
    )
}

// How many loads and stores a task began behind the first `from` events, before the one at an index.
fn count_begun(history: &History, from: u32, before: u32, task: u32) -> u32
    requires order { from ≤ before }
    requires within { before ≤ length history.now.items }
    ensures { result ≡ length (begun task (later_of from (oldest_items before history.now.items))) }
{
    let mut count = 0;
    for i in from..before {
        if let Some(begun) = begun_by(history.at(i)) {
            if begun.task == task {
                count += 1;
            }
        }
    }
    count
}

// Whether the load or store is its task's next one among the commands behind the first `from`, where
// the task has begun so many of them.
fn is_next(commands: &Commands, from: u32, count: u32, begun: Begun) -> bool
    ensures { (older : List Access) → length older ≡ count
        → AreOldest older (accesses_of begun.task (later_of from commands.now.items))
        → (IsTrue result ↔ AreOldest (access_of begun ∷ older) (accesses_of begun.task (later_of from commands.now.items))) }
{
    let mut passed = 0;
    for i in from..commands.len() {
        if let Some(made) = made_by(&commands.at(i).command) {
            if made.task == begun.task {
                if passed == count {
                    return same_begun(made, begun);
                }
                passed += 1;
            }
        }
    }
    false
}

/// Whether, behind the first `from` events, nothing begins but loads and stores of the commands
/// behind the first `setup`, each task's in their order, and nothing else happens to tasks and
/// regions.
pub fn goes_on(history: &History, from: u32, commands: &Commands, setup: u32) -> bool
    ensures { IsTrue result ↔ GoesOn (later_of setup commands.now.items) (later_of from history.now.items) }
{
    for i in from..history.len() {
        let event = history.at(i);
        if !is_plain(event) {
            return false;
        }
        if let Some(begun) = begun_by(event) {
            let count = count_begun(history, from, i, begun.task);
            if !is_next(commands, setup, count, begun) {
                return false;
            }
        }
    }
    true
}
