// The loads and stores that end behind a history's first events.
ghost use Rattle.std.specs.Prelude.{◌≡◌, ℕ, ◌∷◌, List, reverse, IfOk};
ghost use Rattle.vm_model.specs.declared.event.Event.{Event};
ghost use Rattle.vm_free.specs.Orders.{order_of};
ghost use Rattle.vm_free.specs.Outcomes.{loaded};
ghost use Rattle.vm_seen.specs.Behind.{later_of};
ghost use Rattle.vm_seen.specs.Ends.{values_of, with_ended, with_load};

use std::alloc::Global;
use vm_base::NoMemory;
use vm_model::{Event, History};

/// A load that ended: its task, and its value.
#[derive(Clone, Copy, Debug, PartialEq, Eq)]
pub struct Loaded {
    pub task: u32,
    pub value: u64,
}

// The task whose load or store ends with the event.
fn ended(event: &Event) -> Option<u32>
    ensures { (past : List Event) → order_of (event.now ∷ past) ≡ with_ended result (order_of past) }
{
    match event {
        Event::Loaded { task, .. } => Some(task.0),
        Event::Stored { task, .. } => Some(task.0),
        _ => None,
    }
}

// The load that ends with the event.
fn load_of(event: &Event) -> Option<Loaded>
    ensures { (t : ℕ) (past : List Event) → loaded t (event.now ∷ past) ≡ with_load t result (loaded t past) }
{
    match event {
        Event::Loaded { task, value, .. } => Some(Loaded {
            task: task.0,
            value: *value,
        }),
        _ => None,
    }
}

/// The tasks whose loads and stores ended behind the first `from` events, the oldest first; it fails
/// for want of memory alone.
pub fn order_behind(alloc: Global, history: &History, from: u32) -> Result<Vec<u32>, NoMemory>
    ensures { IfOk result (λ order. reverse order.items ≡ order_of (later_of from history.now.items)) }
{
    let mut order = Vec::new(alloc);
    for i in from..history.len() {
        if let Some(task) = ended(history.at(i)) {
            order.push(task)?;
        }
    }
    Ok(order)
}

/// The loads that ended behind the first `from` events, the oldest first; it fails for want of memory
/// alone.
pub fn loaded_behind(alloc: Global, history: &History, from: u32) -> Result<Vec<Loaded>, NoMemory>
    ensures { IfOk result (λ loads. (t : ℕ) → reverse (values_of t loads.items) ≡ loaded t (later_of from history.now.items)) }
{
    let mut loads = Vec::new(alloc);
    for i in from..history.len() {
        if let Some(load) = load_of(history.at(i)) {
            loads.push(load)?;
        }
    }
    Ok(loads)
}
