// Every order of the accesses of several tasks that keeps each task's own.
ghost use Rattle.std.specs.Prelude.{ℕ, ◌≡◌, ◌≢◌, ◌≤◌, ◌^◌, ◌++◌, [], ◌∷◌, Any, IfOk, List, OnOk, length, min};
ghost use Rattle.std.specs.List.{All, AllPairs, flat_map};
ghost use Rattle.vm_explore.specs.Levels.{IsOrderOf, lists, longer_by, orders_of};
ghost use Rattle.vm_free.specs.Orders.{occurrences};

use std::alloc::Global;
use vm_base::NoMemory;

// How often a number stands in a list.
fn occurrences(t: u32, list: &[u32]) -> usize
    ensures { result ≡ occurrences t list.now }
{
    list.iter().filter(|u| **u == t).count()
}

// The numbers of a list, each once.
fn kinds(alloc: Global, tasks: &[u32]) -> Result<Vec<u32>, NoMemory>
    ensures { IfOk result (λ kinds. (t : ℕ) → occurrences t kinds.items ≡ min 1 (occurrences t tasks.now)) }
{
    let mut kinds = Vec::new(alloc);
    for task in tasks {
        if occurrences(*task, &kinds) == 0 {
            kinds.push(*task)?;
        }
    }
    Ok(kinds)
}

// An order with a number behind it.
fn longer(alloc: Global, order: &[u32], task: u32) -> Result<Vec<u32>, NoMemory>
    ensures { IfOk result (λ longer. longer.items ≡ order.now ++ task ∷ []) }
{
    let mut longer = order.to_vec(alloc)?;
    longer.push(task)?;
    Ok(longer)
}

// Adds an order with each number behind it that is left.
fn add_longer(
    alloc: Global,
    tasks: &[u32],
    kinds: &[u32],
    order: &[u32],
    found: &mut Vec<Vec<u32>>,
) -> Result<(), NoMemory>
    ensures { OnOk result (lists found.new.items ≡ lists found.old.items ++ longer_by tasks.now kinds.now order.now) }
{
    for task in kinds {
        if occurrences(*task, order) < occurrences(*task, tasks) {
            found.push(longer(alloc, order, *task)?)?;
        }
    }
    Ok(())
}

// The orders of one number more.
fn next_level(
    alloc: Global,
    tasks: &[u32],
    kinds: &[u32],
    orders: &[Vec<u32>],
) -> Result<Vec<Vec<u32>>, NoMemory>
    ensures { IfOk result (λ found. lists found.items ≡ flat_map (longer_by tasks.now kinds.now) (lists orders.now)) }
{
    let mut found = Vec::new(alloc);
    for order in orders {
        add_longer(alloc, tasks, kinds, order, &mut found)?;
    }
    Ok(found)
}

/// Every order of these numbers, each with the oldest first, none twice.
pub fn orders(alloc: Global, tasks: &[u32]) -> Result<Vec<Vec<u32>>, NoMemory>
    ensures all { IfOk result (λ found. (order : List ℕ) → IsOrderOf tasks.now order → Any (λ it. it.items ≡ order) found.items) }
    ensures only { IfOk result (λ found. All (λ it. IsOrderOf tasks.now it.items) found.items) }
    ensures apart { IfOk result (λ found. AllPairs (λ one other. one.items ≢ other.items) found.items) }
{
    let kinds = kinds(alloc, tasks)?;
    let mut found = Vec::new(alloc);
    found.push(Vec::new(alloc))?;
    for _ in tasks {
        found = next_level(alloc, tasks, &kinds, &found)?;
    }
    Ok(found)
}

/// How many orders there are of these numbers.
pub fn count_orders(tasks: &[u32]) -> u64
    requires { length tasks.now ≤ 12 }
    ensures { result ≡ orders_of tasks.now }
{
    match tasks {
        [] => 1,
        [task, more @ ..] => {
            count_orders(more) * tasks.len() as u64 / occurrences(*task, tasks) as u64
        }
    }
}
