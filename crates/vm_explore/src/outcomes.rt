// What the loads of a script's free part gave.
ghost use Rattle.std.specs.Prelude.{ℕ, ◌≡◌, ◌≢◌, ◌∷◌, [], IfNone, IfOk, IfSome, MatchOption};
ghost use Rattle.vm_explore.specs.Outcomes.{AreOther, AreValues, loaded_by};

use std::alloc::Global;
use vm_base::NoMemory;
use vm_seen::Loaded;

// Takes the oldest load of a task out of those that are left.
fn take_first(task: u32, left: &mut Vec<Loaded>) -> Option<u64>
    ensures none { IfNone result (loaded_by task left.old.items ≡ []) }
    ensures first { IfSome result (λ value. loaded_by task left.old.items ≡ value ∷ loaded_by task left.new.items) }
    ensures others { (t : ℕ) → t ≢ task → loaded_by t left.new.items ≡ loaded_by t left.old.items }
{
    for i in 0..left.len() {
        let load = left[i];
        if load.task == task {
            left.remove(i);
            return Some(load.value);
        }
    }
    None
}

/// The values of the script's loads in its order, whose tasks `loads` are, where each task's loads gave these;
/// none where some task loaded more often or less often.
///
/// `loaded` has the loads that ended, in the order of their ends.
pub fn outcome(
    alloc: Global,
    loads: &[u32],
    loaded: &[Loaded],
) -> Result<Option<Vec<u64>>, NoMemory>
    ensures { IfOk result (λ found. MatchOption found (AreOther loads.now loaded.now) (λ values. AreValues loads.now loaded.now values.items)) }
{
    let mut left = loaded.to_vec(alloc)?;
    let mut values = Vec::new(alloc);
    for task in loads {
        match take_first(*task, &mut left) {
            Some(value) => values.push(value)?,
            None => return Ok(None),
        }
    }
    if !left.is_empty() {
        return Ok(None);
    }
    Ok(Some(values))
}
