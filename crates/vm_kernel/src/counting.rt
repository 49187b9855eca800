// Regions count the entries that lead to them.
ghost use Rattle.std.specs.Prelude.{◌≡◌, ◌+◌, ◌++◌, ◌-◌, ◌<◌, ◌≤◌, ◌^◌, ℕ, List, true, IfSome, IsSome};
ghost use Rattle.vm_base.specs.Entries.{InOrder, by_address};
ghost use Rattle.vm_base.specs.declared.entry.Entry.{Entry as Row};
ghost use Rattle.vm_maps.specs.Maps.{entries_in, rows_in};
ghost use Rattle.vm_state.specs.Places.{has_region, region_entries};
ghost use Rattle.vm_kernel.specs.Sweeping.{IsCutOn, PutsEntries, Raised, cut_at};

use vm_base::{Entries, RegionId, TaskId};
use vm_maps::{Maps, entry_at};
use vm_shadow::Chains;

// The regions of the entries that are cut at the lower and at the upper end of a range.
#[derive(Clone, Copy)]
pub struct Cuts {
    pub low: Option<RegionId>,
    pub high: Option<RegionId>,
}

// Sets how many entries lead to a region.
pub fn set_count(chains: &mut Chains, region: RegionId, count: u32)
    requires { has_region chains.old region.0 ≡ true }
    ensures puts { PutsEntries region.0 count chains.old chains.new }
    ensures spare { (chains.new.spare ≡ chains.old.spare) × (chains.new.marked ≡ chains.old.marked) }
{
    chains.set_entries(region, count);
}

// How many entries lead to a region.
pub fn count_of(chains: &Chains, region: RegionId) -> u32
    ensures { result ≡ region_entries chains.now region.0 }
{
    match chains.region(region) {
        Some(row) => row.entries,
        None => 0,
    }
}

// The region of the entry that a boundary cuts.
fn cut_of(entries: &Entries, boundary: u64) -> Option<RegionId>
    requires { InOrder 0 (2 ^ 32) (by_address entries.now) }
    ensures { IsCutOn result (cut_at boundary (by_address entries.now)) }
{
    let Some(entry) = entry_at(entries, boundary) else {
        return None;
    };
    if entry.address < boundary {
        return Some(entry.region);
    }
    None
}

// Which of a task's entries are cut at the ends of a range.
pub fn cuts_of(maps: &Maps, task: TaskId, address: u64, bytes: u64) -> Cuts
    requires lives { IsSome (entries_in task.0 maps.now) }
    requires end { address + bytes ≤ 2 ^ 32 }
    ensures low { IsCutOn result.low (cut_at address (rows_in task.0 maps.now)) }
    ensures high { IsCutOn result.high (cut_at (address + bytes) (rows_in task.0 maps.now)) }
{
    let entries = maps.entries(task);
    Cuts {
        low: cut_of(entries, address),
        high: cut_of(entries, address + bytes),
    }
}

// The entry that a boundary cuts is two now.
fn count_cut(chains: &mut Chains, cut: Option<RegionId>)
    requires there { IfSome cut (λ region. has_region chains.old region.0 ≡ true) }
    requires few { (r : ℕ) → region_entries chains.old r < 2 ^ 32 - 1 }
    ensures raised { (rows : List Row) → IsCutOn cut rows → Raised rows chains.old chains.new }
    ensures spare { (chains.new.spare ≡ chains.old.spare) × (chains.new.marked ≡ chains.old.marked) }
{
    let Some(region) = cut else {
        return;
    };
    let count = count_of(chains, region);
    set_count(chains, region, count + 1);
}

// The entries that are cut at the ends of a range are counted once more, for each cut.
pub fn count_cuts(chains: &mut Chains, cuts: Cuts)
    requires low { IfSome cuts.low (λ region. has_region chains.old region.0 ≡ true) }
    requires high { IfSome cuts.high (λ region. has_region chains.old region.0 ≡ true) }
    requires few { (r : ℕ) → region_entries chains.old r < 2 ^ 32 - 2 }
    ensures raised { (low high : List Row) → IsCutOn cuts.low low → IsCutOn cuts.high high → Raised (low ++ high) chains.old chains.new }
    ensures spare { (chains.new.spare ≡ chains.old.spare) × (chains.new.marked ≡ chains.old.marked) }
{
    count_cut(chains, cuts.low);
    count_cut(chains, cuts.high);
}
