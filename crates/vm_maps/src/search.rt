// Searches in a task's entries, which stand by rising address.
ghost use Rattle.std.specs.Prelude.{◌≡◌, ◌+◌, ◌≤◌, ◌<◌, ◌^◌, drop, length, slice_get};
ghost use Rattle.vm_base.specs.Entries.{InOrder, by_address, entry_at, meets_range, most_entries};
ghost use Rattle.vm_maps.specs.Rows.{cuts_at, if_below, is_without_gap, passed};

use vm_base::{Entries, Entry};

/// The number of entries that end at or in front of an address, which are the first ones.
pub fn count_passed(entries: &Entries, address: u64) -> u32
    requires { InOrder 0 (2 ^ 32) (by_address entries.now) }
    ensures value { result ≡ passed address (by_address entries.now) }
    ensures within { result ≤ length entries.now.items }
{
    let mut low = 0;
    let mut high = entries.len();
    'search: while low < high {
        let middle = low + (high - low) / 2;
        let entry = *entries.at(middle);
        if entry.address + entry.bytes <= address {
            low = middle + 1;
        } else {
            high = middle;
        }
    }
    low
}

// The first entry that ends behind an address.
fn first_behind(entries: &Entries, address: u64) -> Option<Entry>
    requires { InOrder 0 (2 ^ 32) (by_address entries.now) }
    ensures { let rows = by_address entries.now in
        result ≡ slice_get rows (passed address rows) }
{
    let i = count_passed(entries, address);
    if i < entries.len() {
        Some(*entries.at(i))
    } else {
        None
    }
}

/// The entry that holds an address, found by binary search among entries that stand in order; None
/// where none does.
#[tactic(auto, using(crate::proofs::Found::found))]
pub fn entry_at(entries: &Entries, address: u64) -> Option<Entry>
    requires { InOrder 0 (2 ^ 32) (by_address entries.now) }
    ensures { result ≡ entry_at address (by_address entries.now) }
{
    match first_behind(entries, address) {
        Some(entry) if entry.address <= address => Some(entry),
        _ => None,
    }
}

/// Whether an entry has an address of the range.
#[tactic(auto, using(crate::proofs::Found::found))]
pub fn meets_range(entries: &Entries, address: u64, bytes: u64) -> bool
    requires order { InOrder 0 (2 ^ 32) (by_address entries.now) }
    requires some { 0 < bytes }
    requires end { address + bytes ≤ 2 ^ 32 }
    ensures { result ≡ meets_range address bytes (by_address entries.now) }
{
    match first_behind(entries, address) {
        Some(entry) => entry.address < address + bytes,
        None => false,
    }
}

/// How many entries have addresses on both sides of a boundary: one or none.
#[tactic(auto, using(crate::proofs::Found::found))]
pub fn count_cuts(entries: &Entries, address: u64) -> u32
    requires { InOrder 0 (2 ^ 32) (by_address entries.now) }
    ensures value { result ≡ cuts_at address (by_address entries.now) }
    ensures few { result ≤ 1 }
{
    match first_behind(entries, address) {
        Some(entry) if entry.address < address => 1,
        _ => 0,
    }
}

/// The number of entries that begin below an address, which are the first ones.
#[tactic(auto, using(crate::proofs::Found::found))]
pub fn count_begun(entries: &Entries, address: u64) -> u32
    requires order { InOrder 0 (2 ^ 32) (by_address entries.now) }
    requires few { length entries.now.items ≤ most_entries }
    ensures value { let rows = by_address entries.now in
        result ≡ passed address rows + cuts_at address rows }
    ensures within { result ≤ length entries.now.items }
{
    let passed = count_passed(entries, address);
    match begun_at(entries, passed, address) {
        Some(_) => passed + 1,
        None => passed,
    }
}

/// Whether the entries leave no gap from an address up to another.
pub fn is_covered(entries: &Entries, from: u64, to: u64) -> bool
    requires { InOrder 0 (2 ^ 32) (by_address entries.now) }
    ensures { let rows = by_address entries.now in
        result ≡ is_without_gap from to (drop (passed from rows) rows) }
{
    let mut i = count_passed(entries, from);
    let mut reached = from;
    'walk: while reached < to && i < entries.len() {
        let entry = *entries.at(i);
        if entry.address > reached {
            return false;
        }
        reached = entry.address + entry.bytes;
        i += 1;
    }
    to <= reached
}

/// The entry at an index, where one stands that begins below an address.
pub fn begun_at(entries: &Entries, i: u32, address: u64) -> Option<Entry>
    ensures { result ≡ if_below address (slice_get (by_address entries.now) i) }
{
    if i >= entries.len() {
        return None;
    }
    let entry = *entries.at(i);
    (entry.address < address).then_some(entry)
}
