// What a fork makes of a task's entries, and which of them no fork copies.
ghost use Rattle.std.specs.Prelude.{◌≡◌, ◌≤◌, ◌==◌, ◌&&◌, [], ◌∷◌, drop, length, nat_lt, not};
ghost use Rattle.vm_base.specs.Entries.{by_address, meets_range};
ghost use Rattle.vm_model.specs.Tasks.{copies, copies_below, copies_from, is_copied, new_marks};
ghost use Rattle.vm_kernel.specs.Refusing.{is_marked, is_paged, kind_among, meets_uncopied, takes_no_mark};

use vm_base::{Entries, Entry, Inherit, ObjectKind, RegionId};
use vm_model::Declarations;
use vm_shadow::Chains;

fn is_copied(inherit: Inherit) -> bool
    ensures { result ≡ is_copied inherit }
{
    match inherit {
        Inherit::Copy => true,
        Inherit::Share | Inherit::Never => false,
    }
}

// How many of the entries a fork copies.
pub fn copies(entries: &Entries) -> u32
    ensures count { result ≡ copies (by_address entries.now) }
    ensures few { result ≤ length entries.now.items }
{
    let mut count = 0;
    'all: for i in 0..entries.len() {
        if is_copied(entries.at(i).inherit) {
            count += 1;
        }
    }
    count
}

// How many of them are on one of so many declared objects.
pub fn copies_below(entries: &Entries, declared: u32) -> u32
    ensures count { result ≡ copies_below declared (by_address entries.now) }
    ensures few { result ≤ length entries.now.items }
{
    let mut count = 0;
    'all: for i in 0..entries.len() {
        if is_copied_below(*entries.at(i), declared) {
            count += 1;
        }
    }
    count
}

// Whether a fork copies the entry, which is on one of so many declared objects.
fn is_copied_below(entry: Entry, declared: u32) -> bool
    ensures { result ≡ (is_copied entry.inherit && nat_lt entry.region.0 declared) }
{
    is_copied(entry.inherit) && entry.region.0 < declared
}

// How many regions a fork marks that had no mark.
pub fn new_marks(entries: &Entries, declared: u32, chains: &Chains) -> u32
    ensures count { result ≡ new_marks (takes_no_mark declared chains.now) (by_address entries.now) }
    ensures few { result ≤ length entries.now.items }
{
    let mut count = 0;
    'all: for i in 0..entries.len() {
        if is_newly_marked(*entries.at(i), entries, i + 1, declared, chains) {
            count += 1;
        }
    }
    count
}

// Whether a fork copies an entry on a region to which that gives a mark, and none on its region of the
// entries from a place on.
fn is_newly_marked(
    entry: Entry,
    entries: &Entries,
    from: u32,
    declared: u32,
    chains: &Chains,
) -> bool
    ensures { result ≡ (is_copied entry.inherit && (not (copies_from entry.region.0 (drop from (by_address entries.now))) && not
        (takes_no_mark declared chains.now entry.region.0))) }
{
    is_copied(entry.inherit)
        && !takes_no_mark(declared, chains, entry.region)
        && !copies_from(entries, from, entry.region)
}

// Whether a copy of the region gives it no mark: it is one of so many declared objects', or has one.
pub fn takes_no_mark(declared: u32, chains: &Chains, region: RegionId) -> bool
    ensures { result ≡ takes_no_mark declared chains.now region.0 }
{
    region.0 < declared || is_marked(chains, region)
}

// Whether a region has the copy mark.
fn is_marked(chains: &Chains, region: RegionId) -> bool
    ensures { result ≡ is_marked chains.now region.0 }
{
    match chains.region(region) {
        Some(row) => row.marked,
        None => false,
    }
}

// Whether a fork copies an entry on the region.
fn copies_region(entry: Entry, region: RegionId) -> bool
    ensures { result ≡ (is_copied entry.inherit && entry.region.0 == region.0) }
{
    is_copied(entry.inherit) && entry.region.0 == region.0
}

// Whether a fork copies an entry on the region, of the entries from a place on.
fn copies_from(entries: &Entries, from: u32, region: RegionId) -> bool
    ensures { result ≡ copies_from region.0 (drop from (by_address entries.now)) }
{
    'all: for i in from..entries.len() {
        if copies_region(*entries.at(i), region) {
            return true;
        }
    }
    false
}

// Whether an entry has an address of the range.
fn meets(entry: Entry, address: u64, bytes: u64) -> bool
    ensures { result ≡ meets_range address bytes (entry ∷ []) }
{
    let ends_behind = entry.address < address || entry.address - address < bytes;
    let begins_before = address < entry.address || address - entry.address < entry.bytes;
    ends_behind && begins_before
}

// The kind of a region: that of a declared object, or temporary.
pub fn kind_of(declared: &Declarations, region: RegionId) -> ObjectKind
    ensures { result ≡ kind_among declared.now.items region.0 }
{
    if region.0 >= declared.len() {
        return ObjectKind::Temp;
    }
    declared.at(region.0).kind
}

// Whether the region has temporary pages, or those of a file: the copies of its pages are delayed.
pub fn is_paged(declared: &Declarations, region: RegionId) -> bool
    ensures { result ≡ is_paged declared.now.items region.0 }
{
    region.0 >= declared.len() || kind_of(declared, region) == ObjectKind::File
}

// Whether the entry is on a shared or wild object, and has an address of the range.
fn is_uncopied_in(entry: Entry, declared: &Declarations, address: u64, bytes: u64) -> bool
    ensures { result ≡ (not (is_paged declared.now.items entry.region.0) && meets_range address bytes (entry ∷ [])) }
{
    !is_paged(declared, entry.region) && meets(entry, address, bytes)
}

// Whether an entry on a shared or wild object has an address of the range.
pub fn meets_uncopied(entries: &Entries, declared: &Declarations, address: u64, bytes: u64) -> bool
    ensures { result ≡ meets_uncopied declared.now.items address bytes (by_address entries.now) }
{
    'all: for i in 0..entries.len() {
        if is_uncopied_in(*entries.at(i), declared, address, bytes) {
            return true;
        }
    }
    false
}
