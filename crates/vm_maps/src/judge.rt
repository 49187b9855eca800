// The tests that a task's entries decide.
ghost use Rattle.std.specs.Prelude.{◌≡◌, ◌+◌, ◌≤◌, ◌<◌, ◌^◌, Bool, ℕ, Some, None, if◌then◌else◌, length, nat_lt};
ghost use Rattle.vm_base.specs.Entries.{AreEntries, InOrder, allows, by_address, inherited, is_range, most_entries, page_at, protected, removed};
ghost use Rattle.vm_base.specs.declared.code.Code.TheVariants as code;
ghost use Rattle.vm_base.specs.declared.ids.Inherit.{Inherit as Inheritance};
ghost use Rattle.vm_base.specs.declared.ids.Prot.{Prot as Protection};
ghost use Rattle.vm_maps.specs.Judge.{judged, looked_up, place_at};

use crate::search::{count_begun, count_cuts, count_passed, entry_at, is_covered, meets_range};
use crate::{MapChange, MapKind, Place};
use vm_base::limits::{ADDRESS_END, MOST_ENTRIES};
use vm_base::{Access, Code, Entries, Entry, PageNo, PageSize};

/// The first test that the change meets.
pub fn judge_change(size: PageSize, entries: &Entries, change: &MapChange) -> Option<Code>
    requires { AreEntries size (by_address entries.now) }
    ensures { result ≡ judged size change.now (by_address entries.now) }
{
    let address = change.address;
    let bytes = change.bytes;
    if !is_range(size.bytes(), address, bytes) {
        return Some(Code::InvalidArgument);
    }
    let end = address + bytes;
    match change.kind {
        MapKind::Enter => {
            if meets_range(entries, address, bytes) {
                return Some(Code::NoSpace);
            }
            full(entries.len() + 1)
        }
        MapKind::Remove => full(count_removed(entries, address, bytes)),
        MapKind::Protect | MapKind::Inherit => {
            if !is_covered(entries, address, end) {
                return Some(Code::InvalidAddress);
            }
            full(count_rewritten(entries, address, bytes))
        }
    }
}

/// Where an access of an address leads, or why it is refused.
pub fn look_up(size: PageSize, entries: &Entries, address: u64, need: Access) -> Result<Place, Code>
    requires { AreEntries size (by_address entries.now) }
    ensures { result ≡ looked_up size address need (by_address entries.now) }
{
    let Some(entry) = entry_at(entries, address) else {
        return Err(Code::InvalidAddress);
    };
    if !is_allowed(need, entry) {
        return Err(Code::ProtectionFailure);
    }
    Ok(place_in(size, entry, address))
}

fn is_allowed(need: Access, entry: Entry) -> bool
    ensures { result ≡ allows need entry.prot }
{
    match need {
        Access::Load => entry.prot.read,
        Access::Store => entry.prot.write,
    }
}

fn place_in(size: PageSize, entry: Entry, address: u64) -> Place
    requires inside { entry.address ≤ address }
    requires page { page_at size address entry < 2 ^ 32 }
    ensures { result ≡ place_at size address entry }
{
    let size = u64::from(size.bytes());
    let pages = (address - entry.address) / size;
    Place {
        region: entry.region,
        page: PageNo(entry.offset + pages as u32),
        at: (address % size) as u32,
    }
}

// Whether the range is of whole pages, not empty, and below the end of addresses.
fn is_range(size: u32, address: u64, bytes: u64) -> bool
    requires { 0 < size }
    ensures { result ≡ is_range size address bytes }
{
    let size = u64::from(size);
    address % size == 0
        && bytes % size == 0
        && bytes > 0
        && bytes <= ADDRESS_END
        && address <= ADDRESS_END - bytes
}

fn full(count: u32) -> Option<Code>
    ensures { result ≡ (if nat_lt most_entries count then Some code.TableFull else None) }
{
    (count > MOST_ENTRIES).then_some(Code::TableFull)
}

// How many entries are left when the range is taken out.
fn count_removed(entries: &Entries, address: u64, bytes: u64) -> u32
    requires order { InOrder 0 (2 ^ 32) (by_address entries.now) }
    requires few { length entries.now.items ≤ most_entries }
    requires some { 0 < bytes }
    requires end { address + bytes ≤ 2 ^ 32 }
    ensures { (size : ℕ) →
        result ≡ length (removed size address bytes (by_address entries.now)) }
{
    count_begun(entries, address) + (entries.len() - count_passed(entries, address + bytes))
}

// How many entries there are when they are cut at the ends of the range.
fn count_rewritten(entries: &Entries, address: u64, bytes: u64) -> u32
    requires order { InOrder 0 (2 ^ 32) (by_address entries.now) }
    requires few { length entries.now.items ≤ most_entries }
    requires some { 0 < bytes }
    requires end { address + bytes ≤ 2 ^ 32 }
    ensures protected { (size : ℕ) (prot : Protection) →
        result ≡ length (protected size address bytes prot (by_address entries.now)) }
    ensures inherited { (size : ℕ) (inherit : Inheritance) →
        result ≡ length (inherited size address bytes inherit (by_address entries.now)) }
{
    entries.len() + count_cuts(entries, address) + count_cuts(entries, address + bytes)
}
