// Entries that get a protection or an inheritance in a range, in place.
ghost use Rattle.std.specs.Prelude.{◌≡◌, ◌+◌, ◌≤◌, ◌⊎◌, ◌∷◌, [], IsTrue, length};
ghost use Rattle.vm_base.specs.Entries.{AreEntries, by_address, is_range, most_entries, rewritten};
ghost use Rattle.vm_maps.specs.Rows.{altered, becomes, passed, split};
ghost use Rattle.vm_maps.specs.declared.change.MapKind.TheVariants as kind;

use crate::search::{begun_at, count_passed};
use crate::{MapChange, MapKind};
use vm_base::{Entries, Entry, Inherit, PageSize, Prot};

/// Gives the range of a change its protection or its inheritance; the entries are cut at its ends.
pub fn set(size: PageSize, entries: &mut Entries, change: &MapChange)
    requires entries { AreEntries size (by_address entries.old) }
    requires kind { (change.now.kind ≡ kind.Protect) ⊎ (change.now.kind ≡ kind.Inherit) }
    requires range { IsTrue (is_range size change.now.address change.now.bytes) }
    requires few { length (rewritten (becomes change.now) size
        change.now.address change.now.bytes (by_address entries.old)) ≤ most_entries }
    requires room { most_entries ≤ length entries.old.items + entries.old.room }
    ensures set { by_address entries.new ≡ rewritten (becomes change.now) size
        change.now.address change.now.bytes (by_address entries.old) }
    ensures room { length entries.old.items + entries.old.room ≤ length entries.new.items + entries.new.room }
{
    let from = split(size, entries, change.address);
    let to = split(size, entries, change.address + change.bytes);
    match change.kind {
        MapKind::Protect => set_prot(entries, from, to, change.prot),
        MapKind::Inherit => set_inherit(entries, from, to, change.inherit),
        MapKind::Enter | MapKind::Remove => unreachable!(),
    }
}

// Cuts the entry that has addresses on both sides of a boundary, and gives the number of entries
// in front of the boundary.
fn split(size: PageSize, entries: &mut Entries, address: u64) -> u32
    requires entries { AreEntries size (by_address entries.old) }
    requires few { length (split size address (by_address entries.old)) ≤ most_entries }
    requires room { most_entries ≤ length entries.old.items + entries.old.room }
    ensures split { by_address entries.new ≡ split size address (by_address entries.old) }
    ensures value { result ≡ passed address (by_address entries.new) }
    ensures room { length entries.old.items + entries.old.room ≤ length entries.new.items + entries.new.room }
{
    let at = count_passed(entries, address);
    let Some(entry) = begun_at(entries, at, address) else {
        return at;
    };
    let kept = address - entry.address;
    let pages = kept / u64::from(size.bytes());
    let front = Entry {
        bytes: kept,
        ..entry
    };
    let behind = Entry {
        address,
        bytes: entry.bytes - kept,
        offset: entry.offset + pages as u32,
        ..entry
    };
    entries.set(at, front);
    let Ok(()) = entries.insert(at + 1, behind) else {
        unreachable!()
    };
    at + 1
}

// Gives the entries from an index on and below another a protection.
fn set_prot(entries: &mut Entries, from: u32, to: u32, prot: Prot)
    requires order { from ≤ to }
    requires within { to ≤ length entries.old.items }
    ensures set { by_address entries.new ≡ altered (λ row. record row { prot = prot } ∷ []) from to (by_address entries.old) }
    ensures room { length entries.old.items + entries.old.room ≤ length entries.new.items + entries.new.room }
{
    'each: for i in from..to {
        let entry = *entries.at(i);
        entries.set(i, Entry { prot, ..entry });
    }
}

// Gives the entries from an index on and below another an inheritance.
fn set_inherit(entries: &mut Entries, from: u32, to: u32, inherit: Inherit)
    requires order { from ≤ to }
    requires within { to ≤ length entries.old.items }
    ensures set { by_address entries.new ≡ altered (λ row. record row { inherit = inherit } ∷ []) from to (by_address entries.old) }
    ensures room { length entries.old.items + entries.old.room ≤ length entries.new.items + entries.new.room }
{
    'each: for i in from..to {
        let entry = *entries.at(i);
        entries.set(i, Entry { inherit, ..entry });
    }
}
