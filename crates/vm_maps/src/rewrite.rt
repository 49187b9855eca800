// Entries with one more, and entries cut at the ends of a range.
ghost use Rattle.std.specs.Prelude.{◌≡◌, ◌+◌, ◌/◌, ◌≤◌, ◌<◌, ◌^◌, ◌++◌, take, drop, IfOk, IsOk, OnOk, false, length, option_to_list};
ghost use Rattle.std.specs.List.{flat_map};
ghost use Rattle.vm_base.specs.Entries.{AreEntries, InOrder, by_address, cut, entered, meets_range, most_entries, parts_in, rewritten};
ghost use Rattle.vm_maps.specs.Rows.{becomes, rewritten_one};

use crate::search::{count_begun, count_passed};
use crate::{MapChange, MapKind};
use std::alloc::Global;
use vm_base::limits::ADDRESS_END;
use vm_base::{Entries, Entry, NoMemory, PageSize};

/// Puts an entry in its place, where a table has room for the most entries.
pub fn put_entry(entries: &mut Entries, entry: Entry) -> Result<(), NoMemory>
    requires order { InOrder 0 (2 ^ 32) (by_address entries.old) }
    requires some { 0 < entry.bytes }
    requires free { meets_range entry.address entry.bytes (by_address entries.old) ≡ false }
    requires few { length entries.old.items < most_entries }
    requires room { most_entries ≤ length entries.old.items + entries.old.room }
    ensures succeeds { IsOk result }
    ensures entered { by_address entries.new ≡ entered entry (by_address entries.old) }
    ensures room { most_entries ≤ length entries.new.items + entries.new.room }
{
    let at = count_passed(entries, entry.address);
    entries.insert(at, entry)
}

/// What a change makes of the entries that meet its range, which stand from an index on and below
/// another: what is left of them, and their parts in the range as they were.
#[derive(Drop)]
pub struct Rewritten {
    pub from: u32,
    pub to: u32,
    pub kept: Entries,
    pub taken: Entries,
}

/// Cuts the entries that meet the range at its ends, and changes what lies in it.
pub fn rewrite(
    alloc: Global,
    size: PageSize,
    entries: &Entries,
    change: &MapChange,
) -> Result<Rewritten, NoMemory>
    requires entries { AreEntries size (by_address entries.now) }
    requires end { change.now.address + change.now.bytes ≤ 2 ^ 32 }
    ensures order { IfOk result (λ made. made.from ≤ made.to) }
    ensures within { IfOk result (λ made. made.to ≤ length entries.now.items) }
    ensures kept { IfOk result (λ made. let rows = by_address entries.now in
        take made.from rows ++ (by_address made.kept ++ drop made.to rows)
        ≡ rewritten (becomes change.now) size change.now.address change.now.bytes rows) }
    ensures taken { IfOk result (λ made. by_address made.taken ≡ parts_in
        size change.now.address change.now.bytes (by_address entries.now)) }
{
    let end = change.address + change.bytes;
    let mut made = Rewritten {
        from: count_passed(entries, change.address),
        to: count_begun(entries, end),
        kept: Entries::new(alloc),
        taken: Entries::new(alloc),
    };
    'met: for i in made.from..made.to {
        rewrite_entry(size, change, *entries.at(i), &mut made)?;
    }
    Ok(made)
}

// Adds what the change makes of one entry.
fn rewrite_entry(
    size: PageSize,
    change: &MapChange,
    entry: Entry,
    made: &mut Rewritten,
) -> Result<(), NoMemory>
    requires end { change.now.address + change.now.bytes ≤ 2 ^ 32 }
    requires some { 0 < entry.bytes }
    requires high { entry.address + entry.bytes ≤ 2 ^ 32 }
    requires pages { entry.offset + entry.bytes / size < 2 ^ 32 }
    ensures kept { OnOk result (by_address made.new.kept
        ≡ by_address made.old.kept ++ rewritten_one size change.now entry) }
    ensures taken { OnOk result (by_address made.new.taken ≡ by_address made.old.taken
        ++ cut size change.now.address (change.now.address + change.now.bytes) entry) }
    ensures place { OnOk result ((made.new.from ≡ made.old.from) × (made.new.to ≡ made.old.to)) }
{
    let end = change.address + change.bytes;
    if change.address <= entry.address && entry.address + entry.bytes <= end {
        made.taken.push(entry)?;
        return push_part(&mut made.kept, altered(change, Some(entry)));
    }
    let part = cut(size, change.address, end, entry);
    push_part(&mut made.taken, part)?;
    push_part(&mut made.kept, cut(size, 0, change.address, entry))?;
    push_part(&mut made.kept, altered(change, part))?;
    push_part(&mut made.kept, cut(size, end, ADDRESS_END, entry))?;
    Ok(())
}

fn push_part(list: &mut Entries, part: Option<Entry>) -> Result<(), NoMemory>
    ensures { OnOk result (by_address list.new ≡ by_address list.old ++ option_to_list part) }
{
    if let Some(part) = part {
        list.push(part)?;
    }
    Ok(())
}

// What a part in the range becomes.
fn altered(change: &MapChange, part: Option<Entry>) -> Option<Entry>
    ensures { option_to_list result ≡ flat_map (becomes change.now) (option_to_list part) }
{
    let part = part?;
    match change.kind {
        MapKind::Enter => Some(part),
        MapKind::Remove => None,
        MapKind::Protect => Some(Entry {
            prot: change.prot,
            ..part
        }),
        MapKind::Inherit => Some(Entry {
            inherit: change.inherit,
            ..part
        }),
    }
}

// The part of an entry from an address on and below another.
fn cut(size: PageSize, from: u64, to: u64, entry: Entry) -> Option<Entry>
    requires high { entry.address + entry.bytes ≤ 2 ^ 32 }
    requires pages { entry.offset + entry.bytes / size < 2 ^ 32 }
    ensures { option_to_list result ≡ cut size from to entry }
{
    let start = from.max(entry.address);
    let end = to.min(entry.address + entry.bytes);
    if start >= end {
        return None;
    }
    let pages = (start - entry.address) / u64::from(size.bytes());
    Some(Entry {
        address: start,
        bytes: end - start,
        offset: entry.offset + pages as u32,
        ..entry
    })
}
