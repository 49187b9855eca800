// A marked region gets an object of its own, or loses its mark.
ghost use Rattle.std.specs.Prelude.{◌≡◌, ◌-◌, ◌<◌, ◌≤◌, ◌^◌, ◌&&◌, ℕ, Some, None, true, false, IfSome, IsOk, IsSome, OnOk};
ghost use Rattle.vm_copies.specs.Copies.{CopyTable};
ghost use Rattle.vm_fault.specs.Faults.{IsCounted, LosesMark, MakesShadow, Prepares, has_one};
ghost use Rattle.vm_fault.specs.Rooms.{TakesRoom};
ghost use Rattle.vm_fault.specs.Walks.{ChainsFit, is_storing};
ghost use Rattle.vm_objects.specs.Objects.{object_at};
ghost use Rattle.vm_parts.specs.Fits.{Fit};
ghost use Rattle.vm_shadow.specs.Chains.{IsOnlyTop, ObjectsBelow, region_at};

use crate::running::is_store;
use vm_base::{NoMemory, ObjectId, ObjectKind, RegionId};
use vm_model::{Event, Events};
use vm_objects::Objects;
use vm_parts::HostParts;
use vm_shadow::{Chains, Ids, RegionRow};
use vm_waits::Want;

// A store in a marked region first takes its mark: where its top has another reference, the region
// gets an object of its own over that.
pub fn prepare(
    want: Want,
    region: RegionId,
    parts: &mut HostParts,
    chains: &mut Chains,
    ids: &mut Ids,
    log: &mut Events,
) -> Result<(), NoMemory>
    requires there { IsSome (region_at chains.old region.0) }
    requires fit { Fit parts.old }
    requires chains { ChainsFit chains.old parts.old.objects }
    requires counted { IfSome (region_at chains.old region.0) (λ row. row.marked ≡ true → 0 < ids.old.marks) }
    requires referred { IfSome (region_at chains.old region.0) (λ row. row.marked ≡ true →
        IsCounted region.0 row parts.old.objects chains.old) }
    requires named { ObjectsBelow ids.old.next_object chains.old }
    requires unmade { (o : ℕ) → ids.old.next_object ≤ o → object_at parts.old.objects o ≡ None }
    requires few { ids.old.next_object < 2 ^ 32 - 1 }
    requires room { 3 ≤ log.old.room }
    ensures ok { (copies : CopyTable) → OnOk result (IfSome (region_at chains.old region.0) (λ row. Prepares (is_storing want && row.marked) region row
        (record { parts = parts.old; chains = chains.old; copies = copies; ids = ids.old; events = log.old.items })
        (record { parts = parts.new; chains = chains.new; copies = copies; ids = ids.new; events = log.new.items }))) }
    ensures room { 2 ≤ log.new.room }
    ensures takes { (copies : CopyTable) → OnOk result (TakesRoom
        (record { parts = parts.old; chains = chains.old; copies = copies; ids = ids.old; events = log.old.items })
        (record { parts = parts.new; chains = chains.new; copies = copies; ids = ids.new; events = log.new.items }) log.old.room log.new.room) }
    ensures succeeds { chains.old.marked ≤ chains.old.spare → chains.old.marked ≤ parts.old.objects.rows → IsOk result }
{
    let Some(row) = chains.region(region) else {
        unreachable!()
    };
    if !is_store(want) || !row.marked {
        return Ok(());
    }
    if is_alone(row.top, &parts.objects) {
        return unmark(region, row, parts, chains, ids, log);
    }
    shadow(region, row, parts, chains, ids, log)
}

// The object has one reference.
fn is_alone(object: ObjectId, objects: &Objects) -> bool
    ensures { result ≡ has_one (object_at objects.now object.0) }
{
    matches!(objects.find(object), Some(row) if row.references == 1)
}

// The region, which is the one reference of its top, loses its mark.
fn unmark(
    region: RegionId,
    row: RegionRow,
    parts: &HostParts,
    chains: &mut Chains,
    ids: &mut Ids,
    log: &mut Events,
) -> Result<(), NoMemory>
    requires row { region_at chains.old region.0 ≡ Some row }
    requires marked { row.marked ≡ true }
    requires sole { has_one (object_at parts.now.objects row.top.0) ≡ true }
    requires alone { IsOnlyTop region.0 row.top.0 chains.old }
    requires chains { ChainsFit chains.old parts.now.objects }
    requires counted { 0 < ids.old.marks }
    requires room { 3 ≤ log.old.room }
    ensures ok { (copies : CopyTable) → OnOk result (LosesMark region row
        (record { parts = parts.now; chains = chains.old; copies = copies; ids = ids.old; events = log.old.items })
        (record { parts = parts.now; chains = chains.new; copies = copies; ids = ids.new; events = log.new.items })) }
    ensures room { 2 ≤ log.new.room }
    ensures takes { (copies : CopyTable) → OnOk result (TakesRoom
        (record { parts = parts.now; chains = chains.old; copies = copies; ids = ids.old; events = log.old.items })
        (record { parts = parts.now; chains = chains.new; copies = copies; ids = ids.new; events = log.new.items }) log.old.room log.new.room) }
    ensures succeeds { IsOk result }
{
    chains.unmark(region, ids);
    log.push(Event::Unmarked { region })
}

// The region's new object is over its old top.
fn shadow(
    region: RegionId,
    row: RegionRow,
    parts: &mut HostParts,
    chains: &mut Chains,
    ids: &mut Ids,
    log: &mut Events,
) -> Result<(), NoMemory>
    requires row { region_at chains.old region.0 ≡ Some row }
    requires marked { row.marked ≡ true }
    requires shared { has_one (object_at parts.old.objects row.top.0) ≡ false }
    requires fit { Fit parts.old }
    requires chains { ChainsFit chains.old parts.old.objects }
    requires counted { 0 < ids.old.marks }
    requires some { 0 < chains.old.marked }
    requires named { ObjectsBelow ids.old.next_object chains.old }
    requires unmade { (o : ℕ) → ids.old.next_object ≤ o → object_at parts.old.objects o ≡ None }
    requires few { ids.old.next_object < 2 ^ 32 - 1 }
    requires room { 3 ≤ log.old.room }
    ensures ok { (copies : CopyTable) → OnOk result (MakesShadow region row
        (record { parts = parts.old; chains = chains.old; copies = copies; ids = ids.old; events = log.old.items })
        (record { parts = parts.new; chains = chains.new; copies = copies; ids = ids.new; events = log.new.items })) }
    ensures room { 2 ≤ log.new.room }
    ensures takes { (copies : CopyTable) → OnOk result (TakesRoom
        (record { parts = parts.old; chains = chains.old; copies = copies; ids = ids.old; events = log.old.items })
        (record { parts = parts.new; chains = chains.new; copies = copies; ids = ids.new; events = log.new.items }) log.old.room log.new.room) }
    ensures succeeds { chains.old.marked ≤ chains.old.spare → chains.old.marked ≤ parts.old.objects.rows → IsOk result }
{
    parts.objects.reserve(1, 0)?;
    let object = chains.shadow_over(region, ids)?;
    parts.objects.make(object, ObjectKind::Temp, row.pages)?;
    parts.objects.refer(object);
    log.push(Event::Shadowed {
        region,
        new: object,
        old: row.top,
    })
}
