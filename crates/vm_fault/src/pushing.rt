// A store on a page that a copy of its file still shares: the copy gets the page first.
ghost use Rattle.std.specs.Prelude.{◌≡◌, ◌<◌, ◌≤◌, Some, None, true, false, IfOk, IfSome, IsOk, OnOk};
ghost use Rattle.vm_copies.specs.Copies.{copy_at};
ghost use Rattle.vm_fault.specs.Faults.{KeepsPlan};
ghost use Rattle.vm_fault.specs.Pushes.{CopiesFit, Notes, owed_at};
ghost use Rattle.vm_fault.specs.Rooms.{TakesPlaces};
ghost use Rattle.vm_fault.specs.Stops.{CanGo, Goes};
ghost use Rattle.vm_fault.specs.Walks.{Finds, is_storing, keeps_out, writes_at};
ghost use Rattle.vm_frames.specs.Frames.{free};
ghost use Rattle.vm_shadow.specs.Chains.{ChainTable};

use crate::ending::hit;
use crate::running::{Running, has_frame};
use crate::step::FaultStep;
use vm_base::{NoMemory, PageKey};
use vm_copies::Copies;
use vm_model::{Event, Events};
use vm_parts::HostParts;
use vm_resident::PageRow;

// The place of the newest copy of a page's object that hasn't had the page.
pub fn owed(key: PageKey, copies: &Copies) -> Option<PageKey>
    ensures { result ≡ owed_at copies.now key }
{
    let Some(copy) = copies.newest(key.object) else {
        return None;
    };
    let place = PageKey {
        object: copy,
        page: key.page,
    };
    if copies.had(place) { None } else { Some(place) }
}

// A page came to a place: where that is of a copy object, it has had the page.
pub fn note(key: PageKey, copies: &mut Copies)
    requires { IfSome (copy_at copies.old key.object.0) (λ row. key.page.0 < row.pages) }
    ensures { Notes key copies.old copies.new }
{
    if copies.is_copy(key.object) {
        copies.note(key);
    }
}

// A store whose page is here, in its top place, and may be written: where it owes the page to a copy
// object, that gets it first.
pub fn store_top(
    run: Running,
    row: PageRow,
    parts: &mut HostParts,
    copies: &mut Copies,
    log: &mut Events,
) -> Result<FaultStep, NoMemory>
    requires can { CanGo run parts.old log.old.room }
    requires fits { (chains : ChainTable) × CopiesFit copies.old parts.old chains × Finds parts.old chains 0 run.top run.top row }
    requires stores { is_storing run.want ≡ true }
    requires unlocked { keeps_out row.lock (writes_at run.want 0) ≡ false }
    ensures goes { (chains : ChainTable) → Finds parts.old chains 0 run.top run.top row
        → IfOk result (λ step. Goes run step chains copies.old copies.new parts.old parts.new log.old.items log.new.items) }
    ensures plan { OnOk result (KeepsPlan parts.old parts.new) }
    ensures still { OnOk result (run.may_claim ≡ false → free parts.new.frames ≡ free parts.old.frames) }
    ensures takes { OnOk result (TakesPlaces parts.old parts.new log.old.items log.new.items log.old.room log.new.room) }
    ensures succeeds { 1 ≤ parts.old.resident.spare → IsOk result }
{
    if let Some(place) = owed(run.top, copies) {
        return push(run, row, place, parts, copies, log);
    }
    let value = hit(run, run.top, row.frame, parts, log);
    Ok(FaultStep::Done { value })
}

// A copy of the page comes to the place of the copy object to which the store owes it, and then the
// store ends. It waits where that place is asked.
fn push(
    run: Running,
    row: PageRow,
    place: PageKey,
    parts: &mut HostParts,
    copies: &mut Copies,
    log: &mut Events,
) -> Result<FaultStep, NoMemory>
    requires can { CanGo run parts.old log.old.room }
    requires fits { (chains : ChainTable) × CopiesFit copies.old parts.old chains × Finds parts.old chains 0 run.top run.top row }
    requires stores { is_storing run.want ≡ true }
    requires unlocked { keeps_out row.lock (writes_at run.want 0) ≡ false }
    requires owed { owed_at copies.old run.top ≡ Some place }
    ensures goes { (chains : ChainTable) → Finds parts.old chains 0 run.top run.top row
        → IfOk result (λ step. Goes run step chains copies.old copies.new parts.old parts.new log.old.items log.new.items) }
    ensures plan { OnOk result (KeepsPlan parts.old parts.new) }
    ensures still { OnOk result (run.may_claim ≡ false → free parts.new.frames ≡ free parts.old.frames) }
    ensures takes { OnOk result (TakesPlaces parts.old parts.new log.old.items log.new.items log.old.room log.new.room) }
    ensures succeeds { 1 ≤ parts.old.resident.spare → IsOk result }
{
    if parts.resident.get(place).is_some() {
        return Ok(FaultStep::WaitAnswer { key: place });
    }
    if !has_frame(run.may_claim, parts) {
        return Ok(FaultStep::NeedFrame {
            source: Some(run.top),
        });
    }
    parts.reserve(1)?;
    let _ = parts.raise(run.top, place);
    copies.note(place);
    let _ = log.push(Event::Raised {
        host: run.host,
        lower: run.top.object,
        lower_page: run.top.page,
        upper: place.object,
        upper_page: place.page,
    });
    let value = hit(run, run.top, row.frame, parts, log);
    Ok(FaultStep::Done { value })
}
