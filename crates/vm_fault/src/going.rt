// What an access comes to where its walk has stopped.
ghost use Rattle.std.specs.Prelude.{ℕ, ◌≡◌, ◌≢◌, ◌<◌, ◌≤◌, true, false, IfOk, IsOk, OnOk};
ghost use Rattle.vm_copies.specs.Copies.{CopyTable};
ghost use Rattle.vm_fault.specs.Faults.{KeepsPlan};
ghost use Rattle.vm_fault.specs.Pushes.{CopiesFit};
ghost use Rattle.vm_fault.specs.Rooms.{TakesPlaces};
ghost use Rattle.vm_fault.specs.Stops.{CanGo, Goes, Stands};
ghost use Rattle.vm_fault.specs.Walks.{ChainsFit, Finds, MayCome, Sinks, is_copying, is_storing, keeps_out, wanted_number, writes_at};
ghost use Rattle.vm_frames.specs.Frames.{free};
ghost use Rattle.vm_objects.specs.declared.row.PagerState.TheVariants as state;
ghost use Rattle.vm_shadow.specs.Chains.{ChainTable};
ghost use Rattle.vm_waits.specs.Wants.{IsOfNumber};

use crate::ending::hit;
use crate::pushing::{note, store_top};
use crate::running::{Running, has_frame, is_copy, is_store};
use crate::step::FaultStep;
use crate::walking::{Spot, Stop, walk};
use vm_base::{Lock, NoMemory, PageKey, PageNo};
use vm_copies::Copies;
use vm_model::{Channel, Event, Events, Message};
use vm_objects::{ObjectRow, PagerState};
use vm_parts::HostParts;
use vm_resident::PageRow;
use vm_shadow::Chains;
use vm_waits::Want;

// Whether a lock keeps an access out.
fn is_kept_out(lock: Lock, writes: bool) -> bool
    ensures { result ≡ keeps_out lock writes }
{
    lock.read || (writes && lock.write)
}

// The access that a message asks for.
fn access_number(run: Running, steps: u32) -> u32
    ensures { result ≡ wanted_number run.want steps }
{
    if is_store(run.want) && steps == 0 {
        3
    } else {
        1
    }
}

// Walks down the chain of an access from its top place, and goes on from where the walk stops.
pub fn go(
    run: Running,
    top: Spot,
    parts: &mut HostParts,
    chains: &Chains,
    copies: &mut Copies,
    log: &mut Events,
) -> Result<FaultStep, NoMemory>
    requires can { CanGo run parts.old log.old.room }
    requires top { top.key ≡ run.top }
    requires stands { Stands parts.old.objects top }
    requires fits { ChainsFit chains.now parts.old.objects }
    requires copied { CopiesFit copies.old parts.old chains.now }
    ensures goes { IfOk result (λ step. Goes run step chains.now copies.old copies.new parts.old parts.new log.old.items log.new.items) }
    ensures plan { OnOk result (KeepsPlan parts.old parts.new) }
    ensures still { OnOk result (run.may_claim ≡ false → free parts.new.frames ≡ free parts.old.frames) }
    ensures takes { OnOk result (TakesPlaces parts.old parts.new log.old.items log.new.items log.old.room log.new.room) }
    ensures succeeds { 1 ≤ parts.old.resident.spare → IsOk result }
{
    match walk(top, parts, chains) {
        Stop::Found { key, row, steps } => found(run, key, row, steps, parts, copies, log),
        Stop::Asked { key } => Ok(FaultStep::WaitAnswer { key }),
        Stop::MayCome { key, object, steps } => may_come(run, key, object, steps, parts, log),
        Stop::Nowhere => nowhere(run, parts, copies, log),
    }
}

// The page is here, so many places down.
fn found(
    run: Running,
    key: PageKey,
    row: PageRow,
    steps: u32,
    parts: &mut HostParts,
    copies: &mut Copies,
    log: &mut Events,
) -> Result<FaultStep, NoMemory>
    requires can { CanGo run parts.old log.old.room }
    requires finds { (chains : ChainTable) × CopiesFit copies.old parts.old chains × Finds parts.old chains steps run.top key row }
    ensures goes { (chains : ChainTable) → Finds parts.old chains steps run.top key row
        → IfOk result (λ step. Goes run step chains copies.old copies.new parts.old parts.new log.old.items log.new.items) }
    ensures plan { OnOk result (KeepsPlan parts.old parts.new) }
    ensures still { OnOk result (run.may_claim ≡ false → free parts.new.frames ≡ free parts.old.frames) }
    ensures takes { OnOk result (TakesPlaces parts.old parts.new log.old.items log.new.items log.old.room log.new.room) }
    ensures succeeds { 1 ≤ parts.old.resident.spare → IsOk result }
{
    if is_kept_out(row.lock, is_store(run.want) && steps == 0) {
        return Ok(unlock(run, key, row, steps, parts, log));
    }
    if is_store(run.want) && steps > 0 {
        return raise(run, key, row, steps, parts, copies, log);
    }
    if is_copy(run.want) {
        return copy(run, key, row, parts, log);
    }
    if is_store(run.want) {
        return store_top(run, row, parts, copies, log);
    }
    let value = hit(run, key, row.frame, parts, log);
    Ok(FaultStep::Done { value })
}

// The page's lock keeps the access out: its pager is asked to unlock it, but where it was already.
fn unlock(
    run: Running,
    key: PageKey,
    row: PageRow,
    steps: u32,
    parts: &mut HostParts,
    log: &mut Events,
) -> FaultStep
    requires can { CanGo run parts.old log.old.room }
    requires finds { (chains : ChainTable) × Finds parts.old chains steps run.top key row }
    requires locked { keeps_out row.lock (writes_at run.want steps) ≡ true }
    ensures goes { (chains : ChainTable) (copies : CopyTable) → Finds parts.old chains steps run.top key row
        → Goes run result chains copies copies parts.old parts.new log.old.items log.new.items }
    ensures plan { KeepsPlan parts.old parts.new }
    ensures takes { TakesPlaces parts.old parts.new log.old.items log.new.items log.old.room log.new.room }
    ensures free { free parts.new.frames ≡ free parts.old.frames }
{
    if row.unlock_sent {
        return FaultStep::WaitAnswer { key };
    }
    let Some(object) = parts.objects.find(key.object) else {
        unreachable!()
    };
    parts.note_unlock(key);
    let _ = log.push(Event::Sent {
        channel: Channel::Up {
            host: run.host,
            object: key.object,
        },
        message: Message::Unlock {
            control: object.control,
            page: key.page,
            access: access_number(run, steps),
        },
    });
    FaultStep::Unlock { key }
}

// A store whose page is below: it writes a copy of the page, which comes to its top place.
fn raise(
    run: Running,
    key: PageKey,
    row: PageRow,
    steps: u32,
    parts: &mut HostParts,
    copies: &mut Copies,
    log: &mut Events,
) -> Result<FaultStep, NoMemory>
    requires can { CanGo run parts.old log.old.room }
    requires finds { (chains : ChainTable) × CopiesFit copies.old parts.old chains × Finds parts.old chains steps run.top key row }
    requires stores { is_storing run.want ≡ true }
    requires below { 0 < steps }
    requires unlocked { keeps_out row.lock false ≡ false }
    ensures goes { (chains : ChainTable) → Finds parts.old chains steps run.top key row
        → IfOk result (λ step. Goes run step chains copies.old copies.new parts.old parts.new log.old.items log.new.items) }
    ensures plan { OnOk result (KeepsPlan parts.old parts.new) }
    ensures still { OnOk result (run.may_claim ≡ false → free parts.new.frames ≡ free parts.old.frames) }
    ensures takes { OnOk result (TakesPlaces parts.old parts.new log.old.items log.new.items log.old.room log.new.room) }
    ensures succeeds { 1 ≤ parts.old.resident.spare → IsOk result }
{
    if !has_frame(run.may_claim, parts) {
        return Ok(FaultStep::NeedFrame { source: Some(key) });
    }
    parts.reserve(1)?;
    let frame = parts.raise(key, run.top);
    note(run.top, copies);
    let _ = log.push(Event::Raised {
        host: run.host,
        lower: key.object,
        lower_page: key.page,
        upper: run.top.object,
        upper_page: run.top.page,
    });
    let value = hit(run, run.top, frame, parts, log);
    parts.queues.touch(row.frame);
    Ok(FaultStep::Done { value })
}

// A slow copy whose next page is here, and may be read: a copy of it becomes a page of its target.
fn copy(
    run: Running,
    key: PageKey,
    row: PageRow,
    parts: &mut HostParts,
    log: &mut Events,
) -> Result<FaultStep, NoMemory>
    requires can { CanGo run parts.old log.old.room }
    requires copies { is_copying run.want ≡ true }
    requires finds { (chains : ChainTable) × (steps : ℕ) × Finds parts.old chains steps run.top key row }
    requires unlocked { keeps_out row.lock false ≡ false }
    ensures goes { (chains : ChainTable) (copies : CopyTable) → (steps : ℕ) → Finds parts.old chains steps run.top key row
        → IfOk result (λ step. Goes run step chains copies copies parts.old parts.new log.old.items log.new.items) }
    ensures plan { OnOk result (KeepsPlan parts.old parts.new) }
    ensures still { OnOk result (run.may_claim ≡ false → free parts.new.frames ≡ free parts.old.frames) }
    ensures takes { OnOk result (TakesPlaces parts.old parts.new log.old.items log.new.items log.old.room log.new.room) }
    ensures succeeds { 1 ≤ parts.old.resident.spare → IsOk result }
{
    let Want::CopyTo { target, next, .. } = run.want else {
        unreachable!()
    };
    if !has_frame(run.may_claim, parts) {
        return Ok(FaultStep::NeedFrame { source: Some(key) });
    }
    parts.reserve(1)?;
    let page = PageKey {
        object: target,
        page: PageNo(next),
    };
    let frame = parts.raise(key, page);
    let _ = log.push(Event::CopiedPage {
        task: run.task,
        page: page.page,
        object: key.object,
        object_page: key.page,
        target,
    });
    parts.queues.touch(frame);
    parts.queues.touch(row.frame);
    Ok(FaultStep::Done { value: 0 })
}

// The pager of an object may have the page: it is asked for it, once it is ready.
fn may_come(
    run: Running,
    key: PageKey,
    object: ObjectRow,
    steps: u32,
    parts: &mut HostParts,
    log: &mut Events,
) -> Result<FaultStep, NoMemory>
    requires can { CanGo run parts.old log.old.room }
    requires comes { (chains : ChainTable) × MayCome parts.old chains steps run.top key object }
    requires inside { key.page.0 < object.pages }
    requires told { object.state ≢ state.Without }
    ensures goes { (chains : ChainTable) (copies : CopyTable) → MayCome parts.old chains steps run.top key object
        → IfOk result (λ step. Goes run step chains copies copies parts.old parts.new log.old.items log.new.items) }
    ensures plan { OnOk result (KeepsPlan parts.old parts.new) }
    ensures still { OnOk result (run.may_claim ≡ false → free parts.new.frames ≡ free parts.old.frames) }
    ensures takes { OnOk result (TakesPlaces parts.old parts.new log.old.items log.new.items log.old.room log.new.room) }
    ensures succeeds { 1 ≤ parts.old.resident.spare → IsOk result }
{
    if object.state == PagerState::Sent {
        return Ok(FaultStep::WaitReady { object: key.object });
    }
    if !has_frame(run.may_claim, parts) {
        return Ok(FaultStep::NeedFrame { source: None });
    }
    parts.reserve(1)?;
    parts.ask(key);
    let _ = log.push(Event::Sent {
        channel: Channel::Up {
            host: run.host,
            object: key.object,
        },
        message: Message::Request {
            control: object.control,
            page: key.page,
            access: access_number(run, steps),
        },
    });
    Ok(FaultStep::Ask { key })
}

// The page is nowhere: a page of zeros comes to the top place, with which the access ends.
fn nowhere(
    run: Running,
    parts: &mut HostParts,
    copies: &mut Copies,
    log: &mut Events,
) -> Result<FaultStep, NoMemory>
    requires can { CanGo run parts.old log.old.room }
    requires number { IsOfNumber run.want }
    requires sinks { (chains : ChainTable) × CopiesFit copies.old parts.old chains × Sinks parts.old chains run.top }
    ensures goes { (chains : ChainTable) → Sinks parts.old chains run.top
        → IfOk result (λ step. Goes run step chains copies.old copies.new parts.old parts.new log.old.items log.new.items) }
    ensures plan { OnOk result (KeepsPlan parts.old parts.new) }
    ensures still { OnOk result (run.may_claim ≡ false → free parts.new.frames ≡ free parts.old.frames) }
    ensures takes { OnOk result (TakesPlaces parts.old parts.new log.old.items log.new.items log.old.room log.new.room) }
    ensures succeeds { 1 ≤ parts.old.resident.spare → IsOk result }
{
    if !has_frame(run.may_claim, parts) {
        return Ok(FaultStep::NeedFrame { source: None });
    }
    parts.reserve(1)?;
    let frame = parts.bring(run.top);
    note(run.top, copies);
    let _ = log.push(Event::Zeroed {
        host: run.host,
        object: run.top.object,
        page: run.top.page,
    });
    let value = hit(run, run.top, frame, parts, log);
    Ok(FaultStep::Done { value })
}
