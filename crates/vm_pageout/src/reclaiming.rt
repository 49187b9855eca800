// A page is taken from a host.
ghost use Rattle.std.specs.Prelude.{◌≡◌, ◌+◌, ◌≤◌, ◌<◌, ◌↔◌, true, false, Some, ◌∷◌, IfOk, IfSome, IsOk, IsSome, OnErr, OnOk, length};
ghost use Rattle.vm_frames.specs.Frames.{is_claimed, page_in};
ghost use Rattle.vm_model.specs.declared.event.Event.TheVariants as event;
ghost use Rattle.vm_model.specs.declared.message.Message.TheVariants as message;
ghost use Rattle.vm_objects.specs.Objects.{PutsAbsent, PutsObject, SameMarks, SameRooms, object_at};
ghost use Rattle.vm_pageout.specs.declared.answer.Reclaim.TheVariants as answers;
ghost use Rattle.vm_pageout.specs.Reclaims.{IsUnchanged, ReclaimEffects, TakesPage, controlled, creation_events, sends};
ghost use Rattle.vm_parts.specs.Changes.{Discards};
ghost use Rattle.vm_parts.specs.Controls.{AllLive, HasNumbers};
ghost use Rattle.vm_parts.specs.Fits.{Fit};
ghost use Rattle.vm_parts.specs.Listed.{listed_pages};
ghost use Rattle.vm_queues.specs.Queues.{AllSkipped, is_queued};
ghost use Rattle.vm_resident.specs.Resident.{row_at};

use crate::{Laundry, Reclaim};
use vm_base::{FrameNo, HostId, NoMemory, PageKey};
use vm_model::{Channel, Event, Events, Message};
use vm_objects::{Objects, PagerState};
use vm_parts::HostParts;
use vm_resident::PageRow;

/// Reclaims a page that is here, and says what became of it.
///
/// The victim is the page queues' next one that isn't in `skip`. In this profile a clean page is
/// dropped without a word; a dirty or precious one goes to its pager by memory_object_data_return,
/// without kernel copy, and behind memory_object_create where the pager doesn't know the object yet.
/// The log gets at most two events. It fails for want of memory alone, before anything changes.
pub fn reclaim(
    host: HostId,
    parts: &mut HostParts,
    skip: &[FrameNo],
    laundry: &mut Laundry,
    log: &mut Events,
) -> Result<Reclaim, NoMemory>
    requires fit { Fit parts.old }
    requires room { 0 < laundry.old.room }
    requires live { AllLive parts.old.objects }
    requires numbers { HasNumbers parts.old.objects }
    ensures ok { IfOk result (λ answer. ReclaimEffects answer host skip.now parts.old parts.new laundry.old laundry.new log.old.items log.new.items) }
    ensures nothing { IfOk result (λ answer. (answer ≡ answers.Nothing) ↔ AllSkipped skip.now parts.old.queues) }
    ensures err { OnErr result (IsUnchanged parts.old parts.new laundry.old laundry.new log.old.items log.new.items) }
    ensures fit { Fit parts.new }
    ensures live { AllLive parts.new.objects }
    ensures size { parts.new.buffers.size ≡ parts.old.buffers.size }
    ensures buffers { parts.old.buffers.count ≤ parts.new.buffers.count + 1 }
    ensures log { log.old.room ≤ log.new.room + 2 }
    ensures spare { parts.old.resident.spare ≤ parts.new.resident.spare }
    ensures kept { parts.old.objects.rows ≤ parts.new.objects.rows }
    ensures listed { IfOk result (λ answer. (answer ≡ answers.Nothing → listed_pages parts.new.queues ≡ listed_pages parts.old.queues)
        × ((answer ≡ answers.Nothing → ⊥) → listed_pages parts.new.queues + 1 ≡ listed_pages parts.old.queues)) }
    ensures succeeds { 2 ≤ log.old.room → 0 < parts.old.buffers.count → IsOk result }
    ensures freed { IfOk result (λ answer. answer ≡ answers.Freed → log.old.room ≤ log.new.room + 1) }
    ensures whole { IfOk result (λ answer. answer ≡ answers.Freed → parts.old.buffers.count ≤ parts.new.buffers.count) }
{
    log.reserve(2)?;
    parts.buffers.reserve(1)?;
    let Some(frame) = parts.queues.victim(skip) else {
        return Ok(Reclaim::Nothing);
    };
    Ok(take_page(host, frame, parts, laundry, log))
}

/// Reclaims the page in a frame, as `reclaim` does its victim's. It fails for want of memory alone,
/// before anything changes.
pub fn reclaim_page(
    host: HostId,
    frame: FrameNo,
    parts: &mut HostParts,
    laundry: &mut Laundry,
    log: &mut Events,
) -> Result<Reclaim, NoMemory>
    requires fit { Fit parts.old }
    requires queued { is_queued parts.old.queues frame.0 ≡ true }
    requires room { 0 < laundry.old.room }
    requires live { AllLive parts.old.objects }
    requires numbers { HasNumbers parts.old.objects }
    ensures ok { IfOk result (λ answer. TakesPage answer host frame parts.old parts.new laundry.old laundry.new log.old.items log.new.items) }
    ensures err { OnErr result (IsUnchanged parts.old parts.new laundry.old laundry.new log.old.items log.new.items) }
    ensures fit { Fit parts.new }
    ensures live { AllLive parts.new.objects }
    ensures size { parts.new.buffers.size ≡ parts.old.buffers.size }
    ensures buffers { parts.old.buffers.count ≤ parts.new.buffers.count + 1 }
    ensures log { log.old.room ≤ log.new.room + 2 }
    ensures spare { parts.old.resident.spare ≤ parts.new.resident.spare }
    ensures kept { parts.old.objects.rows ≤ parts.new.objects.rows }
    ensures listed { OnOk result (listed_pages parts.new.queues + 1 ≡ listed_pages parts.old.queues) }
    ensures succeeds { 2 ≤ log.old.room → 0 < parts.old.buffers.count → IsOk result }
    ensures freed { IfOk result (λ answer. answer ≡ answers.Freed → log.old.room ≤ log.new.room + 1) }
    ensures whole { IfOk result (λ answer. answer ≡ answers.Freed → parts.old.buffers.count ≤ parts.new.buffers.count) }
{
    log.reserve(2)?;
    parts.buffers.reserve(1)?;
    Ok(take_page(host, frame, parts, laundry, log))
}

// Takes the page in a frame from the host, where there is memory for what is said of it.
fn take_page(
    host: HostId,
    frame: FrameNo,
    parts: &mut HostParts,
    laundry: &mut Laundry,
    log: &mut Events,
) -> Reclaim
    requires fit { Fit parts.old }
    requires queued { is_queued parts.old.queues frame.0 ≡ true }
    requires room { 0 < laundry.old.room }
    requires live { AllLive parts.old.objects }
    requires numbers { HasNumbers parts.old.objects }
    requires log { 2 ≤ log.old.room }
    requires buffer { 0 < parts.old.buffers.count }
    ensures takes { TakesPage result host frame parts.old parts.new laundry.old laundry.new log.old.items log.new.items }
    ensures fit { Fit parts.new }
    ensures live { AllLive parts.new.objects }
    ensures size { parts.new.buffers.size ≡ parts.old.buffers.size }
    ensures buffers { parts.old.buffers.count ≤ parts.new.buffers.count + 1 }
    ensures log { log.old.room ≤ log.new.room + 2 }
    ensures spare { parts.old.resident.spare ≤ parts.new.resident.spare }
    ensures kept { parts.old.objects.rows ≤ parts.new.objects.rows }
    ensures listed { listed_pages parts.new.queues + 1 ≡ listed_pages parts.old.queues }
    ensures freed { result ≡ answers.Freed → log.old.room ≤ log.new.room + 1 }
    ensures whole { result ≡ answers.Freed → parts.old.buffers.count ≤ parts.new.buffers.count }
{
    parts.queues.stand_once();
    let Some(key) = parts.resident.page_of(frame) else {
        unreachable!()
    };
    let Some(row) = parts.resident.get(key) else {
        unreachable!()
    };
    if !row.dirty && !row.precious {
        drop_page(host, key, row, parts, log);
        return Reclaim::Freed;
    }
    let _ = parts.remove(key);
    return_page(host, key, row, parts, log);
    laundry.hold(frame);
    Reclaim::Returned
}

// Drops a page, and says so.
fn drop_page(host: HostId, key: PageKey, row: PageRow, parts: &mut HostParts, log: &mut Events)
    requires fit { Fit parts.old }
    requires found { row_at parts.old.resident key.object.0 key.page.0 ≡ Some row }
    requires here { row.here ≡ true }
    requires room { 0 < log.old.room }
    ensures fit { Fit parts.new }
    ensures discards { Discards key row parts.old parts.new }
    ensures objects { parts.new.objects ≡ parts.old.objects }
    ensures buffers { parts.new.buffers ≡ parts.old.buffers }
    ensures spare { parts.old.resident.spare ≤ parts.new.resident.spare }
    ensures log { log.new.items ≡ event.Dropped host key.object key.page ∷ log.old.items }
    ensures less { log.old.room ≤ log.new.room + 1 }
{
    parts.discard(key);
    let _ = log.push(Event::Dropped {
        host,
        object: key.object,
        page: key.page,
    });
}

// Sends the bytes of a page that has left to the pager of its object, which has it then.
fn return_page(host: HostId, key: PageKey, row: PageRow, parts: &mut HostParts, log: &mut Events)
    requires claimed { is_claimed parts.old.frames row.frame.0 ≡ true }
    requires sized { length (page_in parts.old.frames row.frame.0) ≡ parts.old.buffers.size }
    requires there { IsSome (object_at parts.old.objects key.object.0) }
    requires inside { IfSome (object_at parts.old.objects key.object.0) (λ object. key.page.0 < object.pages) }
    requires numbers { HasNumbers parts.old.objects }
    requires buffers { 0 < parts.old.buffers.count }
    requires room { 2 ≤ log.old.room }
    ensures rest { parts.new ≡ record parts.old { objects = parts.new.objects; buffers = parts.new.buffers } }
    ensures objects { IfSome (object_at parts.old.objects key.object.0) (λ object. PutsObject key.object.0 (Some (controlled object)) parts.old.objects
        parts.new.objects) }
    ensures present { PutsAbsent key.object.0 key.page.0 false parts.old.objects parts.new.objects }
    ensures rooms { SameRooms parts.old.objects parts.new.objects }
    ensures log { IfSome (object_at parts.old.objects key.object.0) (λ object. log.new.items ≡
        sends host key (message.Return (controlled object).control key.page row.dirty false (page_in parts.old.frames row.frame.0))
        ∷ creation_events host key parts.old.buffers.size object log.old.items) }
    ensures size { parts.new.buffers.size ≡ parts.old.buffers.size }
    ensures count { parts.old.buffers.count ≡ parts.new.buffers.count + 1 }
    ensures less { log.old.room ≤ log.new.room + 2 }
{
    let size = parts.buffers.size().bytes();
    let control = control_of(host, key, size, &mut parts.objects, log);
    parts.objects.clear_absent(key);
    let mut hex = parts.buffers.take();
    hex.fill(parts.frames.bytes(row.frame).as_slice());
    let _ = log.push(Event::Sent {
        channel: Channel::Up {
            host,
            object: key.object,
        },
        message: Message::Return {
            control,
            page: key.page,
            dirty: row.dirty,
            keep: false,
            hex,
        },
    });
}

// The number of the control of a page's object, which begins where the object has no pager.
fn control_of(host: HostId, key: PageKey, size: u32, objects: &mut Objects, log: &mut Events) -> u32
    requires there { IsSome (object_at objects.old key.object.0) }
    requires numbers { HasNumbers objects.old }
    requires room { 2 ≤ log.old.room }
    ensures number { IfSome (object_at objects.old key.object.0) (λ object. result ≡ (controlled object).control) }
    ensures objects { IfSome (object_at objects.old key.object.0) (λ object. PutsObject key.object.0 (Some (controlled object)) objects.old objects.new) }
    ensures marks { SameMarks objects.old objects.new }
    ensures rooms { SameRooms objects.old objects.new }
    ensures log { IfSome (object_at objects.old key.object.0) (λ object. log.new.items ≡ creation_events host key size object log.old.items) }
    ensures room { log.old.room ≤ log.new.room + 1 }
{
    let Some(row) = objects.find(key.object) else {
        unreachable!()
    };
    if row.state != PagerState::Without {
        return row.control;
    }
    let control = objects.begin_control(key.object);
    let _ = log.push(Event::Sent {
        channel: Channel::Up {
            host,
            object: key.object,
        },
        message: Message::Create { control, size },
    });
    control
}
