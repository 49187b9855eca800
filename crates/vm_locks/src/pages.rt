// The pages of a lock request's range.
ghost use Rattle.std.specs.Prelude.{◌≡◌, ◌+◌, ◌<◌, ◌≤◌, true, false, Some, length, [], ◌∷◌, ◌++◌, IsOk, IsSome, MatchOption, OnOk};
ghost use Rattle.vm_frames.specs.Frames.{is_claimed, page_in};
ghost use Rattle.vm_model.specs.declared.event.Event.TheVariants as event;
ghost use Rattle.vm_model.specs.declared.message.Channel.TheVariants as channel;
ghost use Rattle.vm_model.specs.declared.message.Message.TheVariants as message;
ghost use Rattle.vm_objects.specs.Objects.{PutsAbsent, SameObjects, object_at};
ghost use Rattle.vm_parts.specs.Changes.{Discards, Relocks, Removes, relocked};
ghost use Rattle.vm_parts.specs.Fits.{Fit, object_pages};
ghost use Rattle.vm_parts.specs.Listed.{listed_pages};
ghost use Rattle.vm_resident.specs.Resident.{row_at};
ghost use Rattle.vm_locks.specs.Obeys.{PageObeys, PagesObey, lock_state};
ghost use Rattle.vm_locks.specs.Passing.{IsNextFor, LeavesRest};

use crate::request::LockRequest;
use vm_base::{HostId, Lock, NoMemory, ObjectId, PageKey, PageNo};
use vm_model::{Channel, Event, Events, Message};
use vm_objects::{Holder, ObjectRow};
use vm_parts::HostParts;
use vm_resident::{PageRow, Resident};
use vm_tables::{LockCase, lock_act};

/// The pages of the range that are here obey, by rising number.
pub fn lock_pages<L: Holder>(
    host: HostId,
    object: ObjectId,
    known: ObjectRow,
    request: LockRequest,
    parts: &mut HostParts,
    laundry: &mut L,
    log: &mut Events,
) -> Result<(), NoMemory>
    requires fit { Fit parts.old }
    requires known { object_at parts.old.objects object.0 ≡ Some known }
    requires room { listed_pages parts.old.queues ≤ L.room laundry.old }
    ensures obey { OnOk result (PagesObey host object known.control request request.page.0
        (lock_state parts.old (L.held laundry.old) (L.room laundry.old) log.old.items)
        (lock_state parts.new (L.held laundry.new) (L.room laundry.new) log.new.items)) }
    ensures fit { OnOk result (Fit parts.new) }
    ensures size { OnOk result (parts.new.buffers.size ≡ parts.old.buffers.size) }
    ensures log { OnOk result (log.old.room ≤ log.new.room + listed_pages parts.old.queues) }
    ensures buffers { OnOk result (parts.old.buffers.count ≤ parts.new.buffers.count + listed_pages parts.old.queues) }
    ensures spare { OnOk result (parts.old.resident.spare ≤ parts.new.resident.spare) }
    ensures rows { OnOk result (parts.old.objects.rows ≤ parts.new.objects.rows) }
    ensures succeeds { listed_pages parts.old.queues ≤ log.old.room → listed_pages parts.old.queues ≤ parts.old.buffers.count → IsOk result }
    ensures told { OnOk result (length log.new.items ≤ length log.old.items + listed_pages parts.old.queues) }
{
    let mut from = request.page;
    'pages: while let Some(page) = next_page(&parts.resident, object, request, from) {
        let key = PageKey { object, page };
        let Some(row) = parts.resident.get(key) else {
            unreachable!()
        };
        if row.here {
            lock_page(host, key, known.control, request, row, parts, laundry, log)?;
        }
        from = PageNo(page.0 + 1);
    }
    Ok(())
}

// The first page of the range, from one on, that a request may change.
fn next_page(
    resident: &Resident,
    object: ObjectId,
    request: LockRequest,
    from: PageNo,
) -> Option<PageNo>
    requires { request.page.0 ≤ from.0 }
    ensures { MatchOption result (LeavesRest request resident.now object.0 from.0)
        (λ page. IsNextFor request resident.now object.0 from.0 page.0) }
{
    if from.0 - request.page.0 >= request.count {
        return None;
    }
    let page = if request.flush || request.lock.is_some() {
        resident.next_page(object, from)?
    } else {
        resident.next_noted(object, from)?
    };
    if page.0 - request.page.0 >= request.count {
        return None;
    }
    Some(page)
}

// A page that is here obeys.
fn lock_page<L: Holder>(
    host: HostId,
    key: PageKey,
    control: u32,
    request: LockRequest,
    row: PageRow,
    parts: &mut HostParts,
    laundry: &mut L,
    log: &mut Events,
) -> Result<(), NoMemory>
    requires fit { Fit parts.old }
    requires known { IsSome (object_at parts.old.objects key.object.0) }
    requires found { row_at parts.old.resident key.object.0 key.page.0 ≡ Some row }
    requires here { row.here ≡ true }
    requires room { 0 < L.room laundry.old }
    ensures obeys { OnOk result (PageObeys host key control request row
        (lock_state parts.old (L.held laundry.old) (L.room laundry.old) log.old.items)
        (lock_state parts.new (L.held laundry.new) (L.room laundry.new) log.new.items)) }
    ensures fit { OnOk result (Fit parts.new) }
    ensures size { OnOk result (parts.new.buffers.size ≡ parts.old.buffers.size) }
    ensures log { log.old.room ≤ log.new.room + 1 }
    ensures buffers { parts.old.buffers.count ≤ parts.new.buffers.count + 1 }
    ensures spare { parts.old.resident.spare ≤ parts.new.resident.spare }
    ensures rows { parts.old.objects.rows ≤ parts.new.objects.rows }
    ensures succeeds { 0 < log.old.room → 0 < parts.old.buffers.count → IsOk result }
{
    let act = lock_act(LockCase {
        returns: request.returns,
        flush: request.flush,
        dirty: row.dirty,
        precious: row.precious,
    });
    log.reserve(1)?;
    if act.give_back {
        parts.buffers.reserve(1)?;
    }
    match (act.give_back, act.remove) {
        (false, false) => keep_page(key, row, request.lock, parts),
        (false, true) => drop_page(host, key, row, parts, log),
        (true, false) => save_page(host, key, control, row, request.lock, parts, log),
        (true, true) => return_page(host, key, control, row, parts, laundry, log),
    }
    Ok(())
}

// Locks a page that stays.
fn keep_page(key: PageKey, row: PageRow, lock: Option<Lock>, parts: &mut HostParts)
    requires fit { Fit parts.old }
    requires found { row_at parts.old.resident key.object.0 key.page.0 ≡ Some row }
    requires here { row.here ≡ true }
    ensures fit { Fit parts.new }
    ensures relocks { Relocks key row lock false parts.old parts.new }
    ensures objects { parts.new.objects ≡ parts.old.objects }
    ensures buffers { parts.new.buffers ≡ parts.old.buffers }
    ensures spare { parts.new.resident.spare ≡ parts.old.resident.spare }
{
    if keeps_lock(row, lock) {
        return;
    }
    parts.relock(key, lock, false);
}

// Whether a page that stays has its lock already, and no unlock of it is outstanding.
fn keeps_lock(row: PageRow, lock: Option<Lock>) -> bool
    ensures { result ≡ true → relocked lock false row ≡ row }
{
    match lock {
        Some(lock) => lock == row.lock && !row.unlock_sent,
        None => !row.unlock_sent,
    }
}

// Drops a page, and says so.
fn drop_page(host: HostId, key: PageKey, row: PageRow, parts: &mut HostParts, log: &mut Events)
    requires fit { Fit parts.old }
    requires found { row_at parts.old.resident key.object.0 key.page.0 ≡ Some row }
    requires here { row.here ≡ true }
    requires room { 0 < log.old.room }
    ensures fit { Fit parts.new }
    ensures discards { Discards key row parts.old parts.new }
    ensures objects { parts.new.objects ≡ parts.old.objects }
    ensures buffers { parts.new.buffers ≡ parts.old.buffers }
    ensures spare { parts.old.resident.spare ≤ parts.new.resident.spare }
    ensures log { log.new.items ≡ event.Dropped host key.object key.page ∷ log.old.items }
    ensures less { log.old.room ≤ log.new.room + 1 }
{
    parts.discard(key);
    let _ = log.push(Event::Dropped {
        host,
        object: key.object,
        page: key.page,
    });
}

// Returns a page to its pager, without kernel copy; its frame is held until the pager takes the
// message.
fn return_page<L: Holder>(
    host: HostId,
    key: PageKey,
    control: u32,
    row: PageRow,
    parts: &mut HostParts,
    laundry: &mut L,
    log: &mut Events,
)
    requires fit { Fit parts.old }
    requires found { row_at parts.old.resident key.object.0 key.page.0 ≡ Some row }
    requires here { row.here ≡ true }
    requires known { IsSome (object_at parts.old.objects key.object.0) }
    requires hold { 0 < L.room laundry.old }
    requires buffers { 0 < parts.old.buffers.count }
    requires room { 0 < log.old.room }
    ensures fit { Fit parts.new }
    ensures removes { Removes key row parts.old parts.new }
    ensures objects { SameObjects parts.old.objects parts.new.objects }
    ensures present { PutsAbsent key.object.0 key.page.0 false parts.old.objects parts.new.objects }
    ensures size { parts.new.buffers.size ≡ parts.old.buffers.size }
    ensures count { parts.old.buffers.count ≡ parts.new.buffers.count + 1 }
    ensures spare { parts.old.resident.spare ≤ parts.new.resident.spare }
    ensures rows { parts.old.objects.rows ≤ parts.new.objects.rows }
    ensures held { L.held laundry.new ≡ L.held laundry.old ++ row.frame ∷ [] }
    ensures left { L.room laundry.new + 1 ≡ L.room laundry.old }
    ensures log { log.new.items ≡ event.Sent (channel.Up host key.object)
        (message.Return control key.page row.dirty false (page_in parts.old.frames row.frame.0)) ∷ log.old.items }
    ensures less { log.old.room ≤ log.new.room + 1 }
{
    let _ = parts.remove(key);
    send_page(host, key, control, row, false, parts, log);
    laundry.hold(row.frame);
}

// Returns a page to its pager, with kernel copy, and locks the copy.
fn save_page(
    host: HostId,
    key: PageKey,
    control: u32,
    row: PageRow,
    lock: Option<Lock>,
    parts: &mut HostParts,
    log: &mut Events,
)
    requires fit { Fit parts.old }
    requires found { row_at parts.old.resident key.object.0 key.page.0 ≡ Some row }
    requires here { row.here ≡ true }
    requires known { IsSome (object_at parts.old.objects key.object.0) }
    requires buffers { 0 < parts.old.buffers.count }
    requires room { 0 < log.old.room }
    ensures fit { Fit parts.new }
    ensures relocks { Relocks key row lock true parts.old parts.new }
    ensures objects { SameObjects parts.old.objects parts.new.objects }
    ensures present { PutsAbsent key.object.0 key.page.0 false parts.old.objects parts.new.objects }
    ensures size { parts.new.buffers.size ≡ parts.old.buffers.size }
    ensures count { parts.old.buffers.count ≡ parts.new.buffers.count + 1 }
    ensures spare { parts.old.resident.spare ≤ parts.new.resident.spare }
    ensures rows { parts.old.objects.rows ≤ parts.new.objects.rows }
    ensures log { log.new.items ≡ event.Sent (channel.Up host key.object)
        (message.Return control key.page row.dirty true (page_in parts.old.frames row.frame.0)) ∷ log.old.items }
    ensures less { log.old.room ≤ log.new.room + 1 }
{
    parts.relock(key, lock, true);
    send_page(host, key, control, row, true, parts, log);
}

// Sends the pager of a page what the page's frame has, and says whether a copy stays.
fn send_page(
    host: HostId,
    key: PageKey,
    control: u32,
    row: PageRow,
    keep: bool,
    parts: &mut HostParts,
    log: &mut Events,
)
    requires fit { Fit parts.old }
    requires known { IsSome (object_at parts.old.objects key.object.0) }
    requires inside { key.page.0 < object_pages parts.old.objects key.object.0 }
    requires claimed { is_claimed parts.old.frames row.frame.0 ≡ true }
    requires buffers { 0 < parts.old.buffers.count }
    requires room { 0 < log.old.room }
    ensures is { parts.new ≡ record parts.old { objects = parts.new.objects; buffers = parts.new.buffers } }
    ensures fit { Fit parts.new }
    ensures objects { SameObjects parts.old.objects parts.new.objects }
    ensures present { PutsAbsent key.object.0 key.page.0 false parts.old.objects parts.new.objects }
    ensures size { parts.new.buffers.size ≡ parts.old.buffers.size }
    ensures count { parts.old.buffers.count ≡ parts.new.buffers.count + 1 }
    ensures rows { parts.old.objects.rows ≤ parts.new.objects.rows }
    ensures log { log.new.items ≡ event.Sent (channel.Up host key.object)
        (message.Return control key.page row.dirty keep (page_in parts.old.frames row.frame.0)) ∷ log.old.items }
    ensures less { log.old.room ≤ log.new.room + 1 }
{
    parts.objects.clear_absent(key);
    let mut hex = parts.buffers.take();
    hex.fill(parts.frames.bytes(row.frame).as_slice());
    let _ = log.push(Event::Sent {
        channel: Channel::Up {
            host,
            object: key.object,
        },
        message: Message::Return {
            control,
            page: key.page,
            dirty: row.dirty,
            keep,
            hex,
        },
    });
}
