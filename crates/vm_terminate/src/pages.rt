// The pages of an object that ends.
ghost use Rattle.std.specs.Prelude.{◌≡◌, ◌+◌, ◌<◌, ◌≤◌, true, false, Some, [], ◌∷◌, ◌++◌, IfSome, IsOk, IsSome, IsSomeAnd, OnOk};
ghost use Rattle.vm_base.specs.declared.ids.ObjectKind.TheVariants as kind;
ghost use Rattle.vm_copies.specs.Copies.{CopyTable};
ghost use Rattle.vm_frames.specs.Frames.{page_in};
ghost use Rattle.vm_model.specs.declared.event.Event.TheVariants as event;
ghost use Rattle.vm_model.specs.declared.message.Channel.TheVariants as channel;
ghost use Rattle.vm_model.specs.declared.message.Message.TheVariants as message;
ghost use Rattle.vm_objects.specs.Objects.{PutsAbsent, SameObjects, object_at};
ghost use Rattle.vm_parts.specs.Changes.{Discards, Removes};
ghost use Rattle.vm_parts.specs.Fits.{Fit};
ghost use Rattle.vm_parts.specs.Listed.{listed_pages};
ghost use Rattle.vm_resident.specs.Resident.{row_at};
ghost use Rattle.vm_shadow.specs.Chains.{ChainTable};
ghost use Rattle.vm_terminate.specs.Finishes.{PageLeaves, PagesLeave};
ghost use Rattle.vm_terminate.specs.Steps.{AllHere, finish_state};

use vm_base::{HostId, NoMemory, ObjectId, ObjectKind, PageKey, PageNo};
use vm_model::{Channel, Event, Events, Message};
use vm_objects::{Holder, ObjectRow};
use vm_parts::HostParts;
use vm_resident::PageRow;

/// Takes the pages of an object out of the host, by rising number.
pub fn end_pages<L: Holder>(
    host: HostId,
    object: ObjectId,
    known: ObjectRow,
    parts: &mut HostParts,
    laundry: &mut L,
    log: &mut Events,
) -> Result<(), NoMemory>
    requires fit { Fit parts.old }
    requires known { object_at parts.old.objects object.0 ≡ Some known }
    requires here { AllHere parts.old.resident object.0 }
    requires room { listed_pages parts.old.queues ≤ L.room laundry.old }
    ensures leave { OnOk result ((chains : ChainTable) (copies : CopyTable) → PagesLeave host object known 0
        (finish_state parts.old chains copies (L.held laundry.old) (L.room laundry.old) log.old.items)
        (finish_state parts.new chains copies (L.held laundry.new) (L.room laundry.new) log.new.items)) }
    ensures fit { OnOk result (Fit parts.new) }
    ensures size { OnOk result (parts.new.buffers.size ≡ parts.old.buffers.size) }
    ensures log { OnOk result (log.old.room + listed_pages parts.new.queues ≤ log.new.room + listed_pages parts.old.queues) }
    ensures buffers { OnOk result (parts.old.buffers.count + listed_pages parts.new.queues ≤ parts.new.buffers.count + listed_pages parts.old.queues) }
    ensures spare { OnOk result (parts.old.resident.spare ≤ parts.new.resident.spare) }
    ensures rows { OnOk result (parts.old.objects.rows ≤ parts.new.objects.rows) }
    ensures fewer { OnOk result (listed_pages parts.new.queues ≤ listed_pages parts.old.queues) }
    ensures succeeds { listed_pages parts.old.queues ≤ log.old.room → listed_pages parts.old.queues ≤ parts.old.buffers.count → IsOk result }
    ensures dropped { known.kind ≡ kind.Temp → listed_pages parts.old.queues ≤ log.old.room → IsOk result }
    ensures saved { known.kind ≡ kind.Temp → OnOk result (parts.old.buffers.count ≤ parts.new.buffers.count) }
{
    let mut from = PageNo(0);
    'pages: while let Some(page) = parts.resident.next_page(object, from) {
        let key = PageKey { object, page };
        end_page(host, key, known, parts, laundry, log)?;
        from = PageNo(page.0 + 1);
    }
    Ok(())
}

// Drops a page that is here, or returns it to its pager.
fn end_page<L: Holder>(
    host: HostId,
    key: PageKey,
    known: ObjectRow,
    parts: &mut HostParts,
    laundry: &mut L,
    log: &mut Events,
) -> Result<(), NoMemory>
    requires fit { Fit parts.old }
    requires known { object_at parts.old.objects key.object.0 ≡ Some known }
    requires here { IsSomeAnd (row_at parts.old.resident key.object.0 key.page.0) (λ row. row.here ≡ true) }
    requires room { 0 < L.room laundry.old }
    ensures leaves { OnOk result (IfSome (row_at parts.old.resident key.object.0 key.page.0)
        (λ row. (chains : ChainTable) (copies : CopyTable) → PageLeaves host key known row
        (finish_state parts.old chains copies (L.held laundry.old) (L.room laundry.old) log.old.items)
        (finish_state parts.new chains copies (L.held laundry.new) (L.room laundry.new) log.new.items))) }
    ensures fit { OnOk result (Fit parts.new) }
    ensures size { OnOk result (parts.new.buffers.size ≡ parts.old.buffers.size) }
    ensures log { log.old.room ≤ log.new.room + 1 }
    ensures buffers { parts.old.buffers.count ≤ parts.new.buffers.count + 1 }
    ensures spare { parts.old.resident.spare ≤ parts.new.resident.spare }
    ensures rows { parts.old.objects.rows ≤ parts.new.objects.rows }
    ensures succeeds { 0 < log.old.room → 0 < parts.old.buffers.count → IsOk result }
    ensures dropped { known.kind ≡ kind.Temp → 0 < log.old.room → IsOk result }
    ensures saved { known.kind ≡ kind.Temp → OnOk result (parts.old.buffers.count ≤ parts.new.buffers.count) }
{
    let Some(row) = parts.resident.get(key) else {
        unreachable!()
    };
    log.reserve(1)?;
    if known.kind == ObjectKind::Temp || !(row.dirty || row.precious) {
        drop_page(host, key, row, parts, log);
        return Ok(());
    }
    parts.buffers.reserve(1)?;
    return_page(host, key, known.control, row, parts, laundry, log);
    Ok(())
}

// Drops a page, and says so.
fn drop_page(host: HostId, key: PageKey, row: PageRow, parts: &mut HostParts, log: &mut Events)
    requires fit { Fit parts.old }
    requires found { row_at parts.old.resident key.object.0 key.page.0 ≡ Some row }
    requires here { row.here ≡ true }
    requires room { 0 < log.old.room }
    ensures fit { Fit parts.new }
    ensures discards { Discards key row parts.old parts.new }
    ensures objects { parts.new.objects ≡ parts.old.objects }
    ensures buffers { parts.new.buffers ≡ parts.old.buffers }
    ensures spare { parts.old.resident.spare ≤ parts.new.resident.spare }
    ensures log { log.new.items ≡ event.Dropped host key.object key.page ∷ log.old.items }
    ensures less { log.old.room ≤ log.new.room + 1 }
{
    parts.discard(key);
    let _ = log.push(Event::Dropped {
        host,
        object: key.object,
        page: key.page,
    });
}

// Returns a page to its pager, which has it then, without kernel copy; its frame is held until the
// pager takes the message.
fn return_page<L: Holder>(
    host: HostId,
    key: PageKey,
    control: u32,
    row: PageRow,
    parts: &mut HostParts,
    laundry: &mut L,
    log: &mut Events,
)
    requires fit { Fit parts.old }
    requires found { row_at parts.old.resident key.object.0 key.page.0 ≡ Some row }
    requires here { row.here ≡ true }
    requires known { IsSome (object_at parts.old.objects key.object.0) }
    requires hold { 0 < L.room laundry.old }
    requires buffers { 0 < parts.old.buffers.count }
    requires room { 0 < log.old.room }
    ensures fit { Fit parts.new }
    ensures removes { Removes key row parts.old parts.new }
    ensures objects { SameObjects parts.old.objects parts.new.objects }
    ensures present { PutsAbsent key.object.0 key.page.0 false parts.old.objects parts.new.objects }
    ensures size { parts.new.buffers.size ≡ parts.old.buffers.size }
    ensures count { parts.old.buffers.count ≡ parts.new.buffers.count + 1 }
    ensures spare { parts.old.resident.spare ≤ parts.new.resident.spare }
    ensures rows { parts.old.objects.rows ≤ parts.new.objects.rows }
    ensures held { L.held laundry.new ≡ L.held laundry.old ++ row.frame ∷ [] }
    ensures left { L.room laundry.new + 1 ≡ L.room laundry.old }
    ensures log { log.new.items ≡ event.Sent (channel.Up host key.object)
        (message.Return control key.page row.dirty false (page_in parts.old.frames row.frame.0)) ∷ log.old.items }
    ensures less { log.old.room ≤ log.new.room + 1 }
{
    let _ = parts.remove(key);
    parts.objects.clear_absent(key);
    let mut hex = parts.buffers.take();
    hex.fill(parts.frames.bytes(row.frame).as_slice());
    laundry.hold(row.frame);
    let _ = log.push(Event::Sent {
        channel: Channel::Up {
            host,
            object: key.object,
        },
        message: Message::Return {
            control,
            page: key.page,
            dirty: row.dirty,
            keep: false,
            hex,
        },
    });
}
