// A lock request is done.
ghost use Rattle.std.specs.Prelude.{ℕ, ◌≡◌, ◌+◌, ◌<◌, ◌≤◌, List, length, IsOk, OnOk};
ghost use Rattle.vm_base.specs.declared.ids.FrameNo.{FrameNo};
ghost use Rattle.vm_parts.specs.Fits.{Fit};
ghost use Rattle.vm_parts.specs.Listed.{listed_pages};
ghost use Rattle.vm_locks.specs.Obeys.{CanLock, Obeys, Replies, lock_state};
ghost use Rattle.vm_locks.specs.Rooms.{LeavesRoom};

use crate::pages::lock_pages;
use crate::request::{LockRequest, request_in};
use vm_base::{HostId, NoMemory, ObjectId};
use vm_model::{Channel, Event, Events, Message};
use vm_objects::Holder;
use vm_parts::HostParts;

/// Does on a host what a lock request asks, which was taken for the live control of an object.
///
/// The message is memory_object_lock_request of "Mach 3 Kernel Interfaces". Of the pages of its range
/// those obey that are here, by rising number: each as the table of its case says. A page that is
/// asked is left alone. Where a reply is wanted memory_object_lock_completed is sent behind the returns.
/// It fails for want of memory alone; what was done by then was told.
pub fn lock<L: Holder>(
    host: HostId,
    object: ObjectId,
    message: &Message,
    parts: &mut HostParts,
    laundry: &mut L,
    log: &mut Events,
) -> Result<(), NoMemory>
    requires { CanLock (lock_state parts.old (L.held laundry.old) (L.room laundry.old) log.old.items) object.0 message.now }
    ensures obeyed { OnOk result (Obeys host object message.now
        (lock_state parts.old (L.held laundry.old) (L.room laundry.old) log.old.items)
        (lock_state parts.new (L.held laundry.new) (L.room laundry.new) log.new.items)) }
    ensures fit { OnOk result (Fit parts.new) }
    ensures size { OnOk result (parts.new.buffers.size ≡ parts.old.buffers.size) }
    ensures rooms { OnOk result (LeavesRoom parts.old parts.new log.old.room log.new.room) }
    ensures succeeds { listed_pages parts.old.queues + 1 ≤ log.old.room → listed_pages parts.old.queues ≤ parts.old.buffers.count → IsOk result }
    ensures told { OnOk result (length log.new.items ≤ length log.old.items + listed_pages parts.old.queues + 1) }
{
    let Some(known) = parts.objects.find(object) else {
        unreachable!()
    };
    let request = request_in(message);
    lock_pages(host, object, known, request, parts, laundry, log)?;
    reply(host, object, known.control, request, log)?;
    Ok(())
}

// Tells the pager that all is done, where it asked for that.
fn reply(
    host: HostId,
    object: ObjectId,
    control: u32,
    request: LockRequest,
    log: &mut Events,
) -> Result<(), NoMemory>
    ensures replies { OnOk result ((parts : HostParts) (held : List FrameNo) (room : ℕ) → Replies host object control request
        (lock_state parts held room log.old.items) (lock_state parts held room log.new.items)) }
    ensures room { log.old.room ≤ log.new.room + 1 }
    ensures succeeds { 0 < log.old.room → IsOk result }
{
    if !request.reply {
        return Ok(());
    }
    log.push(Event::Sent {
        channel: Channel::Up { host, object },
        message: Message::Completed {
            control,
            page: request.page,
            count: request.count,
        },
    })
}
