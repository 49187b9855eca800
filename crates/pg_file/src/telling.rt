// The events that tell what became of a message.
ghost use Rattle.std.specs.Prelude.{◌≡◌, ◌≤◌, [], false, IsOk, OnOk};
ghost use Rattle.pg_file.specs.Answers.{clean_request, device_failed, told_of};
ghost use Rattle.pg_file.specs.Finding.{find_events};

use crate::found::Found;
use pg_answers::{error, sent, supply};
use vm_base::{HostId, NoMemory, ObjectId, PageNo};
use vm_model::{Device, Event, Events, Message, Way};

// A lock_request wants all changed and precious pages back: MEMORY_OBJECT_RETURN_ALL.
const RETURN_ALL: u32 = 2;

// A lock_request leaves the locks as they are: VM_PROT_NO_CHANGE.
const NO_CHANGE: u32 = 8;

/// A lock_request for all changed and precious pages of so many.
pub fn clean_request(page: PageNo, count: u32, flush: bool) -> Message
    ensures { result ≡ clean_request page count flush }
{
    Message::Lock {
        page,
        count,
        returns: RETURN_ALL,
        flush,
        lock: NO_CHANGE,
        reply: true,
    }
}

fn device_failed(way: Way, object: ObjectId, page: PageNo) -> Event
    ensures { result ≡ device_failed way object.0 page }
{
    Event::DeviceFailed {
        who: Device::Files,
        way,
        object,
        page,
    }
}

/// Answers a request with what was found of the page.
pub fn tell_found(
    found: Found,
    host: HostId,
    object: ObjectId,
    control: u32,
    page: PageNo,
    events: &mut Events,
) -> Result<(), NoMemory>
    requires { events.old.items ≡ [] }
    ensures told { OnOk result (events.new.items ≡ find_events found host.0 object.0 control page) }
    ensures succeeds { 2 ≤ events.old.room → IsOk result }
{
    let reply = match found {
        Found::Page { bytes } => supply(page, bytes),
        Found::Absent => Message::Unavailable { page },
        Found::Lost => error(page),
        Found::Failed => {
            events.push(device_failed(Way::Read, object, page))?;
            error(page)
        }
    };
    events.push(sent(host, object, control, reply))
}

/// Tells whether a page that was returned is stored.
pub fn tell_stored(
    stored: bool,
    object: ObjectId,
    page: PageNo,
    events: &mut Events,
) -> Result<(), NoMemory>
    requires { events.old.items ≡ [] }
    ensures told { OnOk result (events.new.items ≡ told_of stored object.0 page) }
    ensures succeeds { 1 ≤ events.old.room → IsOk result }
{
    if stored {
        return Ok(());
    }
    events.push(device_failed(Way::Write, object, page))
}
