// The events that tell what the slots gave.
ghost use Rattle.std.specs.Prelude.{◌≡◌, ◌≤◌, [], IsOk, OnOk};
ghost use Rattle.pg_default.specs.Answers.{device_failed, told_of};
ghost use Rattle.pg_default.specs.Telling.{get_answer_events};

use pg_answers::{error, sent, supply};
use pg_slots::{Got, Put};
use vm_base::{HostId, NoMemory, ObjectId, PageNo};
use vm_model::{Device, Event, Events, Message, Way};

fn device_failed(way: Way, object: ObjectId, page: PageNo) -> Event
    ensures { result ≡ device_failed way object page }
{
    Event::DeviceFailed {
        who: Device::Paging,
        way,
        object,
        page,
    }
}

/// Answers a request with what the slots gave.
pub fn tell_got(
    got: Got,
    host: HostId,
    object: ObjectId,
    control: u32,
    page: PageNo,
    events: &mut Events,
) -> Result<(), NoMemory>
    requires { events.old.items ≡ [] }
    ensures told { OnOk result (events.new.items ≡ get_answer_events got host.0 object control page) }
    ensures succeeds { 2 ≤ events.old.room → IsOk result }
{
    let reply = match got {
        Got::Page { bytes } => supply(page, bytes),
        Got::Never => Message::Unavailable { page },
        Got::Lost => error(page),
        Got::Failed => {
            events.push(device_failed(Way::Read, object, page))?;
            error(page)
        }
    };
    events.push(sent(host, object, control, reply))
}

/// Tells what became of a page that was put.
pub fn tell_put(
    put: Put,
    object: ObjectId,
    page: PageNo,
    events: &mut Events,
) -> Result<(), NoMemory>
    requires { events.old.items ≡ [] }
    ensures told { OnOk result (events.new.items ≡ told_of put object page) }
    ensures succeeds { 1 ≤ events.old.room → IsOk result }
{
    match put {
        Put::Kept => Ok(()),
        Put::NoSlot => events.push(Event::NoSlot { object, page }),
        Put::Failed => events.push(device_failed(Way::Write, object, page)),
    }
}
