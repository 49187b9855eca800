// The line of an event.
#![tactic(auto, unfolding(vm_model::specs::Text::line_of))]

ghost use Rattle.std.specs.Prelude.{◌≡◌, ◌⊎◌, ◌≤◌, ◌++◌, length, codes, IfOk, OnOk};
ghost use Rattle.vm_model.specs.Text.{line_of, channel_text as text_of_channel, message_text as text_of_message, device_text, way_text, newline};
ghost use Rattle.vm_model.specs.Kinds.{Accesses, Beginnings, Entries, Pages, Regions, Shadows, about};

use crate::Line;
use crate::fields::{inherit_number, prot_number};
use crate::messages::put_message;
use std::alloc::Global;
use vm_base::{Code, HostId, Inherit, NoMemory, ObjectId, PageNo, Prot, RegionId, TaskId};
use vm_model::{Channel, Device, Event, Message, Way};

// Most lines of a history are shorter, line end and all.
const USUAL_BYTES: usize = 64;

/// The line that the event has in the text of a history; it fails for want of memory alone.
#[tactic(auto)]
pub fn write_event(alloc: Global, event: &Event) -> Result<Line, NoMemory>
    ensures { IfOk result (λ line. line ≡ line_of event.now) }
{
    let mut line = Line::with_room(alloc, USUAL_BYTES)?;
    put_event(&mut line, event)?;
    Ok(line)
}

/// Puts the line that the event has behind the text; it fails for want of memory alone.
#[tactic(auto)]
pub fn put_event(text: &mut Line, event: &Event) -> Result<(), NoMemory>
    ensures { OnOk result (text.new ≡ text.old ++ line_of event.now) }
{
    match event {
        Event::Line { line: number } => line_begun(text, *number),
        Event::Refused { code } => refused(text, *code),
        Event::TaskMade { task, host } => task_made(text, *task, *host),
        Event::TaskEnded { task } => task_ended(text, *task),
        Event::Sent { channel, message } => sent(text, *channel, message),
        Event::Taken { channel, message } => taken(text, *channel, message),
        Event::DeviceFailed {
            who,
            way,
            object,
            page,
        } => device_failed(text, *who, *way, *object, *page),
        Event::NoSlot { object, page } => no_slot(text, *object, *page),
        Event::Wired { host, count } => wired(text, *host, *count),
        Event::RegionMade { .. }
        | Event::RegionCopied { .. }
        | Event::Delayed { .. }
        | Event::Shadowed { .. }
        | Event::Unmarked { .. } => region_event(text, event),
        Event::Merged { upper, lower } => merged(text, *upper, *lower),
        Event::Entered { .. }
        | Event::Removed { .. }
        | Event::Protected { .. }
        | Event::Inherited { .. } => entry_event(text, event),
        Event::BegunLoad { .. } | Event::BegunStore { .. } | Event::BegunCopy { .. } => begun_event(
            text, event,
        ),
        Event::Loaded { .. }
        | Event::Stored { .. }
        | Event::CopiedPage { .. }
        | Event::CopyEnded { .. }
        | Event::Failed { .. } => access_event(text, event),
        Event::Dropped { .. } | Event::Zeroed { .. } | Event::Raised { .. } => page_event(
            text, event,
        ),
    }
}

// What happens to regions.
#[tactic(auto)]
fn region_event(text: &mut Line, event: &Event) -> Result<(), NoMemory>
    requires { (about event.now ≡ Regions) ⊎ (about event.now ≡ Shadows) }
    ensures { OnOk result (text.new ≡ text.old ++ line_of event.now) }
{
    match event {
        Event::RegionMade {
            region,
            object,
            pages,
        } => region_made(text, *region, *object, *pages),
        Event::RegionCopied {
            region,
            source,
            offset,
            pages,
        } => region_copied(text, *region, *source, *offset, *pages),
        Event::Delayed {
            region,
            source,
            offset,
            pages,
            copy,
        } => delayed(text, *region, *source, *offset, *pages, *copy),
        Event::Shadowed { region, new, old } => shadowed(text, *region, *new, *old),
        Event::Unmarked { region } => unmarked(text, *region),
        _ => unreachable!(),
    }
}

// What happens to the entries of a task.
#[tactic(auto)]
fn entry_event(text: &mut Line, event: &Event) -> Result<(), NoMemory>
    requires { about event.now ≡ Entries }
    ensures { OnOk result (text.new ≡ text.old ++ line_of event.now) }
{
    match event {
        Event::Entered {
            task,
            address,
            bytes,
            region,
            offset,
            prot,
            inherit,
        } => entered(
            text, *task, *address, *bytes, *region, *offset, *prot, *inherit,
        ),
        Event::Removed {
            task,
            address,
            bytes,
        } => removed(text, *task, *address, *bytes),
        Event::Protected {
            task,
            address,
            bytes,
            prot,
        } => protected(text, *task, *address, *bytes, *prot),
        Event::Inherited {
            task,
            address,
            bytes,
            inherit,
        } => inherited(text, *task, *address, *bytes, *inherit),
        _ => unreachable!(),
    }
}

// An access of a task begins.
#[tactic(auto)]
fn begun_event(text: &mut Line, event: &Event) -> Result<(), NoMemory>
    requires { about event.now ≡ Beginnings }
    ensures { OnOk result (text.new ≡ text.old ++ line_of event.now) }
{
    match event {
        Event::BegunLoad {
            task,
            address,
            size,
        } => begun_load(text, *task, *address, *size),
        Event::BegunStore {
            task,
            address,
            size,
            value,
        } => begun_store(text, *task, *address, *size, *value),
        Event::BegunCopy {
            task,
            address,
            bytes,
            to,
        } => begun_copy(text, *task, *address, *bytes, *to),
        _ => unreachable!(),
    }
}

// An access gets on, or ends.
#[tactic(auto)]
fn access_event(text: &mut Line, event: &Event) -> Result<(), NoMemory>
    requires { about event.now ≡ Accesses }
    ensures { OnOk result (text.new ≡ text.old ++ line_of event.now) }
{
    match event {
        Event::Loaded {
            task,
            object,
            page,
            value,
        } => loaded(text, *task, *object, *page, *value),
        Event::Stored {
            task,
            object,
            page,
            at,
            size,
            value,
        } => stored(text, *task, *object, *page, *at, *size, *value),
        Event::CopiedPage {
            task,
            page,
            object,
            object_page,
            target,
        } => copied_page(text, *task, *page, *object, *object_page, *target),
        Event::CopyEnded { task } => copy_ended(text, *task),
        Event::Failed { task, object, page } => failed(text, *task, *object, *page),
        _ => unreachable!(),
    }
}

// What happens to the pages of a host.
#[tactic(auto)]
fn page_event(text: &mut Line, event: &Event) -> Result<(), NoMemory>
    requires { about event.now ≡ Pages }
    ensures { OnOk result (text.new ≡ text.old ++ line_of event.now) }
{
    match event {
        Event::Dropped { host, object, page } => dropped(text, *host, *object, *page),
        Event::Zeroed { host, object, page } => zeroed(text, *host, *object, *page),
        Event::Raised {
            host,
            lower,
            lower_page,
            upper,
            upper_page,
        } => raised(text, *host, *lower, *lower_page, *upper, *upper_page),
        _ => unreachable!(),
    }
}

fn line_begun(text: &mut Line, number: u32) -> Result<(), NoMemory>
    ensures { OnOk result (text.new ≡ text.old ++ line_of (Event.Line number)) }
{
    text.put_line(b"line", &[u64::from(number)])
}

fn refused(text: &mut Line, code: Code) -> Result<(), NoMemory>
    ensures { OnOk result (text.new ≡ text.old ++ line_of (Event.Refused code)) }
{
    text.put_line(b"refused", &[u64::from(code.number())])
}

fn task_made(text: &mut Line, task: TaskId, host: HostId) -> Result<(), NoMemory>
    ensures { OnOk result (text.new ≡ text.old ++ line_of (Event.TaskMade task host)) }
{
    text.put_line(b"made", &[u64::from(task.0), u64::from(host.0)])
}

fn task_ended(text: &mut Line, task: TaskId) -> Result<(), NoMemory>
    ensures { OnOk result (text.new ≡ text.old ++ line_of (Event.TaskEnded task)) }
{
    text.put_line(b"ended", &[u64::from(task.0)])
}

fn region_made(
    text: &mut Line,
    region: RegionId,
    object: ObjectId,
    pages: u32,
) -> Result<(), NoMemory>
    ensures { OnOk result (text.new ≡ text.old ++ line_of (Event.RegionMade region object pages)) }
{
    text.put_line(
        b"region",
        &[u64::from(region.0), u64::from(object.0), u64::from(pages)],
    )
}

fn region_copied(
    text: &mut Line,
    region: RegionId,
    source: RegionId,
    offset: u32,
    pages: u32,
) -> Result<(), NoMemory>
    ensures { OnOk result (text.new ≡ text.old ++ line_of (Event.RegionCopied region source offset pages)) }
{
    text.put_line(
        b"cow",
        &[
            u64::from(region.0),
            u64::from(source.0),
            u64::from(offset),
            u64::from(pages),
        ],
    )
}

fn delayed(
    text: &mut Line,
    region: RegionId,
    source: RegionId,
    offset: u32,
    pages: u32,
    copy: ObjectId,
) -> Result<(), NoMemory>
    ensures { OnOk result (text.new ≡ text.old ++ line_of (Event.Delayed region source offset pages copy)) }
{
    text.put_line(
        b"delayed",
        &[
            u64::from(region.0),
            u64::from(source.0),
            u64::from(offset),
            u64::from(pages),
            u64::from(copy.0),
        ],
    )
}

fn entered(
    text: &mut Line,
    task: TaskId,
    address: u64,
    bytes: u64,
    region: RegionId,
    offset: u32,
    prot: Prot,
    inherit: Inherit,
) -> Result<(), NoMemory>
    ensures { OnOk result (text.new ≡ text.old ++ line_of (Event.Entered task address bytes region offset prot inherit)) }
{
    text.put_line(
        b"entered",
        &[
            u64::from(task.0),
            address,
            bytes,
            u64::from(region.0),
            u64::from(offset),
            prot_number(prot),
            inherit_number(inherit),
        ],
    )
}

fn removed(text: &mut Line, task: TaskId, address: u64, bytes: u64) -> Result<(), NoMemory>
    ensures { OnOk result (text.new ≡ text.old ++ line_of (Event.Removed task address bytes)) }
{
    text.put_line(b"removed", &[u64::from(task.0), address, bytes])
}

fn protected(
    text: &mut Line,
    task: TaskId,
    address: u64,
    bytes: u64,
    prot: Prot,
) -> Result<(), NoMemory>
    ensures { OnOk result (text.new ≡ text.old ++ line_of (Event.Protected task address bytes prot)) }
{
    text.put_line(
        b"protected",
        &[u64::from(task.0), address, bytes, prot_number(prot)],
    )
}

fn inherited(
    text: &mut Line,
    task: TaskId,
    address: u64,
    bytes: u64,
    inherit: Inherit,
) -> Result<(), NoMemory>
    ensures { OnOk result (text.new ≡ text.old ++ line_of (Event.Inherited task address bytes inherit)) }
{
    text.put_line(
        b"inherited",
        &[u64::from(task.0), address, bytes, inherit_number(inherit)],
    )
}

fn begun_load(text: &mut Line, task: TaskId, address: u64, size: u32) -> Result<(), NoMemory>
    ensures { OnOk result (text.new ≡ text.old ++ line_of (Event.BegunLoad task address size)) }
{
    text.put_text(b"begun", &[u64::from(task.0)])?;
    text.put_line(b" load", &[address, u64::from(size)])
}

fn begun_store(
    text: &mut Line,
    task: TaskId,
    address: u64,
    size: u32,
    value: u64,
) -> Result<(), NoMemory>
    ensures { OnOk result (text.new ≡ text.old ++ line_of (Event.BegunStore task address size value)) }
{
    text.put_text(b"begun", &[u64::from(task.0)])?;
    text.put_line(b" store", &[address, u64::from(size), value])
}

fn begun_copy(
    text: &mut Line,
    task: TaskId,
    address: u64,
    bytes: u64,
    to: u64,
) -> Result<(), NoMemory>
    ensures { OnOk result (text.new ≡ text.old ++ line_of (Event.BegunCopy task address bytes to)) }
{
    text.put_text(b"begun", &[u64::from(task.0)])?;
    text.put_line(b" copy", &[address, bytes, to])
}

fn loaded(
    text: &mut Line,
    task: TaskId,
    object: ObjectId,
    page: PageNo,
    value: u64,
) -> Result<(), NoMemory>
    ensures { OnOk result (text.new ≡ text.old ++ line_of (Event.Loaded task object page value)) }
{
    text.put_line(
        b"loaded",
        &[
            u64::from(task.0),
            u64::from(object.0),
            u64::from(page.0),
            value,
        ],
    )
}

fn stored(
    text: &mut Line,
    task: TaskId,
    object: ObjectId,
    page: PageNo,
    at: u32,
    size: u32,
    value: u64,
) -> Result<(), NoMemory>
    ensures { OnOk result (text.new ≡ text.old ++ line_of (Event.Stored task object page at size value)) }
{
    text.put_text(
        b"stored",
        &[
            u64::from(task.0),
            u64::from(object.0),
            u64::from(page.0),
            u64::from(at),
        ],
    )?;
    text.put_word(b" ")?;
    text.put_little_endian(size, value)?;
    text.end()
}

fn copied_page(
    text: &mut Line,
    task: TaskId,
    page: PageNo,
    object: ObjectId,
    object_page: PageNo,
    target: ObjectId,
) -> Result<(), NoMemory>
    ensures { OnOk result (text.new ≡ text.old ++ line_of (Event.CopiedPage task page object object_page target)) }
{
    text.put_line(
        b"copied",
        &[
            u64::from(task.0),
            u64::from(page.0),
            u64::from(object.0),
            u64::from(object_page.0),
            u64::from(target.0),
        ],
    )
}

fn copy_ended(text: &mut Line, task: TaskId) -> Result<(), NoMemory>
    ensures { OnOk result (text.new ≡ text.old ++ line_of (Event.CopyEnded task)) }
{
    text.put_line(b"copyend", &[u64::from(task.0)])
}

fn failed(text: &mut Line, task: TaskId, object: ObjectId, page: PageNo) -> Result<(), NoMemory>
    ensures { OnOk result (text.new ≡ text.old ++ line_of (Event.Failed task object page)) }
{
    text.put_line(
        b"failed",
        &[u64::from(task.0), u64::from(object.0), u64::from(page.0)],
    )
}

fn sent(text: &mut Line, channel: Channel, message: &Message) -> Result<(), NoMemory>
    ensures { OnOk result (text.new ≡ text.old ++ line_of (Event.Sent channel message.now)) }
{
    message_line(text, b"sent ", channel, message)
}

fn taken(text: &mut Line, channel: Channel, message: &Message) -> Result<(), NoMemory>
    ensures { OnOk result (text.new ≡ text.old ++ line_of (Event.Taken channel message.now)) }
{
    message_line(text, b"taken ", channel, message)
}

#[inline(always)]
#[tactic(auto)]
fn message_line(
    text: &mut Line,
    word: &[u8],
    channel: Channel,
    message: &Message,
) -> Result<(), NoMemory>
    requires { length word.now ≤ 16 }
    ensures { OnOk result (text.new ≡ text.old ++ (word.now ++ text_of_channel channel ++ codes " " ++ text_of_message message.now ++ newline)) }
{
    text.put_channel(word, channel)?;
    put_message(text, message)?;
    text.end()
}

fn dropped(text: &mut Line, host: HostId, object: ObjectId, page: PageNo) -> Result<(), NoMemory>
    ensures { OnOk result (text.new ≡ text.old ++ line_of (Event.Dropped host object page)) }
{
    text.put_line(
        b"dropped",
        &[u64::from(host.0), u64::from(object.0), u64::from(page.0)],
    )
}

fn zeroed(text: &mut Line, host: HostId, object: ObjectId, page: PageNo) -> Result<(), NoMemory>
    ensures { OnOk result (text.new ≡ text.old ++ line_of (Event.Zeroed host object page)) }
{
    text.put_line(
        b"zeroed",
        &[u64::from(host.0), u64::from(object.0), u64::from(page.0)],
    )
}

fn raised(
    text: &mut Line,
    host: HostId,
    lower: ObjectId,
    lower_page: PageNo,
    upper: ObjectId,
    upper_page: PageNo,
) -> Result<(), NoMemory>
    ensures { OnOk result (text.new ≡ text.old ++ line_of (Event.Raised host lower lower_page upper upper_page)) }
{
    text.put_line(
        b"raised",
        &[
            u64::from(host.0),
            u64::from(lower.0),
            u64::from(lower_page.0),
            u64::from(upper.0),
            u64::from(upper_page.0),
        ],
    )
}

fn shadowed(text: &mut Line, region: RegionId, new: ObjectId, old: ObjectId) -> Result<(), NoMemory>
    ensures { OnOk result (text.new ≡ text.old ++ line_of (Event.Shadowed region new old)) }
{
    text.put_line(
        b"shadowed",
        &[u64::from(region.0), u64::from(new.0), u64::from(old.0)],
    )
}

fn unmarked(text: &mut Line, region: RegionId) -> Result<(), NoMemory>
    ensures { OnOk result (text.new ≡ text.old ++ line_of (Event.Unmarked region)) }
{
    text.put_line(b"unmarked", &[u64::from(region.0)])
}

fn merged(text: &mut Line, upper: ObjectId, lower: ObjectId) -> Result<(), NoMemory>
    ensures { OnOk result (text.new ≡ text.old ++ line_of (Event.Merged upper lower)) }
{
    text.put_line(b"merged", &[u64::from(upper.0), u64::from(lower.0)])
}

fn device_failed(
    text: &mut Line,
    who: Device,
    way: Way,
    object: ObjectId,
    page: PageNo,
) -> Result<(), NoMemory>
    ensures { OnOk result (text.new ≡ text.old ++ line_of (Event.DeviceFailed who way object page)) }
{
    text.put_word(b"device")?;
    text.put_word(device_word(who))?;
    text.put_line(way_word(way), &[u64::from(object.0), u64::from(page.0)])
}

fn device_word(who: Device) -> &'static [u8]
    ensures { result.now ≡ device_text who }
{
    match who {
        Device::Files => b" files",
        Device::Paging => b" paging",
    }
}

fn way_word(way: Way) -> &'static [u8]
    ensures { result.now ≡ way_text way }
{
    match way {
        Way::Read => b" read",
        Way::Write => b" write",
    }
}

fn no_slot(text: &mut Line, object: ObjectId, page: PageNo) -> Result<(), NoMemory>
    ensures { OnOk result (text.new ≡ text.old ++ line_of (Event.NoSlot object page)) }
{
    text.put_line(b"noslot", &[u64::from(object.0), u64::from(page.0)])
}

fn wired(text: &mut Line, host: HostId, count: u32) -> Result<(), NoMemory>
    ensures { OnOk result (text.new ≡ text.old ++ line_of (Event.Wired host count)) }
{
    text.put_line(b"wired", &[u64::from(host.0), u64::from(count)])
}
