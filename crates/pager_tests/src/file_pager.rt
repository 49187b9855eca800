// Messages about a file over areas in memory.
ghost use Rattle.std.specs.Prelude.{◌≡◌, IfOk};
ghost use Rattle.pg_answers.specs.Answers.{IsToPager, ReturnsWhole};

use crate::shows::{leave, shows};
use pg_file::FilePager;
use std::alloc::Global;
use std::test::Fail;
use vm_base::{HostId, ObjectId, PageNo, PageSize};
use vm_model::{Channel, Event, Events, Message, Name};
use vm_outside::SureBacking;

fn pager(alloc: Global) -> Result<FilePager, Fail>
    ensures { IfOk result (λ pager. pager.size ≡ 16) }
{
    let size = PageSize::of(16).ok_or("no size")?;
    let name = Name::new(b"notes").ok_or("no name")?;
    Ok(FilePager::new(alloc, ObjectId(2), name, size)?)
}

fn request() -> Message
    ensures up { IsToPager result }
    ensures whole { ReturnsWhole 16 result }
{
    Message::Request {
        control: 3,
        page: PageNo(1),
        access: 1,
    }
}

fn supplies(events: &Events, bytes: &[u8]) -> bool {
    if events.len() == 0 {
        return false;
    }
    match events.at(0) {
        Event::Sent {
            message: Message::Supply { hex, .. },
            ..
        } => hex.as_slice() == bytes,
        _ => false,
    }
}

// Whether the second page has the bytes past the first one, and zeros.
fn reads(pager: &mut FilePager, files: &mut SureBacking) -> Result<bool, Fail>
    requires { pager.old.size ≡ 16 }
{
    files.put_area("notes", b"abcdefghijklmnopqrs")?;
    let told = pager.answer(HostId(1), &request(), files)?;
    Ok(supplies(&told, b"qrs\0\0\0\0\0\0\0\0\0\0\0\0\0"))
}

#[test]
fn supplied(rt: HostRuntime) -> Result<(), Fail> {
    let mut files = SureBacking::new(rt.alloc());
    let mut pager = pager(rt.alloc())?;
    shows(&rt, reads(&mut pager, &mut files)?);
    leave(pager);
    leave(files);
    Ok(())
}

#[test]
fn cleaned(rt: HostRuntime) -> Result<(), Fail> {
    let pager = pager(rt.alloc())?;
    shows(&rt, pager.clean(PageNo(2), 3, true)?.len() == 0);
    leave(pager);
    Ok(())
}

fn init() -> Message
    ensures up { IsToPager result }
    ensures whole { ReturnsWhole 16 result }
{
    Message::Init {
        control: 3,
        size: 16,
    }
}

// Whether the one event says to control 3 of host 1 whether the file stays.
fn says(events: &Events, flag: bool) -> bool {
    if events.len() != 1 {
        return false;
    }
    match events.at(0) {
        Event::Sent {
            channel: Channel::Down {
                host: HostId(1),
                object: ObjectId(2),
                control: 3,
            },
            message: Message::Attributes {
                cache,
                strategy: 2,
                reply: true,
            },
        } => *cache == flag,
        _ => false,
    }
}

// The pager says whether the file stays, once it knows a control.
fn told(pager: &mut FilePager, files: &mut SureBacking) -> Result<bool, Fail>
    requires { pager.old.size ≡ 16 }
{
    let none = pager.cache(true)?.len() == 0;
    let _ = pager.answer(HostId(1), &init(), files)?;
    Ok(none && says(&pager.cache(true)?, true) && says(&pager.cache(false)?, false))
}

#[test]
fn cached(rt: HostRuntime) -> Result<(), Fail> {
    let mut files = SureBacking::new(rt.alloc());
    let mut pager = pager(rt.alloc())?;
    shows(&rt, told(&mut pager, &mut files)?);
    leave(pager);
    leave(files);
    Ok(())
}
