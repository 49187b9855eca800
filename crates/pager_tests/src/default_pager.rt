// A page that is returned is supplied, over areas in memory.
ghost use Rattle.std.specs.Prelude.{◌≡◌, IfOk};
ghost use Rattle.pg_answers.specs.Answers.{IsToPager, ReturnsWhole};

use crate::pages::page;
use crate::shows::{leave, shows};
use pg_default::DefaultPager;
use std::alloc::Global;
use std::test::Fail;
use vm_base::{HostId, NoMemory, ObjectId, PageNo, PageSize};
use vm_model::{Event, Events, Message};
use vm_outside::SureBacking;

// The page begins with a 5.
fn returning(alloc: Global) -> Result<Message, NoMemory>
    ensures up { IfOk result IsToPager }
    ensures whole { IfOk result (ReturnsWhole 16) }
{
    Ok(Message::Return {
        control: 7,
        page: PageNo(0),
        dirty: true,
        keep: false,
        hex: page(alloc, 5)?,
    })
}

fn request() -> Message
    ensures up { IsToPager result }
    ensures whole { ReturnsWhole 16 result }
{
    Message::Request {
        control: 7,
        page: PageNo(0),
        access: 1,
    }
}

fn supplies(events: &Events, first: u8) -> bool {
    if events.len() == 0 {
        return false;
    }
    match events.at(0) {
        Event::Sent {
            message: Message::Supply { hex, .. },
            ..
        } => hex.as_slice().first() == Some(&first),
        _ => false,
    }
}

// Whether what is asked for is what was returned.
fn keeps(
    alloc: Global,
    pager: &mut DefaultPager,
    paging: &mut SureBacking,
) -> Result<bool, NoMemory>
    requires { pager.old.size ≡ 16 }
{
    let message = returning(alloc)?;
    let quiet = pager.answer(ObjectId(2), &message, paging)?.len() == 0;
    let told = pager.answer(ObjectId(2), &request(), paging)?;
    Ok(quiet && supplies(&told, 5))
}

#[test]
fn supplied(rt: HostRuntime) -> Result<(), Fail> {
    let size = PageSize::of(16).ok_or("no size")?;
    let mut paging = SureBacking::new(rt.alloc());
    let mut pager = DefaultPager::new(rt.alloc(), HostId(1), 1, size)?;
    shows(&rt, keeps(rt.alloc(), &mut pager, &mut paging) == Ok(true));
    leave(pager);
    leave(paging);
    Ok(())
}
