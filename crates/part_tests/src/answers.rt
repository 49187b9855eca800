// Answers on a host of two frames, one of them held for page 1 of an object, which is asked.
ghost use Rattle.std.specs.Prelude.{◌≡◌, ◌<◌, IfOk, None};
ghost use Rattle.vm_parts.specs.Fits.{Fit, object_pages};
ghost use Rattle.vm_resident.specs.Resident.{row_at};
ghost use Rattle.vm_supply.specs.Answers.{IsAnswer};

use crate::shows::{leave, shows};
use crate::told::{FILE, with_told_file};
use std::alloc::Global;
use std::test::Fail;
use vm_base::{HostId, NoMemory, PageBytes, PageKey, PageNo, PageSize};
use vm_model::{Events, Message};
use vm_parts::HostParts;
use vm_supply::{Woken, answer};

const HOST: HostId = HostId(0);

const KEY: PageKey = PageKey {
    object: FILE,
    page: PageNo(1),
};

fn ask(host: &mut HostParts) -> Result<(), NoMemory>
    requires fit { Fit host.old }
    requires absent { row_at host.old.resident 7 1 ≡ None }
    requires inside { 1 < object_pages host.old.objects 7 }
    ensures fit { Fit host.new }
    ensures size { host.new.buffers.size ≡ host.old.buffers.size }
{
    host.reserve(1)?;
    if host.frames.free() == 0 {
        return Err(NoMemory);
    }
    host.ask(KEY);
    Ok(())
}

fn host_of(alloc: Global) -> Result<HostParts, Fail>
    ensures fit { IfOk result (λ host. Fit host) }
    ensures size { IfOk result (λ host. host.buffers.size ≡ 16) }
{
    let size = PageSize::of(16).ok_or("16 is a page size")?;
    let objects = with_told_file(alloc)?;
    let mut host = HostParts::new(alloc, 2, size)?;
    host.objects = objects;
    if ask(&mut host).is_ok() {
        return Ok(host);
    }
    leave(host);
    Err("no frame is claimed yet".into())
}

#[derive(Clone, Copy)]
enum Said {
    Ready,
    Supply,
    Unavailable,
    Error,
}

fn message_of(alloc: Global, said: Said) -> Result<Message, Fail>
    ensures { IfOk result (λ message. IsAnswer 16 message) }
{
    let page = KEY.page;
    Ok(match said {
        Said::Ready => Message::Ready {
            cache: false,
            strategy: 0,
        },
        Said::Supply => {
            let size = PageSize::of(16).ok_or("16 is a page size")?;
            let mut hex = PageBytes::zero(alloc, size)?;
            hex.fill(b"page");
            Message::Supply {
                page,
                lock: 2,
                precious: true,
                hex,
            }
        },
        Said::Unavailable => Message::Unavailable { page },
        Said::Error => Message::Error { page, reason: 1 },
    })
}

// Whom the answer to the first control wakes.
fn tell(host: &mut HostParts, message: &Message, log: &mut Events) -> Result<Woken, NoMemory>
    requires fit { Fit host.old }
    requires size { host.old.buffers.size ≡ 16 }
    requires answer { IsAnswer 16 message.now }
{
    answer(HOST, FILE, 1, message, host, log)
}

// Whom this answer wakes, and whether the page is here then.
fn told(alloc: Global, said: Said) -> Result<(Woken, bool), Fail> {
    let message = message_of(alloc, said)?;
    let mut log = Events::new(alloc);
    let mut host = host_of(alloc)?;
    let woken = tell(&mut host, &message, &mut log);
    let row = host.resident.get(KEY);
    leave(host);
    Ok((woken?, row.is_some_and(|row| row.here)))
}

#[test]
fn each_answer(rt: HostRuntime) -> Result<(), Fail> {
    let ready = Woken::ReadyOf { object: FILE };
    let page = Woken::Page { key: KEY };
    let fails = Woken::Fails { key: KEY };
    shows(&rt, told(rt.alloc(), Said::Ready)? == (ready, false));
    shows(&rt, told(rt.alloc(), Said::Supply)? == (page, true));
    shows(&rt, told(rt.alloc(), Said::Unavailable)? == (page, true));
    shows(&rt, told(rt.alloc(), Said::Error)? == (fails, false));
    Ok(())
}
