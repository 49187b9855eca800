// A line of each event, and the words of each message.
ghost use Rattle.std.specs.Prelude.{◌≤◌, length};

use crate::shows::shows;
use std::alloc::Global;
use std::process::Abort;
use std::test::*;
use vm_base::{
    Code, HostId, Inherit, ObjectId, PageBytes, PageNo, PageSize, Prot, RegionId, TaskId,
};
use vm_model::{Channel, Device, Event, Message, Way};
use vm_text::write_event;

const HOST: HostId = HostId(1);

const TASK: TaskId = TaskId(2);

const OBJECT: ObjectId = ObjectId(3);

const REGION: RegionId = RegionId(4);

const PAGE: PageNo = PageNo(5);

const READ: Prot = Prot {
    read: true,
    write: false,
};

const BOTH: Prot = Prot {
    read: true,
    write: true,
};

fn page(alloc: Global, bytes: &[u8]) -> Result<PageBytes, Fail>
    requires { length bytes.now ≤ 16 }
{
    let size = PageSize::of(16).ok_or("16 is a page size")?;
    let mut page = PageBytes::zero(alloc, size)?;
    page.fill(bytes);
    Ok(page)
}

fn sent(message: Message) -> Event {
    let channel = Channel::Up {
        host: HOST,
        object: OBJECT,
    };
    Event::Sent { channel, message }
}

fn supply(lock: u32, precious: bool, hex: PageBytes) -> Event {
    sent(Message::Supply {
        page: PAGE,
        lock,
        precious,
        hex,
    })
}

fn assert_lines(rt: &impl Abort, alloc: Global, table: &[(Event, &str)]) -> Result<(), Fail> {
    for (event, want) in table {
        let line = write_event(alloc, event)?;
        shows(rt, line.as_slice() == want.as_bytes());
    }
    Ok(())
}

#[test]
fn steps_and_tasks(rt: HostRuntime) -> Result<(), Fail> {
    let table = [
        (Event::Line { line: 4 }, "line 4\n"),
        (
            Event::Refused {
                code: Code::Blocked,
            },
            "refused 101\n",
        ),
        (
            Event::TaskMade {
                task: TASK,
                host: HOST,
            },
            "made 2 1\n",
        ),
        (Event::TaskEnded { task: TASK }, "ended 2\n"),
        (
            Event::Wired {
                host: HOST,
                count: 7,
            },
            "wired 1 7\n",
        ),
    ];
    assert_lines(&rt, rt.alloc(), &table)
}

#[test]
fn regions_and_entries_made(rt: HostRuntime) -> Result<(), Fail> {
    let table = [
        (
            Event::RegionMade {
                region: REGION,
                object: OBJECT,
                pages: 256,
            },
            "region 4 3 256\n",
        ),
        (
            Event::RegionCopied {
                region: REGION,
                source: RegionId(0),
                offset: 7,
                pages: 2,
            },
            "cow 4 0 7 2\n",
        ),
        (
            Event::Delayed {
                region: RegionId(1),
                source: RegionId(0),
                offset: 0,
                pages: 1,
                copy: ObjectId(1),
            },
            "delayed 1 0 0 1 1\n",
        ),
        (
            Event::Entered {
                task: TASK,
                address: 4096,
                bytes: 32,
                region: REGION,
                offset: 7,
                prot: BOTH,
                inherit: Inherit::Copy,
            },
            "entered 2 4096 32 4 7 3 1\n",
        ),
    ];
    assert_lines(&rt, rt.alloc(), &table)
}

#[test]
fn entries_changed(rt: HostRuntime) -> Result<(), Fail> {
    let table = [
        (
            Event::Removed {
                task: TASK,
                address: 4096,
                bytes: 32,
            },
            "removed 2 4096 32\n",
        ),
        (
            Event::Protected {
                task: TASK,
                address: 4096,
                bytes: 32,
                prot: READ,
            },
            "protected 2 4096 32 1\n",
        ),
        (
            Event::Inherited {
                task: TASK,
                address: 4096,
                bytes: 32,
                inherit: Inherit::Never,
            },
            "inherited 2 4096 32 2\n",
        ),
    ];
    assert_lines(&rt, rt.alloc(), &table)
}

#[test]
fn loads_and_stores(rt: HostRuntime) -> Result<(), Fail> {
    let table = [
        (
            Event::BegunLoad {
                task: TASK,
                address: 12,
                size: 4,
            },
            "begun 2 load 12 4\n",
        ),
        (
            Event::Loaded {
                task: TASK,
                object: OBJECT,
                page: PAGE,
                value: 6,
            },
            "loaded 2 3 5 6\n",
        ),
        (
            Event::BegunStore {
                task: TASK,
                address: 12,
                size: 1,
                value: 9,
            },
            "begun 2 store 12 1 9\n",
        ),
        (
            Event::Stored {
                task: TASK,
                object: OBJECT,
                page: PAGE,
                at: 8,
                size: 8,
                value: 513,
            },
            "stored 2 3 5 8 0102000000000000\n",
        ),
    ];
    assert_lines(&rt, rt.alloc(), &table)
}

#[test]
fn slow_copies(rt: HostRuntime) -> Result<(), Fail> {
    let table = [
        (
            Event::BegunCopy {
                task: TASK,
                address: 4096,
                bytes: 256,
                to: 8192,
            },
            "begun 2 copy 4096 256 8192\n",
        ),
        (
            Event::CopiedPage {
                task: TASK,
                page: PAGE,
                object: OBJECT,
                object_page: PageNo(0),
                target: ObjectId(9),
            },
            "copied 2 5 3 0 9\n",
        ),
        (Event::CopyEnded { task: TASK }, "copyend 2\n"),
    ];
    assert_lines(&rt, rt.alloc(), &table)
}

#[test]
fn pages_and_shadows(rt: HostRuntime) -> Result<(), Fail> {
    let table = [
        (
            Event::Dropped {
                host: HOST,
                object: OBJECT,
                page: PAGE,
            },
            "dropped 1 3 5\n",
        ),
        (
            Event::Zeroed {
                host: HOST,
                object: OBJECT,
                page: PAGE,
            },
            "zeroed 1 3 5\n",
        ),
        (
            Event::Raised {
                host: HOST,
                lower: OBJECT,
                lower_page: PAGE,
                upper: ObjectId(9),
                upper_page: PageNo(0),
            },
            "raised 1 3 5 9 0\n",
        ),
        (
            Event::Shadowed {
                region: REGION,
                new: ObjectId(9),
                old: OBJECT,
            },
            "shadowed 4 9 3\n",
        ),
        (Event::Unmarked { region: REGION }, "unmarked 4\n"),
        (
            Event::Merged {
                upper: ObjectId(9),
                lower: OBJECT,
            },
            "merged 9 3\n",
        ),
    ];
    assert_lines(&rt, rt.alloc(), &table)
}

#[test]
fn failures(rt: HostRuntime) -> Result<(), Fail> {
    let table = [
        (
            Event::Failed {
                task: TASK,
                object: OBJECT,
                page: PAGE,
            },
            "failed 2 3 5\n",
        ),
        (
            Event::DeviceFailed {
                who: Device::Files,
                way: Way::Read,
                object: OBJECT,
                page: PAGE,
            },
            "device files read 3 5\n",
        ),
        (
            Event::DeviceFailed {
                who: Device::Paging,
                way: Way::Write,
                object: OBJECT,
                page: PAGE,
            },
            "device paging write 3 5\n",
        ),
        (
            Event::NoSlot {
                object: OBJECT,
                page: PAGE,
            },
            "noslot 3 5\n",
        ),
    ];
    assert_lines(&rt, rt.alloc(), &table)
}

#[test]
fn messages_of_channels(rt: HostRuntime) -> Result<(), Fail> {
    let table = [
        (
            Event::Sent {
                channel: Channel::Up {
                    host: HOST,
                    object: OBJECT,
                },
                message: Message::Terminate { control: 6 },
            },
            "sent u1.3 terminate 6\n",
        ),
        (
            Event::Taken {
                channel: Channel::Down {
                    host: HOST,
                    object: OBJECT,
                    control: 6,
                },
                message: Message::Unavailable { page: PAGE },
            },
            "taken d1.3.6 unavailable 5\n",
        ),
    ];
    assert_lines(&rt, rt.alloc(), &table)
}

#[test]
fn controls_of_objects(rt: HostRuntime) -> Result<(), Fail> {
    let table = [
        (
            sent(Message::Init {
                control: 1,
                size: 16,
            }),
            "sent u1.3 init 1 16\n",
        ),
        (
            sent(Message::Create {
                control: 1,
                size: 16,
            }),
            "sent u1.3 create 1 16\n",
        ),
        (
            sent(Message::Terminate { control: 1 }),
            "sent u1.3 terminate 1\n",
        ),
        (
            sent(Message::Ready {
                cache: false,
                strategy: 3,
            }),
            "sent u1.3 ready 0 3\n",
        ),
        (
            sent(Message::Changed {
                control: 1,
                cache: true,
                strategy: 2,
            }),
            "sent u1.3 changed 1 1 2\n",
        ),
    ];
    assert_lines(&rt, rt.alloc(), &table)
}

#[test]
fn attributes_and_errors(rt: HostRuntime) -> Result<(), Fail> {
    let table = [
        (
            sent(Message::Attributes {
                cache: true,
                strategy: 2,
                reply: false,
            }),
            "sent u1.3 attributes 1 2 0\n",
        ),
        (
            sent(Message::Destroy { reason: 2 }),
            "sent u1.3 destroy 2\n",
        ),
        (
            sent(Message::Unavailable { page: PAGE }),
            "sent u1.3 unavailable 5\n",
        ),
        (
            sent(Message::Error {
                page: PAGE,
                reason: 2,
            }),
            "sent u1.3 error 5 2\n",
        ),
    ];
    assert_lines(&rt, rt.alloc(), &table)
}

#[test]
fn pages_without_bytes(rt: HostRuntime) -> Result<(), Fail> {
    let table = [
        (
            sent(Message::Request {
                control: 1,
                page: PAGE,
                access: 3,
            }),
            "sent u1.3 request 1 5 3\n",
        ),
        (
            sent(Message::Unlock {
                control: 1,
                page: PAGE,
                access: 3,
            }),
            "sent u1.3 unlock 1 5 3\n",
        ),
        (
            sent(Message::Completed {
                control: 1,
                page: PAGE,
                count: 7,
            }),
            "sent u1.3 completed 1 5 7\n",
        ),
        (
            sent(Message::Lock {
                page: PAGE,
                count: 1,
                returns: 2,
                flush: true,
                lock: 8,
                reply: false,
            }),
            "sent u1.3 lock 5 1 2 1 8 0\n",
        ),
    ];
    assert_lines(&rt, rt.alloc(), &table)
}

#[test]
fn pages_with_bytes(rt: HostRuntime) -> Result<(), Fail> {
    let one = page(rt.alloc(), b"\x01")?;
    let text = page(rt.alloc(), b"ABC")?;
    let zeros = page(rt.alloc(), b"")?;
    let inner = page(rt.alloc(), b"\x00\xaf\x00")?;
    let table = [
        (
            sent(Message::Return {
                control: 1,
                page: PAGE,
                dirty: true,
                keep: false,
                hex: one,
            }),
            "sent u1.3 return 1 5 1 0 01\n",
        ),
        (supply(0, false, text), "sent u1.3 supply 5 0 0 414243\n"),
        (supply(2, true, zeros), "sent u1.3 supply 5 2 1 -\n"),
        (supply(3, false, inner), "sent u1.3 supply 5 3 0 00af\n"),
    ];
    assert_lines(&rt, rt.alloc(), &table)
}
