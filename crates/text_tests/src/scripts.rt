// What the commands of a script say.
use crate::shows::shows;
use std::test::*;
use vm_base::{HostId, Inherit, ObjectId, ObjectKind, PageNo, Prot, TaskId};
use vm_model::{Channel, Command, Declarations, Header, Message};
use vm_text::{Line, read_script};

const READ: Prot = Prot {
    read: true,
    write: false,
};

const WRITE: Prot = Prot {
    read: false,
    write: true,
};

const SAID: &str = "hosts 3 4
frames 2 9
frames 2 7
file f 8
shared s 9
wild w 10
task 1 2
fork 1 5
exit 5
allocate 1 16 4294967296
map 2 3 4 s 5
deallocate 2 3 4
protect 2 3 4 1
protect 2 3 4 2
inherit 2 3 4 0
inherit 2 3 4 2
load 2 3 4
store 2 3 8 5
copy 2 3 4 5 6
take u1.2
take d1.2.3
settle 4
pageout 1 2
clean f 3 4 1
wire 1 2
unwire 1 2
fail files 3
fail paging 4
say 1 w ready 1 2
say 1 w supply 3 2 1 0a1f
say 1 w unavailable 3
say 1 w error 3 4
say 1 w lock 3 4 2 1 8 0
";

fn is_task_command(line: u32, command: &Command) -> bool {
    match line {
        7 => matches!(
            command,
            Command::Task {
                task: TaskId(1),
                host: HostId(2)
            }
        ),
        8 => matches!(
            command,
            Command::Fork {
                task: TaskId(1),
                child: TaskId(5)
            }
        ),
        9 => matches!(command, Command::Exit { task: TaskId(5) }),
        _ => false,
    }
}

fn is_map_command(line: u32, command: &Command) -> bool {
    match line {
        10 => matches!(
            command,
            Command::Allocate {
                task: TaskId(1),
                address: 16,
                bytes: 0x1_0000_0000
            }
        ),
        11 => matches!(
            command,
            Command::Map {
                task: TaskId(2),
                address: 3,
                bytes: 4,
                object: ObjectId(1),
                offset: 5
            }
        ),
        12 => matches!(
            command,
            Command::Deallocate {
                task: TaskId(2),
                address: 3,
                bytes: 4
            }
        ),
        _ => false,
    }
}

fn protection(command: &Command) -> Option<Prot> {
    match command {
        Command::Protect {
            task: TaskId(2),
            address: 3,
            bytes: 4,
            prot,
        } => Some(*prot),
        _ => None,
    }
}

fn inheritance(command: &Command) -> Option<Inherit> {
    match command {
        Command::Inherit {
            task: TaskId(2),
            address: 3,
            bytes: 4,
            inherit,
        } => Some(*inherit),
        _ => None,
    }
}

fn is_change_of_entries(line: u32, command: &Command) -> bool {
    match line {
        13 => protection(command) == Some(READ),
        14 => protection(command) == Some(WRITE),
        15 => inheritance(command) == Some(Inherit::Share),
        16 => inheritance(command) == Some(Inherit::Never),
        _ => false,
    }
}

fn is_access(line: u32, command: &Command) -> bool {
    match line {
        17 => matches!(
            command,
            Command::Load {
                task: TaskId(2),
                address: 3,
                size: 4
            }
        ),
        18 => matches!(
            command,
            Command::Store {
                task: TaskId(2),
                address: 3,
                size: 8,
                value: 5
            }
        ),
        19 => matches!(
            command,
            Command::Copy {
                task: TaskId(2),
                address: 3,
                bytes: 4,
                target: TaskId(5),
                to: 6
            }
        ),
        _ => false,
    }
}

fn is_taking(line: u32, command: &Command) -> bool {
    match line {
        20 => matches!(
            command,
            Command::Take {
                channel: Channel::Up {
                    host: HostId(1),
                    object: ObjectId(2)
                }
            }
        ),
        21 => matches!(
            command,
            Command::Take {
                channel: Channel::Down {
                    host: HostId(1),
                    object: ObjectId(2),
                    control: 3
                }
            }
        ),
        22 => matches!(command, Command::Settle { count: 4 }),
        _ => false,
    }
}

fn is_host_command(line: u32, command: &Command) -> bool {
    match line {
        23 => matches!(
            command,
            Command::Pageout {
                host: HostId(1),
                count: 2
            }
        ),
        24 => matches!(
            command,
            Command::Clean {
                object: ObjectId(0),
                page: PageNo(3),
                count: 4,
                flush: true
            }
        ),
        25 => matches!(
            command,
            Command::Wire {
                host: HostId(1),
                count: 2
            }
        ),
        26 => matches!(
            command,
            Command::Unwire {
                host: HostId(1),
                count: 2
            }
        ),
        27 => matches!(command, Command::FailFiles { count: 3 }),
        28 => matches!(command, Command::FailPaging { count: 4 }),
        _ => false,
    }
}

fn is_message(line: u32, message: &Message) -> bool {
    match line {
        29 => matches!(
            message,
            Message::Ready {
                cache: true,
                strategy: 2
            }
        ),
        30 => match message {
            Message::Supply {
                page: PageNo(3),
                lock: 2,
                precious: true,
                hex,
            } => matches!(hex.as_slice(), [10, 31, 0, .., 0]) && hex.as_slice().len() == 4096,
            _ => false,
        },
        31 => matches!(message, Message::Unavailable { page: PageNo(3) }),
        32 => matches!(
            message,
            Message::Error {
                page: PageNo(3),
                reason: 4
            }
        ),
        33 => matches!(
            message,
            Message::Lock {
                page: PageNo(3),
                count: 4,
                returns: 2,
                flush: true,
                lock: 8,
                reply: false
            }
        ),
        _ => false,
    }
}

fn is_said(line: u32, command: &Command) -> bool {
    match command {
        Command::Say {
            host: HostId(1),
            object: ObjectId(2),
            message,
        } => is_message(line, message),
        _ => match line {
            7..=9 => is_task_command(line, command),
            10..=12 => is_map_command(line, command),
            13..=16 => is_change_of_entries(line, command),
            17..=19 => is_access(line, command),
            20..=22 => is_taking(line, command),
            _ => is_host_command(line, command),
        },
    }
}

fn is_header(header: &Header) -> bool {
    header.size.bytes() == 4096
        && header.slots == 1024
        && header.frames.len() == 3
        && *header.frames.at(0) == 4
        && *header.frames.at(1) == 4
        && *header.frames.at(2) == 7
}

fn is_shared_s(objects: &Declarations) -> bool {
    if objects.len() != 3 {
        return false;
    }
    let shared = objects.at(1);
    shared.name.as_str() == "s" && shared.kind == ObjectKind::Shared && shared.pages == 9
}

#[test]
fn what_a_script_says(rt: HostRuntime) -> Result<(), Fail> {
    let script = read_script(rt.alloc(), SAID.as_bytes())
        .ok()
        .ok_or("the script has no fault")?;
    shows(
        &rt,
        is_header(&script.header) && is_shared_s(&script.header.objects),
    );
    shows(&rt, script.lines == 33 && script.commands.len() == 27);
    for i in 0..script.commands.len() {
        let numbered = script.commands.at(i);
        shows(
            &rt,
            i == numbered.line.saturating_sub(7) && is_said(numbered.line, &numbered.command),
        );
    }
    Ok(())
}
