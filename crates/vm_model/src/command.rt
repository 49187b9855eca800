// What a line of a script says.
use crate::{Channel, Message};
use vm_base::{HostId, Inherit, ObjectId, PageNo, Prot, TaskId};

/// A command of a script. Addresses and `bytes` are in bytes, `offset`, `page` and counts of pages in
/// pages. A command that can't be done is refused with a `Code`, and changes nothing.
#[derive(Drop)]
pub enum Command {
    /// A new task on a host, with no entries.
    Task {
        task: TaskId,
        host: HostId,
    },
    /// A new task on the same host, by inheritance.
    Fork {
        task: TaskId,
        child: TaskId,
    },
    /// The task ends.
    Exit {
        task: TaskId,
    },
    /// vm_allocate: zeroed temporary memory.
    Allocate {
        task: TaskId,
        address: u64,
        bytes: u64,
    },
    /// vm_map: a declared object, from its page `offset` on.
    Map {
        task: TaskId,
        address: u64,
        bytes: u64,
        object: ObjectId,
        offset: u32,
    },
    /// vm_deallocate: what lies in the range is unmapped.
    Deallocate {
        task: TaskId,
        address: u64,
        bytes: u64,
    },
    /// vm_protect: the range gets a protection.
    Protect {
        task: TaskId,
        address: u64,
        bytes: u64,
        prot: Prot,
    },
    /// vm_inherit: the range gets an inheritance.
    Inherit {
        task: TaskId,
        address: u64,
        bytes: u64,
        inherit: Inherit,
    },
    /// A load of 1, 2, 4 or 8 bytes.
    Load {
        task: TaskId,
        address: u64,
        size: u32,
    },
    /// A store of 1, 2, 4 or 8 bytes, little-endian.
    Store {
        task: TaskId,
        address: u64,
        size: u32,
        value: u64,
    },
    /// A copy of a range into free space of `target` at `to`.
    Copy {
        task: TaskId,
        address: u64,
        bytes: u64,
        target: TaskId,
        to: u64,
    },
    /// Takes the head of a channel.
    Take {
        channel: Channel,
    },
    /// Takes the oldest undelivered message, up to so many times.
    Settle {
        count: u32,
    },
    /// Reclaims up to so many pages of a host.
    Pageout {
        host: HostId,
        count: u32,
    },
    /// A lock_request of the file pager over `count` pages.
    Clean {
        object: ObjectId,
        page: PageNo,
        count: u32,
        flush: bool,
    },
    /// The file pager says whether the file stays in memory when its last entry on a host goes.
    Cache {
        object: ObjectId,
        cache: bool,
    },
    /// Wires free frames.
    Wire {
        host: HostId,
        count: u32,
    },
    /// Unwires frames.
    Unwire {
        host: HostId,
        count: u32,
    },
    /// Makes the `count`-th coming call of the files fail.
    FailFiles {
        count: u32,
    },
    /// Makes the `count`-th coming call of the paging area fail.
    FailPaging {
        count: u32,
    },
    /// Sends a message to a host's control of a wild object.
    Say {
        host: HostId,
        object: ObjectId,
        message: Message,
    },
}

/// A command, and the line of the script that it stands on, from 1 on.
#[derive(Drop)]
pub struct Numbered {
    pub line: u32,
    pub command: Command,
}
