// A waiting access.
use vm_base::{ObjectId, PageKey, RegionId, TaskId};

/// What an access is to do.
#[derive(Clone, Copy, Debug, PartialEq, Eq)]
pub enum Want {
    /// It reads the `size` bytes from an address on: 1, 2, 4 or 8, the lowest byte of the value first.
    Load {
        address: u64,
        size: u32,
    },
    /// It writes them.
    Store {
        address: u64,
        size: u32,
        value: u64,
    },
    /// A slow copy: so many pages from an address on go into the pages of an object; `next` is the one
    /// that is copied next, from 0 on.
    CopyTo {
        address: u64,
        pages: u32,
        target: ObjectId,
        next: u32,
    },
}

/// Where the pages of a slow copy are to be mapped: the region that is over its object, and the
/// address of its entry.
#[derive(Clone, Copy, Debug, PartialEq, Eq)]
pub struct Destination {
    pub region: RegionId,
    pub address: u64,
}

/// Why an access waits.
#[derive(Clone, Copy, Debug, PartialEq, Eq)]
pub enum On {
    /// For nothing any more: it is to be run again.
    Again,
    /// For the pager of an object to be ready.
    Ready { object: ObjectId },
    /// For a page that was asked for, or for its unlock.
    Page { key: PageKey },
    /// For the page of a copy object that was asked for: a store, which owes its own page to that copy.
    Push { key: PageKey },
    /// For a frame, in the queue.
    Frame,
}

/// An access that was begun and hasn't ended; a task has at most one.
#[derive(Clone, Copy, Debug, PartialEq, Eq)]
pub struct Waiting {
    pub task: TaskId,
    pub want: Want,
    pub on: On,
    /// A slow copy alone has one.
    pub destination: Option<Destination>,
}
