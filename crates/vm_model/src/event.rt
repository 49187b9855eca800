// What happens in a run.
use crate::{Channel, Message};
use vm_base::{Code, HostId, Inherit, ObjectId, PageNo, Prot, RegionId, TaskId};

/// Which backing failed.
#[derive(Clone, Copy, Debug, PartialEq, Eq)]
pub enum Device {
    Files,
    Paging,
}

/// What the backing was to do.
#[derive(Clone, Copy, Debug, PartialEq, Eq)]
pub enum Way {
    Read,
    Write,
}

/// One event of a run. Addresses and `bytes` are in bytes, `offset`, `page` and `pages` in pages, and
/// `size` is 1, 2, 4 or 8 bytes. Which events there are is this profile's.
#[derive(Drop)]
pub enum Event {
    /// The command of a line of the script begins.
    Line {
        line: u32,
    },
    /// The command is refused.
    Refused {
        code: Code,
    },
    /// A task begins.
    TaskMade {
        task: TaskId,
        host: HostId,
    },
    /// A task ends.
    TaskEnded {
        task: TaskId,
    },
    /// A region over a new temporary object of so many pages.
    RegionMade {
        region: RegionId,
        object: ObjectId,
        pages: u32,
    },
    /// A region that is a symmetric copy of so many pages of `source`, from `offset` on.
    RegionCopied {
        region: RegionId,
        source: RegionId,
        offset: u32,
        pages: u32,
    },
    /// A region of so many pages over the new object `copy`: a copy of the file of the region `source`, from its page `offset` on, that stands over
    /// the file (this profile; after the delayed copies of Mach's virtual memory).
    Delayed {
        region: RegionId,
        source: RegionId,
        offset: u32,
        pages: u32,
        copy: ObjectId,
    },
    /// A task gets an entry.
    Entered {
        task: TaskId,
        address: u64,
        bytes: u64,
        region: RegionId,
        offset: u32,
        prot: Prot,
        inherit: Inherit,
    },
    /// A range of a task is unmapped.
    Removed {
        task: TaskId,
        address: u64,
        bytes: u64,
    },
    /// A range of a task gets a protection.
    Protected {
        task: TaskId,
        address: u64,
        bytes: u64,
        prot: Prot,
    },
    /// A range of a task gets an inheritance.
    Inherited {
        task: TaskId,
        address: u64,
        bytes: u64,
        inherit: Inherit,
    },
    /// A load begins.
    BegunLoad {
        task: TaskId,
        address: u64,
        size: u32,
    },
    /// A store begins.
    BegunStore {
        task: TaskId,
        address: u64,
        size: u32,
        value: u64,
    },
    /// A slow copy to `to` begins.
    BegunCopy {
        task: TaskId,
        address: u64,
        bytes: u64,
        to: u64,
    },
    /// A load ends with a value, little-endian, from a page of an object.
    Loaded {
        task: TaskId,
        object: ObjectId,
        page: PageNo,
        value: u64,
    },
    /// A store ends: the `size` bytes of `value`, little-endian, at a place of a page.
    Stored {
        task: TaskId,
        object: ObjectId,
        page: PageNo,
        at: u32,
        size: u32,
        value: u64,
    },
    /// A slow copy made a page of `object` the page `page` of the new object `target`.
    CopiedPage {
        task: TaskId,
        page: PageNo,
        object: ObjectId,
        object_page: PageNo,
        target: ObjectId,
    },
    /// A slow copy ends.
    CopyEnded {
        task: TaskId,
    },
    /// A task's access ends with KERN_MEMORY_ERROR, since its page can't be had.
    Failed {
        task: TaskId,
        object: ObjectId,
        page: PageNo,
    },
    /// A message is sent.
    Sent {
        channel: Channel,
        message: Message,
    },
    /// A message is taken.
    Taken {
        channel: Channel,
        message: Message,
    },
    /// A page is removed from a host, and not returned.
    Dropped {
        host: HostId,
        object: ObjectId,
        page: PageNo,
    },
    /// A page of zeros is put into a host.
    Zeroed {
        host: HostId,
        object: ObjectId,
        page: PageNo,
    },
    /// A page of `lower` is copied to a page of `upper`.
    Raised {
        host: HostId,
        lower: ObjectId,
        lower_page: PageNo,
        upper: ObjectId,
        upper_page: PageNo,
    },
    /// The object `new` is over `old`, and is the top of the region.
    Shadowed {
        region: RegionId,
        new: ObjectId,
        old: ObjectId,
    },
    /// The region has a copy mark no more, since nothing else is over its top.
    Unmarked {
        region: RegionId,
    },
    /// The object `lower` is merged into `upper`, its one reference: its pages that the upper can have and hasn't move up, and all others go.
    Merged {
        upper: ObjectId,
        lower: ObjectId,
    },
    /// A backing failed.
    DeviceFailed {
        who: Device,
        way: Way,
        object: ObjectId,
        page: PageNo,
    },
    /// The default pager had no slot for a returned page.
    NoSlot {
        object: ObjectId,
        page: PageNo,
    },
    /// So many frames of a host are wired now.
    Wired {
        host: HostId,
        count: u32,
    },
}
