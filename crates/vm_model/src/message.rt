// The messages between a kernel and a pager, and the channels that carry them.
ghost use Rattle.std.specs.Cmp.Rules.{hashing};
ghost use Rattle.std.proofs.Common.{rules};
ghost use Rattle.vm_model.specs.Channels.{channel_input};

use std::hash::{Hash, Hasher};
use vm_base::{HostId, ObjectId, PageBytes, PageNo, joined};

/// A message of the Mach 3 kernel interfaces (external memory management), in this profile: requests,
/// unlocks and answers speak of one page, and lengths are in pages.
///
/// `control` is the number of the control port, which counts the incarnations of an object on a
/// host. `access` is 1 to read and 3 to write. `lock` names the prohibited accesses: 1 reading, 2
/// writing, 3 both; in `Lock` 8 leaves the lock as it is. `returns` is 0 for nothing, 1 for dirty
/// pages, 2 for dirty or precious ones. `hex` has the bytes of the page, all of them. `cache` is
/// may_cache, and `strategy` the copy strategy: 0 none, 1 call, 2 delay, 3 temporary. `reason` is a
/// code; the pagers of this program give 10, KERN_MEMORY_ERROR. The numbers are this profile's.
#[derive(Drop)]
pub enum Message {
    /// memory_object_init, to the pager, with a new control; `size` is the page size in bytes.
    Init {
        control: u32,
        size: u32,
    },
    /// memory_object_create, to the default pager; `size` is the page size in bytes.
    Create {
        control: u32,
        size: u32,
    },
    /// memory_object_data_request, to the pager; `access` is the access that is wanted.
    Request {
        control: u32,
        page: PageNo,
        access: u32,
    },
    /// memory_object_data_unlock, to the pager; `access` is as in `Request`.
    Unlock {
        control: u32,
        page: PageNo,
        access: u32,
    },
    /// memory_object_data_return, to the pager; `keep` is kernel_copy, that the page stays.
    Return {
        control: u32,
        page: PageNo,
        dirty: bool,
        keep: bool,
        hex: PageBytes,
    },
    /// memory_object_lock_completed, to the pager, of `count` pages from `page` on.
    Completed {
        control: u32,
        page: PageNo,
        count: u32,
    },
    /// memory_object_terminate, to the pager.
    Terminate {
        control: u32,
    },
    /// memory_object_ready, to the kernel; `strategy` is the copy strategy.
    Ready {
        cache: bool,
        strategy: u32,
    },
    /// memory_object_data_supply, to the kernel; `precious` asks for the page back unchanged too.
    Supply {
        page: PageNo,
        lock: u32,
        precious: bool,
        hex: PageBytes,
    },
    /// memory_object_data_unavailable, to the kernel.
    Unavailable {
        page: PageNo,
    },
    /// memory_object_data_error, to the kernel.
    Error {
        page: PageNo,
        reason: u32,
    },
    /// memory_object_lock_request, to the kernel, of `count` pages from `page` on; `reply` asks for
    /// lock_completed.
    Lock {
        page: PageNo,
        count: u32,
        returns: u32,
        flush: bool,
        lock: u32,
        reply: bool,
    },
    /// memory_object_change_attributes, to the kernel; `reply` asks for change_completed.
    Attributes {
        cache: bool,
        strategy: u32,
        reply: bool,
    },
    /// memory_object_destroy, to the kernel; the reason has no effect (this profile).
    Destroy {
        reason: u32,
    },
    /// memory_object_change_completed, to the pager, of what a change of attributes said.
    Changed {
        control: u32,
        cache: bool,
        strategy: u32,
    },
}

/// One sender and one port; its messages are taken in the order in which they were sent.
#[derive(Clone, Copy, Debug, PartialEq, Eq)]
pub enum Channel {
    /// From a host's kernel to the port of an object.
    Up {
        host: HostId,
        object: ObjectId,
    },
    /// From an object's pager to a control port of a host.
    Down {
        host: HostId,
        object: ObjectId,
        control: u32,
    },
}

// Host and object are hashed at once, and behind them the control, where there is one.
impl Hash for Channel {
    ghost hash_input = { channel_input };

    ghost respects_eq = { Prim.search (hashing, rules) };

    fn hash<H: Hasher>(&self, state: &mut H) {
        match self {
            Channel::Up { host, object } => state.write_u64(joined(host.0, object.0)),
            Channel::Down {
                host,
                object,
                control,
            } => {
                state.write_u64(joined(host.0, object.0));
                state.write_u32(*control);
            }
        }
    }
}
