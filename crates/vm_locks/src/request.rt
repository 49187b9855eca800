// What a lock request asks.
ghost use Rattle.std.specs.Prelude.{◌≡◌, Some};
ghost use Rattle.vm_locks.specs.Requests.{IsLockRequest, lock_wanted, request_of, returns_numbered};

use vm_base::{Lock, PageNo};
use vm_model::Message;
use vm_parts::lock_of;
use vm_tables::Returns;

// The number that leaves the locks of the pages as they are. It is this profile's.
const NO_CHANGE: u32 = 8;

/// What a lock request asks of each page of its range that is here.
#[derive(Clone, Copy)]
pub struct LockRequest {
    /// The first page of the range.
    pub page: PageNo,
    /// The length of the range in pages.
    pub count: u32,
    /// Which pages go back to their pager.
    pub returns: Returns,
    /// Whether the pages are to go.
    pub flush: bool,
    /// The lock of the pages that stay, None where each keeps its own.
    pub lock: Option<Lock>,
    /// Whether the pager is told when all is done.
    pub reply: bool,
}

/// The request that a message makes.
pub fn request_in(message: &Message) -> LockRequest
    requires { IsLockRequest message.now }
    ensures { request_of message.now ≡ Some result }
{
    let Message::Lock {
        page,
        count,
        returns,
        flush,
        lock,
        reply,
    } = message
    else {
        unreachable!()
    };
    LockRequest {
        page: *page,
        count: *count,
        returns: returns_of(*returns),
        flush: *flush,
        lock: lock_in(*lock),
        reply: *reply,
    }
}

fn returns_of(number: u32) -> Returns
    ensures { result ≡ returns_numbered number }
{
    if number == 0 {
        Returns::Nothing
    } else if number == 1 {
        Returns::Dirty
    } else {
        Returns::All
    }
}

fn lock_in(number: u32) -> Option<Lock>
    ensures { result ≡ lock_wanted number }
{
    if number == NO_CHANGE {
        None
    } else {
        Some(lock_of(number))
    }
}
