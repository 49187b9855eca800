// What the server is to send.
use vm_base::{HostId, Listing, Lock, PageBytes};

/// A message that a page's directory wants to be sent, and to which host.
#[derive(Drop)]
pub enum Reply {
    /// A data supply, with the page's bytes and the accesses that it prohibits.
    Supply {
        host: HostId,
        lock: Lock,
        bytes: PageBytes,
    },
    /// A lock_request RETURN_DIRTY that flushes the page and leaves its lock, with a reply.
    Flush {
        host: HostId,
    },
    /// A lock_request RETURN_DIRTY that prohibits writing, with a reply.
    CleanLock {
        host: HostId,
    },
    /// A lock_request RETURN_NONE that prohibits nothing, without a reply.
    Unlock {
        host: HostId,
    },
}

/// Replies, in the order in which they are to be sent.
pub type Replies = Listing<Reply>;
