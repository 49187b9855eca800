// What running an access comes to.
use vm_base::{ObjectId, PageKey};

/// What running an access once comes to. Whoever doesn't end is run again: after the word for which it
/// waits was taken, or with a frame.
#[derive(Clone, Copy, Debug, PartialEq, Eq)]
pub enum FaultStep {
    /// It has ended, with the number that it loaded or stored; a slow copy ends with 0.
    Done { value: u64 },
    /// A page was asked for (memory_object_data_request).
    Ask { key: PageKey },
    /// An unlock of a page was asked for (memory_object_data_unlock).
    Unlock { key: PageKey },
    /// It waits for the pager of an object to be ready.
    WaitReady { object: ObjectId },
    /// It waits for a page that was asked for, or for its unlock.
    WaitAnswer { key: PageKey },
    /// It wants a frame, and may have none; and the page that it is to copy, if it is to copy one.
    NeedFrame { source: Option<PageKey> },
}
