// Whom an answer wakes.
use vm_base::{ObjectId, PageKey};

/// Which waiting accesses an answer of a pager lets go on.
#[derive(Clone, Copy, Debug, PartialEq, Eq)]
pub enum Woken {
    /// None: the answer was discarded.
    Nobody,
    /// Those that wait for the pager of the object to be ready.
    ReadyOf { object: ObjectId },
    /// Those that wait for the page: it is here, or it is known that the pager has none.
    Page { key: PageKey },
    /// Those that wait for the page, to fail: the pager can't give it.
    Fails { key: PageKey },
}
