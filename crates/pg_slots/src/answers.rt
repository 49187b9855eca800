// What the slots answer.
use vm_base::PageBytes;

/// What became of a page that was put.
#[derive(Clone, Copy, Debug, PartialEq, Eq)]
pub enum Put {
    /// Its bytes are in its slot.
    Kept,
    /// It is lost, since each slot is another page's.
    NoSlot,
    /// It is lost, since the write failed; it has the slot for its next put.
    Failed,
}

/// What is there of a page.
#[derive(Drop)]
pub enum Got {
    /// The bytes that were last put.
    Page { bytes: PageBytes },
    /// It was never put since its object was dropped.
    Never,
    /// It was put, and lost.
    Lost,
    /// The read failed.
    Failed,
}
