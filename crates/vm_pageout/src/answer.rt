// What came of a reclaim.

/// What came of looking for a page to reclaim.
#[derive(Clone, Copy, Debug, PartialEq, Eq)]
pub enum Reclaim {
    /// A page was dropped, and its frame is free.
    Freed,
    /// A page was sent to its pager; its frame is held until the pager has taken it.
    Returned,
    /// Each page that is here is skipped.
    Nothing,
}
