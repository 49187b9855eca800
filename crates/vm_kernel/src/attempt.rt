// What running an access once comes to.
use vm_base::PageKey;

/// What running an access once comes to, for the frame queue.
#[derive(Clone, Copy, Debug, PartialEq, Eq)]
pub enum Attempt {
    /// It has ended, or waits for a pager.
    Ran,
    /// It wants a frame, and has none; and the page that it is to copy, if it is to copy one.
    Wants { source: Option<PageKey> },
}
