// Where an address leads.
use vm_base::{PageNo, RegionId};

/// A place in a page of a region; `at` is in bytes from the page's begin.
#[derive(Clone, Copy, Debug, PartialEq, Eq)]
pub struct Place {
    pub region: RegionId,
    pub page: PageNo,
    pub at: u32,
}
