// What stands for a range of a task's addresses.
use crate::{Inherit, Prot, RegionId};

/// A range of a task's addresses: the pages of a region from an offset on.
///
/// `address` and `bytes` are in bytes, `offset` is in pages. Entries are never joined (this profile).
#[derive(Clone, Copy, Debug, PartialEq, Eq)]
pub struct Entry {
    pub address: u64,
    pub bytes: u64,
    pub region: RegionId,
    pub offset: u32,
    pub prot: Prot,
    pub inherit: Inherit,
}
