// What is known of a region.

use vm_base::ObjectId;

/// A region: so many pages of an object, from one of its pages on. Its mark holds for each entry that
/// leads to it: a region is what a sharing map of one range is in Mach. Shadow chains follow Young's
/// thesis (1989).
#[derive(Clone, Copy, Debug, PartialEq, Eq)]
pub struct RegionRow {
    /// The object on top of the region's shadow chain.
    pub top: ObjectId,
    /// The page of the top object at which the region begins.
    pub shift: u32,
    /// The length, in pages.
    pub pages: u32,
    /// The copy mark, which a symmetric copy puts on both of its regions.
    pub marked: bool,
    /// The number of entries of address maps that lead to the region.
    pub entries: u32,
}
