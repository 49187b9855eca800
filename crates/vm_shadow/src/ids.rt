// What a run numbers, and what it counts.

/// The next numbers of a run, and how many of its regions are marked.
///
/// Objects and regions are numbered in the order in which they are made, and no number is used
/// twice.
#[derive(Clone, Copy, Debug, PartialEq, Eq)]
pub struct Ids {
    /// The number of the next object.
    pub next_object: u32,
    /// The number of the next region.
    pub next_region: u32,
    /// The number of regions that are marked.
    pub marks: u32,
}
