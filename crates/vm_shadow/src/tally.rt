// The tally of the shadows over an object.

/// How many shadows stand on an object, and the sum of their numbers: where one does, its number.
#[derive(Clone, Copy, Debug, PartialEq, Eq)]
pub struct Tally {
    /// So many shadows stand on it.
    pub count: u32,
    /// The sum of their numbers.
    pub sum: u64,
}
