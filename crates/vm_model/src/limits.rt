// The limits of scripts and of histories, which are this profile's; contracts name them as in
// specs/Limits.

/// The most bytes of a script.
pub const MOST_SCRIPT_BYTES: usize = 1_048_576;

/// The most lines of a script.
pub const MOST_SCRIPT_LINES: u32 = 20_000;

/// No step begins once the history has so many events.
pub const MOST_EVENTS: u32 = 200_000;

/// The most takings of a settle.
pub const MOST_TAKINGS: u32 = 1_000_000;

/// The latest coming call of a backing that a script can make fail.
pub const MOST_CALLS: u32 = 1_000_000;
