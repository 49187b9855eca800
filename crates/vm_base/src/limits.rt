// The limits of what a run has, which are this profile's; contracts name them as in specs/Limits.

/// The most hosts of a run.
pub const MOST_HOSTS: u32 = 8;

/// The fewest page frames of a host.
pub const LEAST_FRAMES: u32 = 2;

/// The most page frames of a host.
pub const MOST_FRAMES: u32 = 4096;

/// The most tasks that a run can name: their numbers are below it.
pub const MOST_TASKS: u32 = 1024;

/// The most entries of a task.
pub const MOST_ENTRIES: u32 = 256;

/// The end of the addresses, in bytes: each is below it.
pub const ADDRESS_END: u64 = 0x1_0000_0000;

/// The most bytes of a page.
pub const MOST_PAGE_BYTES: u32 = 4096;

/// The most pages of an object.
pub const MOST_PAGES: u32 = 4096;

/// The most objects that a run makes, the declared ones and the marked regions with them.
pub const MOST_OBJECTS: u32 = 8192;

/// The most regions that a run makes, those of the declared objects with them.
pub const MOST_REGIONS: u32 = 8192;

/// The most paging slots of a host.
pub const MOST_SLOTS: u32 = 65_536;
