//! Names, page sizes, page bytes, entries and lists, on which every other crate stands.
#![tactic(auto)]

mod buffers;
mod code;
mod entry;
mod failure;
mod ids;
pub mod limits;
mod listing;
mod pages;

pub use buffers::Buffers;
pub use code::Code;
pub use entry::Entry;
pub use failure::{Failed, NoMemory, WriteStop};
pub use ids::{
    Access, ChannelId, FrameNo, HostId, Inherit, Lock, ObjectId, ObjectKind, PageKey, PageNo, Prot,
    RegionId, TaskId, joined,
};
pub use listing::Listing;
pub use pages::{PageBytes, PageSize};

/// The entries of a task, by rising address.
pub type Entries = Listing<Entry>;
