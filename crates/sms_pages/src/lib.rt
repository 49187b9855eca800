//! The shared memory server's directory of one page: who holds it, who wants it, and its bytes.
#![tactic(auto)]

mod desk;
mod directory;
mod holding;
mod law;
mod reply;

pub use directory::PageDirectory;
pub use law::directory_law;
pub use reply::{Replies, Reply};
