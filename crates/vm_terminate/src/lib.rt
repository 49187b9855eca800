//! The end of a memory object on a host, and of each object under it that loses its last reference by that.
#![tactic(auto)]

mod destroying;
mod finishing;
mod pages;

pub use destroying::destroy;
pub use finishing::finish;
