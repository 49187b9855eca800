//! The queues of a host's pages, from which the victim of a reclaim is chosen.
#![tactic(auto)]

mod link;
mod links;
mod lists;
mod queues;
mod sparing;

pub use link::{Link, OnList};
pub use queues::PageQueues;
pub use sparing::Spares;
