//! What a lock request of a pager does on a host.
#![tactic(auto)]

mod locking;
mod pages;
mod request;

pub use locking::lock;
