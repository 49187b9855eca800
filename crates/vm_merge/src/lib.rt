//! The merging of the objects of a host, each into the one shadow that stands on it.
#![tactic(auto)]

mod losers;
mod merging;

pub use losers::Losers;
pub use merging::{merge_losers, upper_of};
