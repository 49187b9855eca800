//! The accesses that wait on one host, in the order in which they began, and the queue for its
//! frames.
#![tactic(auto)]

mod scan;
mod table;
mod waiting;
mod waits;

pub use waiting::{Destination, On, Waiting, Want};
pub use waits::Waits;
