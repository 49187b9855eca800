//! Reclaiming a page of a host, and the laundry: the frames of pages on their way to their pagers.
#![tactic(auto)]

mod answer;
mod laundry;
mod reclaiming;

pub use answer::Reclaim;
pub use laundry::Laundry;
pub use reclaiming::{reclaim, reclaim_page};
