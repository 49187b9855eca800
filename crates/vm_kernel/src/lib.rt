//! The kernel of one host: its tasks, regions, objects and pages, and what each command does to them.
#![tactic(auto)]

mod access;
mod attempt;
mod breadth;
mod building;
mod caching;
mod changes;
mod copying;
mod counting;
mod delaying;
mod destroying;
mod dropping;
mod forking;
mod freeing;
mod kernel;
mod mapping;
mod merging;
mod obeying;
mod others;
mod parts;
mod refusing;
mod reserving;
mod running;
mod serving;
mod slow;
mod sweeping;
mod taking;

pub use breadth::Breadth;
pub use changes::{enter, inheritance, protection, removal};
pub use kernel::Kernel;
pub use others::others_leave_the_kernel;
