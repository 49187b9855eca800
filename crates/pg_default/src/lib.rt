//! The default pager of a host: what it answers to the messages of the kernel, over the paging slots.
#![tactic(auto)]

mod law;
mod pager;
mod telling;

pub use law::answers_are_legal;
pub use pager::DefaultPager;
