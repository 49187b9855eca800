//! The paging slots of a host's default pager: which page is in which slot, and the bytes over a
//! backing.
#![tactic(auto)]

mod answers;
mod free_slots;
mod rows;
mod slot_row;
mod slots;

pub use answers::{Got, Put};
pub use slot_row::Held;
pub use slots::Slots;
