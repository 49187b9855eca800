//! The address maps of tasks: which range of a task's addresses stands for which pages of a region.
#![tactic(auto)]

mod change;
mod judge;
mod maps;
mod place;
mod rewrite;
mod search;
mod setting;

pub use change::{MapChange, MapKind};
pub use maps::Maps;
pub use place::Place;
pub use search::entry_at;
