//! The free part of a script and what is told of it: its accesses, the scripts of its orders, and the
//! text of an exploration.
#![tactic(auto)]

mod explored;
mod parts;
mod rendering;
mod scripts;

pub use explored::{Explored, Hindrance, Stop};
pub use parts::{
    FreeAccess, accesses, first_other, last_line_of, lines_of, loads_of, setup_of, tasks_of,
};
pub use rendering::{explored_text, hindrance_text};
pub use scripts::Lines;
