//! The call that does all that the program does: it reads a script, runs it, and writes its history.
#![tactic(auto)]

mod reading;
mod render;
mod run;
mod summary;
mod top;
mod words;

pub use reading::{ReadStop, read_all};
pub use render::bad_text;
pub use top::{Outcome, Status, pagers_main};
