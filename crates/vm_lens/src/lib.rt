//! The call that does all that the program `lens` does: it reads a script, runs each order of the loads and
//! stores behind its set-up, and writes what the loads give.
#![tactic(auto)]

mod exploring;
mod running;
mod top;

pub use top::{Outcome, Status, lens_main};
