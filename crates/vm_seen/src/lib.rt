//! What stands at the end of a history: whether it goes on from another with a script's loads and stores
//! alone, in which order these ended, and with which values.
#![tactic(auto)]

mod begun;
mod commands;
mod ends;
mod header;
mod same;
mod waits;

pub use begun::goes_on;
pub use commands::same_commands;
pub use ends::{Loaded, loaded_behind, order_behind};
pub use header::{has_wild, same_header};
pub use same::begins_with;
pub use waits::{is_quiet, nobody_waits};
