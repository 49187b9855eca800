//! The text of scripts and of histories: scripts are read, events are written.
#![tactic(auto)]

mod channel;
mod commands;
mod error;
mod events;
mod fields;
mod heading;
mod hex;
mod lookup;
mod meaning;
mod messages;
mod names;
mod numbers;
mod reader;
mod room;
mod say;
mod terms;
mod words;
mod zeros;

pub use error::ScriptError;
pub use events::{put_event, write_event};
pub use fields::Line;
pub use numbers::{count_in, number_of};
pub use reader::read_script;
