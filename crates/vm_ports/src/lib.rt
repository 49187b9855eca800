//! The ports of a run: channels of messages, and the order in which the undelivered ones were sent.
#![tactic(auto)]

mod letter;
mod links;
mod node;
mod ports;

pub use letter::{Letter, SendBack};
pub use node::Node;
pub use ports::Ports;
