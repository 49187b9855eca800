//! Messages, events and commands, the lists of them, and the definitions of what a legal history is.
#![tactic(auto)]

mod command;
mod copies;
mod event;
mod fault;
pub mod limits;
mod message;
mod name;
mod script;

pub use command::{Command, Numbered};
pub use event::{Device, Event, Way};
pub use fault::ScriptFault;
pub use message::{Channel, Message};
pub use name::Name;
pub use script::{Declared, Header, Script};
use vm_base::Listing;

/// The events of a run, in the order in which they came.
pub type History = Listing<Event>;

/// The events of one call, in the order in which they came.
pub type Events = Listing<Event>;

/// The commands of a script, in the order of their lines.
pub type Commands = Listing<Numbered>;

/// A number for each host, from host 0 on.
pub type Counts = Listing<u32>;

/// The declared objects, from object 0 on.
pub type Declarations = Listing<Declared>;
