//! The whole system: the kernels of the hosts, their default pagers, the channels between them, and the history.
#![tactic(auto)]

mod channels;
mod committing;
mod refusing;
mod running;
mod settling;
mod state;
mod stepping;
mod stop;
mod system;
mod taking;

pub use settling::settle;
pub use stop::SystemStop;
pub use system::System;
