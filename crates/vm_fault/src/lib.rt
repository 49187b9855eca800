//! Page faults: what a load or a store comes to each time that it is run, over the shadow chains of a
//! host, for objects of any kind, and with page locks.
#![tactic(auto)]

mod ending;
mod faults;
mod going;
mod pushing;
mod running;
mod shadowing;
mod sources;
mod step;
mod walking;

pub use faults::fault;
pub use sources::source;
pub use step::FaultStep;
pub use vm_waits::Want;
