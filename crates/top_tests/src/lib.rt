//! Calls of the kernel, the system and the top call: they are proved to be made as they may be, and run. They stand in a crate of their
//! own, since a crate with tests is proved twice.
#![tactic(auto)]

#[cfg(test)]
mod kernel;
#[cfg(test)]
mod runs;
#[cfg(test)]
mod shows;
#[cfg(test)]
mod system;
