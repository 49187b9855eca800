//! Calls of the parts of a host: they are proved to be made as they may be, and run. They stand in a crate of their
//! own, since a crate with tests is proved twice.
#![tactic(auto)]

#[cfg(test)]
mod answers;
#[cfg(test)]
mod chains;
#[cfg(test)]
mod copies;
#[cfg(test)]
mod frames;
#[cfg(test)]
mod holding;
#[cfg(test)]
mod maps;
#[cfg(test)]
mod messages;
#[cfg(test)]
mod moving;
#[cfg(test)]
mod objects;
#[cfg(test)]
mod pageout;
#[cfg(test)]
mod ports;
#[cfg(test)]
mod queues;
#[cfg(test)]
mod resident;
#[cfg(test)]
mod shows;
#[cfg(test)]
mod tables;
#[cfg(test)]
mod told;
#[cfg(test)]
mod waits;
