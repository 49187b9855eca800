//! Calls of what stands outside: adapters over std, folders, backings and streams that fail. They stand in a crate of their own, since a
//! crate with tests is proved twice, and apart from other tests, since a proof is slower where a process has more libraries.
#![tactic(auto)]

#[cfg(test)]
mod folder;
#[cfg(test)]
mod outside;
#[cfg(test)]
mod shows;
