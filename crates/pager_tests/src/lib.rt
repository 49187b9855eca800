//! Calls of the pagers and their slots, the server's directory and the page world: they are proved to be made as they may be, and run.
//! They stand in a crate of their own, since a crate with tests is proved twice.
#![tactic(auto)]

#[cfg(test)]
mod default_pager;
#[cfg(test)]
mod directory;
#[cfg(test)]
mod file_pager;
#[cfg(test)]
mod pages;
#[cfg(test)]
mod shows;
#[cfg(test)]
mod slots;
#[cfg(test)]
mod world;
