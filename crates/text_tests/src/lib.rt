//! The reading of scripts and the texts of events, against texts worked out by hand. They stand in a crate of their own, since a crate with
//! tests is proved twice.
#![tactic(auto)]

#[cfg(test)]
mod scripts;
#[cfg(test)]
mod shows;
#[cfg(test)]
mod staying;
#[cfg(test)]
mod texts;
