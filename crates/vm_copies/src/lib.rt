//! Which memory objects of one host are copy objects, which of them is the newest of each source, and
//! which pages each has had of its own.
#![tactic(auto)]

mod copies;
mod copy_object;

pub use copies::Copies;
