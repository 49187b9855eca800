//! The pager of a file: what it answers to the messages of a kernel, over a backing of files.
#![tactic(auto)]

mod found;
mod law;
mod lost;
mod pager;
mod telling;

pub use law::answers_are_legal;
pub use pager::{FilePager, KnownControl};
