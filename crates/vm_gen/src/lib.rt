//! Scripts that are made of a number: six tasks on three hosts, which share one object and have memory of
//! their own, and do what a generator's words say.
#![tactic(auto)]

mod drawn;
mod made;
mod opening;

pub use made::make_script;
