//! What a host does with the answers of a pager: it is ready, it supplies a page, it has none, or it
//! can't give it.
#![tactic(auto)]

mod answers;
mod states;
mod woken;

pub use answers::answer;
pub use woken::Woken;
