//! What one host knows of each memory object: who keeps it, how far its pager is, how often it is
//! referred to, and which of its pages the pager is known not to have.
#![tactic(auto)]

mod holder;
mod objects;
mod row;

pub use holder::Holder;
pub use objects::Objects;
pub use row::{ObjectRow, PagerState};
