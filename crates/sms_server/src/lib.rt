//! The shared memory server: what it answers to the kernels of all hosts, for the pages of all shared
//! objects.
#![tactic(auto)]

mod law;
mod page_row;
mod rows;
mod server;
mod telling;

pub use law::answers_are_legal;
pub use page_row::PageRow;
pub use server::Server;
