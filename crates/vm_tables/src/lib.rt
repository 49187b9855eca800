//! The tables of what a kernel does with the messages of a pager: with a lock request at each page, by
//! the page's marks, and with each message, by the state of the page that it names.
#![tactic(auto)]

mod acts;
mod cases;
mod counting;
mod rows;

pub use acts::{Act, MESSAGE_ROWS, MessageKind, MessageTable, PageState, message_act};
pub use cases::{LockAct, LockCase, LockRow, Returns};
pub use rows::{LOCK_ROWS, covers, lock_act, lock_rows_cover, pick};
