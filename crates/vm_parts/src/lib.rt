//! The parts of a host in which its pages are: frames, resident pages, page queues, memory objects and
//! page buffers.
//!
//! A page comes, is asked for, is filled, is written, is copied up a chain, is locked, moves to another
//! object, and leaves. Each of these calls takes the parts as they fit each other, and leaves them so.
#![tactic(auto)]

mod leaving;
mod locking;
mod moving;
mod pages;
mod parts;
mod raising;

pub use locking::lock_of;
pub use parts::HostParts;
