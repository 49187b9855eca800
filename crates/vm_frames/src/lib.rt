//! The page frames of a host: which are claimed, how many are wired, and the bytes of each.
#![tactic(auto)]

mod frames;

pub use frames::Frames;
