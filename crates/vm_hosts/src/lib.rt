//! The kernels of all hosts: a command runs on the host that it acts on, and at a step's end every host serves its frame queue, by
//! rising number.
#![tactic(auto)]

mod hosts;

pub use hosts::Hosts;
