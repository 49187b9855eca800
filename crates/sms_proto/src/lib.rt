//! The world of one shared page: up to eight hosts, one server, and every order of their messages.
#![tactic(auto)]

mod kernel;
mod letter;
mod moves;
mod orders;
mod posting;
mod serve;
mod stage;
mod step;
mod world;

pub use step::WorldStep;
pub use world::World;
