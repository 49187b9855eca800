//! The orders of the accesses of a script's free part, and the outcomes of runs of them.
#![tactic(auto)]

mod counts;
mod levels;
mod outcomes;

pub use counts::{Row, Table};
pub use levels::{count_orders, orders};
pub use outcomes::outcome;
