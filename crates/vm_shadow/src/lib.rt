//! The regions of a host, each over the object on top of its shadow chain, and the shadows of the chains.
#![tactic(auto)]

mod chains;
mod ids;
mod region_row;
mod shadow_row;
mod tallies;
mod tally;

pub use chains::Chains;
pub use ids::Ids;
pub use region_row::RegionRow;
pub use shadow_row::ShadowRow;
use tallies::Tallies;
use tally::Tally;
