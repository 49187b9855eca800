//! Sets of pages, and the places of pages in a list, by groups of 64 pages of an object.
#![tactic(auto)]

mod group_key;
mod page_groups;
mod page_places;

pub use page_groups::PageGroups;
pub use page_places::{ALL, PagePlaces, Place, Walk};
