//! The table of a host's resident pages: a row for each, found by the page or by its frame.
#![tactic(auto)]

mod frame_owners;
mod page_row;
mod resident;
mod resident_page;

pub use page_row::PageRow;
pub use resident::Resident;
