// The parts of a host's kernel.

use std::alloc::Global;
use vm_base::{HostId, PageSize};
use vm_copies::Copies;
use vm_maps::Maps;
use vm_model::Declarations;
use vm_pageout::Laundry;
use vm_parts::HostParts;
use vm_shadow::Chains;
use vm_waits::Waits;

#[derive(Drop)]
pub struct Parts {
    pub alloc: Global,
    pub host: HostId,
    pub size: PageSize,
    // The declared objects, by their numbers.
    pub declared: Declarations,
    pub memory: HostParts,
    pub maps: Maps,
    pub chains: Chains,
    pub copies: Copies,
    pub laundry: Laundry,
    pub waits: Waits,
}
