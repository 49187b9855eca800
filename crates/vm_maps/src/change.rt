// What is to be done to a task's entries.
use vm_base::{Entry, Inherit, Prot};

/// The call of the Mach 3 kernel interfaces that a change is for.
#[derive(Clone, Copy, Debug, PartialEq, Eq)]
pub enum MapKind {
    /// `vm_allocate` or `vm_map`: a new entry.
    Enter,
    /// `vm_deallocate`: what lies in the range is unmapped.
    Remove,
    /// `vm_protect`: what lies in the range gets a protection.
    Protect,
    /// `vm_inherit`: what lies in the range gets an inheritance.
    Inherit,
}

/// A change of the range of `bytes` bytes from `address` on.
///
/// Only an Enter reads `entry`, only a Protect reads `prot`, and only an Inherit reads `inherit`.
#[derive(Clone, Copy, Debug, PartialEq, Eq)]
pub struct MapChange {
    pub kind: MapKind,
    pub address: u64,
    pub bytes: u64,
    pub entry: Option<Entry>,
    pub prot: Prot,
    pub inherit: Inherit,
}
