// A whole script.
use crate::{Commands, Counts, Declarations, Name};
use vm_base::{ObjectKind, PageSize};

/// An object that a header line declares, with its number of pages.
#[derive(Clone, Copy, Drop)]
pub struct Declared {
    pub name: Name,
    pub kind: ObjectKind,
    pub pages: u32,
}

/// What stands before the first command: the page size, the paging slots of each host, the frames
/// of each host, and the declared objects.
#[derive(Drop)]
pub struct Header {
    pub size: PageSize,
    pub slots: u32,
    pub frames: Counts,
    pub objects: Declarations,
}

/// A script that was read. `lines` is the number of its lines, also the blank ones and comments.
#[derive(Drop)]
pub struct Script {
    pub header: Header,
    pub commands: Commands,
    pub lines: u32,
}
