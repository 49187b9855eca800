// The cases of a lock request at a page.

/// Which pages a lock request asks back.
///
/// The return kinds of memory_object_lock_request in "Mach 3 Kernel Interfaces": none, dirty and all.
#[derive(Clone, Copy, Debug, PartialEq, Eq)]
pub enum Returns {
    Nothing,
    /// The pages that were stored to.
    Dirty,
    /// The pages that were stored to, and those that the pager called precious.
    All,
}

/// What a lock request asks for, and what the page that it meets is like.
#[derive(Clone, Copy, Debug, PartialEq, Eq)]
pub struct LockCase {
    pub returns: Returns,
    /// Whether the page is to go.
    pub flush: bool,
    pub dirty: bool,
    pub precious: bool,
}

/// What becomes of the page.
#[derive(Clone, Copy, Debug, PartialEq, Eq)]
pub struct LockAct {
    /// Whether its bytes go to the pager.
    pub give_back: bool,
    /// Whether the host has the page no longer.
    pub remove: bool,
}

/// A case, and what becomes of the page in it.
#[derive(Clone, Copy, Debug, PartialEq, Eq)]
pub struct LockRow {
    pub case: LockCase,
    pub act: LockAct,
}
