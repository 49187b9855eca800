// What is kept of a resident page.
ghost use Rattle.std.specs.Prelude.{◌≡◌};
ghost use Rattle.vm_resident.specs.Resident.{is_noted};

use vm_base::{FrameNo, Lock};

/// What a host keeps of a resident page of an object.
///
/// The words are those of the Mach 3 Kernel Interfaces: `lock` holds the accesses that the page's
/// manager prohibits, `dirty` is set where the bytes were changed since the manager gave them, and
/// `precious` where it wants them back unchanged too. In this profile `here` is set once the bytes
/// are in the frame, and `unlock_sent` while the manager is asked to lift the lock.
#[derive(Clone, Copy, Debug, PartialEq, Eq)]
pub struct PageRow {
    pub frame: FrameNo,
    pub lock: Lock,
    pub dirty: bool,
    pub precious: bool,
    pub here: bool,
    pub unlock_sent: bool,
}

impl PageRow {
    /// Whether anything is noted of the page: that it is dirty or precious, or that its manager is asked
    /// to lift the lock.
    pub fn is_noted(&self) -> bool
        ensures { result ≡ is_noted self.now }
    {
        self.dirty || self.precious || self.unlock_sent
    }
}
