// What may happen next in the world.
use vm_base::HostId;

/// A step of the world. One that isn't possible changes nothing.
#[derive(Clone, Copy, Debug, PartialEq, Eq)]
pub enum WorldStep {
    /// The host's task begins a load of eight bytes at the page's front. Possible where the host has
    /// no access that waits.
    Load { host: HostId },
    /// The host's task begins a store of the value in eight bytes at the page's front. Possible where
    /// the host has no access that waits.
    Store { host: HostId, value: u64 },
    /// The host gives the page up: drops it, or returns it if it has something unsaved. Possible where
    /// the page is here and the host has no access that waits.
    Evict { host: HostId },
    /// The host gives the page up, if it is here, and ends its control. Possible where it has a
    /// control and no access that waits.
    Leave { host: HostId },
    /// The server takes the oldest message of the host. Possible where there is one.
    TakeUp { host: HostId },
    /// The host takes the oldest message to its control. Possible where it has a control and there is
    /// one.
    TakeDown { host: HostId },
}
