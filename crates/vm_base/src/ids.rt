// The names of things, each a number of its own kind.
ghost use Rattle.std.specs.Prelude.{◌≡◌, ◌+◌, ◌*◌, ◌^◌};
ghost use Rattle.std.specs.Cmp.Rules.{hashing};
ghost use Rattle.std.specs.Hash as fed;
ghost use Rattle.std.proofs.Common.{rules};

use std::hash::{Hash, Hasher};

/// A host, from 0 on.
#[derive(Clone, Copy, Debug, PartialEq, Eq, PartialOrd, Ord, Hash)]
pub struct HostId(pub u32);

/// A task, by the number that the script gives it, which may be given again when the task has ended.
#[derive(Clone, Copy, Debug, PartialEq, Eq, PartialOrd, Ord, Hash)]
pub struct TaskId(pub u32);

/// A memory object: the declared ones first, then the temporary ones as they are made.
#[derive(Clone, Copy, Debug, PartialEq, Eq, PartialOrd, Ord, Hash)]
pub struct ObjectId(pub u32);

/// A region: the whole of each declared object first, then the others as they are made.
#[derive(Clone, Copy, Debug, PartialEq, Eq, PartialOrd, Ord, Hash)]
pub struct RegionId(pub u32);

/// A channel of messages, in the order in which channels are made.
#[derive(Clone, Copy, Debug, PartialEq, Eq, PartialOrd, Ord, Hash)]
pub struct ChannelId(pub u32);

/// A page of an object, or of a region: the offset divided by the page size.
#[derive(Clone, Copy, Debug, PartialEq, Eq, PartialOrd, Ord, Hash)]
pub struct PageNo(pub u32);

/// A page frame of a host.
#[derive(Clone, Copy, Debug, PartialEq, Eq, PartialOrd, Ord, Hash)]
pub struct FrameNo(pub u32);

/// A page of an object.
#[derive(Clone, Copy, Debug, PartialEq, Eq, PartialOrd, Ord)]
pub struct PageKey {
    pub object: ObjectId,
    pub page: PageNo,
}

// Both numbers are hashed at once, since tables of pages are asked several times in each step.
impl Hash for PageKey {
    ghost hash_input = { λ key. fed.u64 (2 ^ 32 * key.object.0 + key.page.0) };

    ghost respects_eq = { Prim.search (hashing, rules) };

    fn hash<H: Hasher>(&self, state: &mut H) {
        state.write_u64(joined(self.object.0, self.page.0));
    }
}

/// Two numbers as one, the first the higher half: what a key of two numbers gives a hash.
pub fn joined(high: u32, low: u32) -> u64
    ensures { result ≡ 2 ^ 32 * high + low }
{
    0x1_0000_0000 * u64::from(high) + u64::from(low)
}

/// What an access does to a page. A slow copy loads each page of its source.
#[derive(Clone, Copy, Debug, PartialEq, Eq)]
pub enum Access {
    Load,
    Store,
}

/// What an entry allows: the `vm_prot_t` of the Mach 3 kernel interfaces, without execution. A load
/// needs `read`, a store `write`.
#[derive(Clone, Copy, Debug, PartialEq, Eq)]
pub struct Prot {
    pub read: bool,
    pub write: bool,
}

/// The accesses that a page's pager prohibits on a host: the `lock_value` of the Mach 3 kernel
/// interfaces, without execution. A load is prohibited by `read`, a store by either.
#[derive(Clone, Copy, Debug, PartialEq, Eq)]
pub struct Lock {
    pub read: bool,
    pub write: bool,
}

/// What a forked task gets of an entry: the `vm_inherit_t` of the Mach 3 kernel interfaces.
#[derive(Clone, Copy, Debug, PartialEq, Eq)]
pub enum Inherit {
    /// An entry on the same region.
    Share,
    /// An entry on a copy.
    Copy,
    /// Nothing.
    Never,
}

/// Who keeps an object's pages: its pager.
#[derive(Clone, Copy, Debug, PartialEq, Eq)]
pub enum ObjectKind {
    /// The default pager.
    Temp,
    /// The file pager.
    File,
    /// The shared memory server.
    Shared,
    /// The script itself.
    Wild,
}
