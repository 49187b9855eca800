// What the directory notes of each host, and of each that wants the page.
ghost use Rattle.std.specs.Prelude.{◌≡◌, ◌<◌, true, false};
ghost use Rattle.vm_base.specs.Limits.{most_hosts};
ghost use Rattle.vm_model.specs.Server.{wants_write};
ghost use Rattle.sms_pages.specs.Directory.{wanted_access};

use std::marker::Model;
use vm_base::{Access, HostId};

/// What a host holds of the page.
#[derive(Clone, Copy, Debug, PartialEq, Eq)]
pub struct Holding(u8);

impl Model for Holding {
    ghost use Rattle.std.specs.Prelude.{ℕ};

    ghost Value = { ℕ };

    ghost view = { λ h. h.0 };

    ghost inverse = { λ n. record { 0 = n } };
}

impl Holding {
    /// No access of the page is granted to it.
    pub const NOTHING: Holding = Holding(0);

    /// It may read the page; several hosts may at a time.
    pub const READ: Holding = Holding(1);

    /// It may read and write the page, as one host alone may at a time.
    pub const WRITE: Holding = Holding(2);
}

/// The lock for which a host is awaited.
#[derive(Clone, Copy, Debug, PartialEq, Eq)]
pub struct Recall(u8);

impl Model for Recall {
    ghost use Rattle.std.specs.Prelude.{ℕ};

    ghost Value = { ℕ };

    ghost view = { λ r. r.0 };

    ghost inverse = { λ n. record { 0 = n } };
}

impl Recall {
    /// None: the host is not awaited.
    pub const NONE: Recall = Recall(0);

    /// A lock that prohibits writing, after which the host holds no more than Read.
    pub const CLEAN: Recall = Recall(1);

    /// A lock that flushes, after which the host holds nothing.
    pub const FLUSH: Recall = Recall(2);
}

/// One that wants the page: a request, or the upgrade of a host that can read it.
#[derive(Clone, Copy, Drop)]
pub struct Wish {
    host: HostId,
    upgrade: bool,
    access: u32,
}

impl Model for Wish {
    ghost use Rattle.std.specs.Prelude.{◌<◌};
    ghost use Rattle.vm_base.specs.Limits.{most_hosts};
    ghost use Rattle.vm_model.specs.Server.{Wanting};

    ghost Value = { Wanting };

    ghost view = { λ w. record { host = w.host.0; upgrade = w.upgrade; access = w.access } };

    ghost invariant = { λ w. w.host.0 < most_hosts };

    ghost inverse = { λ v. record { host = record { 0 = v.host }; upgrade = v.upgrade; access = v.access } };
}

impl Wish {
    /// A request of the host.
    pub fn request(host: HostId, access: Access) -> Wish
        requires { host.0 < most_hosts }
        ensures { result ≡ record { host = host.0; upgrade = false; access = wanted_access access } }
    {
        let access = match access {
            Access::Load => 1,
            Access::Store => 3,
        };
        Wish {
            host,
            upgrade: false,
            access,
        }
    }

    /// An upgrade of the host.
    pub fn upgrade(host: HostId) -> Wish
        requires { host.0 < most_hosts }
        ensures { result ≡ record { host = host.0; upgrade = true; access = 3 } }
    {
        Wish {
            host,
            upgrade: true,
            access: 3,
        }
    }

    /// The host that wants the page.
    pub fn host(&self) -> HostId
        ensures same { result.0 ≡ self.now.host }
        ensures below { result.0 < most_hosts }
    {
        self.host
    }

    /// Whether it is an upgrade.
    pub fn is_upgrade(&self) -> bool
        ensures { result ≡ self.now.upgrade }
    {
        self.upgrade
    }

    /// Whether it wants to write.
    pub fn writes(&self) -> bool
        ensures { result ≡ wants_write self.now }
    {
        self.upgrade || self.access == 3
    }
}

/// What the turn of the one in front comes to.
#[derive(Clone, Copy, Debug, PartialEq, Eq)]
pub enum Turn {
    /// It leaves without a word: an upgrade whose host no longer holds Read.
    Leaves,
    /// Holders are recalled.
    Recalls,
    /// An awaited host hasn't answered yet.
    Waits,
    /// It gets what it wants.
    Grants,
}
