// Why a command is refused.
ghost use Rattle.std.specs.Prelude.{◌≡◌};
ghost use Rattle.vm_base.specs.Code.{code_number};

/// A refusal, in the order of its number. The numbers up to 10 are named after the manual of the
/// Mach 3 kernel interfaces; those from 101 on are this profile's.
#[derive(Clone, Copy, Debug, PartialEq, Eq)]
pub enum Code {
    /// No entry holds the access, the range isn't wholly mapped, or a copy's source isn't inside
    /// one entry (KERN_INVALID_ADDRESS).
    InvalidAddress,
    /// The entry doesn't allow the access (KERN_PROTECTION_FAILURE).
    ProtectionFailure,
    /// The new range isn't free (KERN_NO_SPACE).
    NoSpace,
    /// A number of the command is outside what the command can do (KERN_INVALID_ARGUMENT).
    InvalidArgument,
    /// More frames are wanted than are free (KERN_RESOURCE_SHORTAGE).
    ResourceShortage,
    /// The acting or the receiving task has a waiting access.
    Blocked,
    /// The channel is empty.
    EmptyPort,
    /// The task doesn't live, the channel was never made, or the host has no live control.
    NoSuchName,
    /// The new task's number lives.
    NameTaken,
    /// The file object belongs to another host.
    WrongHost,
    /// A table would hold more than it may.
    TableFull,
}

impl Code {
    /// The number that a history and its text have for the refusal.
    pub fn number(self) -> u32
        ensures { result ≡ code_number self }
    {
        match self {
            Code::InvalidAddress => 1,
            Code::ProtectionFailure => 2,
            Code::NoSpace => 3,
            Code::InvalidArgument => 4,
            Code::ResourceShortage => 6,
            Code::Blocked => 101,
            Code::EmptyPort => 102,
            Code::NoSuchName => 103,
            Code::NameTaken => 104,
            Code::WrongHost => 105,
            Code::TableFull => 106,
        }
    }
}
