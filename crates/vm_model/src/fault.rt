// Why a script is refused.
ghost use Rattle.std.specs.Prelude.{◌≡◌};
ghost use Rattle.vm_model.specs.Fault.{fault_number};

/// What is wrong with a line of a script. The numbers are this profile's.
#[derive(Clone, Copy, Debug, PartialEq, Eq)]
pub enum ScriptFault {
    /// The script has more bytes or more lines than a script may have.
    TooLong,
    /// A word isn't one of those that may stand in its place.
    UnknownWord,
    /// A number or bytes are not spelled as such, or the number needs more than 64 bits.
    BadNumber,
    /// The line has another number of words than its form.
    WrongCount,
    /// A field is outside its range.
    OutOfRange,
    /// A header line stands behind a command, or a second time where it may stand once.
    HeaderLate,
    /// The line with the hosts is missing in front of this one.
    NoHosts,
}

impl ScriptFault {
    /// The number that the answer to a faulty script has for the fault.
    pub fn number(self) -> u32
        ensures { result ≡ fault_number self }
    {
        match self {
            ScriptFault::TooLong => 1,
            ScriptFault::UnknownWord => 2,
            ScriptFault::BadNumber => 3,
            ScriptFault::WrongCount => 4,
            ScriptFault::OutOfRange => 5,
            ScriptFault::HeaderLate => 6,
            ScriptFault::NoHosts => 7,
        }
    }
}
