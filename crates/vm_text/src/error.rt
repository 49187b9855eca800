// Why a script was not read.
ghost use Rattle.std.specs.Prelude.{◌≡◌};
ghost use Rattle.vm_text.specs.declared.error.LineStop.TheVariants.{NoMemory, Fault};

use std::alloc::{AllocError, AllocFailed};
use vm_model::ScriptFault;

/// Why a script was not read: the first line that is no line of a script and what is wrong with it,
/// or that no memory was there. Lines are counted from 1 on; line 0 stands for the whole script.
#[derive(Clone, Copy, Debug, PartialEq, Eq)]
pub enum ScriptError {
    Bad { line: u32, kind: ScriptFault },
    NoMemory,
}

/// Why a line was not read.
#[derive(Clone, Copy, Debug, PartialEq, Eq)]
pub enum LineStop {
    Fault(ScriptFault),
    NoMemory,
}

impl From<ScriptFault> for LineStop {
    ghost use Rattle.vm_text.specs.declared.error.LineStop.TheVariants.{Fault};

    ghost from_gives = { λ fault stop. stop ≡ Fault fault };

    fn from(fault: ScriptFault) -> LineStop {
        LineStop::Fault(fault)
    }
}

impl From<vm_base::NoMemory> for LineStop {
    ghost from_gives = { λ _ stop. stop ≡ NoMemory };

    fn from(_: vm_base::NoMemory) -> LineStop {
        LineStop::NoMemory
    }
}

impl From<AllocError> for LineStop {
    ghost from_gives = { λ _ stop. stop ≡ NoMemory };

    fn from(_: AllocError) -> LineStop {
        LineStop::NoMemory
    }
}

impl<T: Drop> From<AllocFailed<T>> for LineStop {
    ghost from_gives = { λ _ stop. stop ≡ NoMemory };

    fn from(_: AllocFailed<T>) -> LineStop {
        LineStop::NoMemory
    }
}
