// Why a step isn't made.
use vm_base::NoMemory;

/// Why a step isn't made.
#[derive(Clone, Copy, Debug, PartialEq, Eq)]
pub enum SystemStop {
    /// The history has 200,000 events or more.
    EventLimit,
    /// No memory was there.
    NoMemory,
}

impl From<NoMemory> for SystemStop {
    ghost use Rattle.std.specs.Prelude.{◌≡◌};
    ghost use Rattle.vm_system.specs.declared.stop.SystemStop.TheVariants.{NoMemory};

    ghost from_gives = { λ none stop. stop ≡ NoMemory };

    fn from(none: NoMemory) -> SystemStop {
        let NoMemory = none;
        SystemStop::NoMemory
    }
}
