// A settle's takings.
ghost use Rattle.std.specs.Prelude.{◌≡◌, ◌≢◌, ◌+◌, ◌<◌, ◌≤◌, ℕ, List, [], IfOk, IsErrOf, OnErr, OnOk, length};
ghost use Rattle.vm_model.specs.Limits.{most_events};
ghost use Rattle.vm_model.specs.declared.event.Device.TheVariants as device;
ghost use Rattle.vm_outside.specs.Areas.{Told};
ghost use Rattle.vm_legal.specs.Steps.{takings};
ghost use Rattle.vm_legal.specs.Undelivered.{undelivered};
ghost use Rattle.vm_hosts.specs.Steps.{Step};
ghost use Rattle.vm_system.specs.Backed.{BackingWent, BackingsFit};
ghost use Rattle.vm_system.specs.Resting.{LeavesAtRest};
ghost use Rattle.vm_system.specs.Settling.{HasLeft, StaysOpen};
ghost use Rattle.vm_system.specs.Stands.{SystemStands};
ghost use Rattle.vm_system.specs.Steps.{GrowsWithinLimit};

use crate::stop::SystemStop;
use crate::system::System;
use vm_outside::{Armed, Backing};

/// Takes up to `n` messages, each time the undelivered one that was sent first, in the step of a
/// settle, and gives how many it took: fewer than `n` only where nothing is undelivered any more.
///
/// `EventLimit` comes exactly where fewer than `n` were taken, something is undelivered and the
/// history has 200,000 events or more. At an error the takings in front of it stand: after `NoMemory` the system is as before
/// the taking that wanted memory, and may be settled further.
pub fn settle<F: Backing, P: Backing>(
    system: &mut System,
    n: u32,
    files: &mut Armed<F>,
    paging: &mut Armed<P>,
) -> Result<u32, SystemStop>
    ghost given: { Step }
    requires stands { SystemStands given.header given.outside system.old }
    requires backings { (start : List ℕ → Told) × BackingsFit given.header given.outside start (F.area files.old.inner) (P.area paging.old.inner) system.old }
    requires left { HasLeft given.command n system.old.history.items }
    ensures stands { OnOk result (SystemStands given.header given.outside system.new) }
    ensures legal { OnOk result (StaysOpen given.header given.outside given.command system.old.history.items system.new.history.items) }
    ensures rests { OnOk result (LeavesAtRest given.header system.old.history.items system.new.history.items) }
    ensures count { IfOk result (λ taken. takings system.new.history.items ≡ takings system.old.history.items + taken) }
    ensures few { IfOk result (λ taken. taken ≤ n) }
    ensures quiet { IfOk result (λ taken. taken < n → undelivered system.new.history.items ≡ []) }
    ensures grew { GrowsWithinLimit system.old.history.items system.new.history.items }
    ensures full { IsErrOf result SystemStop.EventLimit → (most_events ≤ length system.new.history.items) × (undelivered system.new.history.items ≢ []) }
    ensures left { IsErrOf result SystemStop.EventLimit → takings system.new.history.items < takings system.old.history.items + n }
    ensures stood { OnErr result (SystemStands given.header given.outside system.new
        × StaysOpen given.header given.outside given.command system.old.history.items system.new.history.items
        × LeavesAtRest given.header system.old.history.items system.new.history.items) }
    ensures backings { (start : List ℕ → Told) → BackingsFit given.header given.outside start (F.area files.old.inner) (P.area paging.old.inner) system.old
        → BackingsFit given.header given.outside start (F.area files.new.inner) (P.area paging.new.inner) system.new }
    ensures files_went { BackingWent device.Files (⟦<Armed<F> as Backing>⟧.later files.old files.new) (⟦<Armed<F> as Backing>⟧.faults files.old)
        (⟦<Armed<F> as Backing>⟧.faults files.new) system.old.history.items system.new.history.items }
    ensures paging_went { BackingWent device.Paging (⟦<Armed<P> as Backing>⟧.later paging.old paging.new) (⟦<Armed<P> as Backing>⟧.faults paging.old)
        (⟦<Armed<P> as Backing>⟧.faults paging.new) system.old.history.items system.new.history.items }
{
    'all: for taken in 0..n {
        match system.take_oldest(files, paging) {
            Ok(true) => {}
            Ok(false) => return Ok(taken),
            Err(stop) => return Err(stop),
        }
    }
    Ok(n)
}
