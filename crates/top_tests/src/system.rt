// Each call once, on a host of four frames where nothing is on its way.
ghost use Rattle.std.specs.Prelude.{◌≡◌, ℕ, IfOk, List, []};
ghost use Rattle.vm_kernel.specs.Matches.{IsRanged};
ghost use Rattle.vm_outside.specs.Areas.{Told};
ghost use Rattle.vm_system.specs.Backed.{BackingsFit};
ghost use Rattle.vm_system.specs.Stands.{SystemStands};
ghost use Rattle.vm_system.specs.Steps.{Setting};

use crate::shows::{leave, shows};
use std::alloc::Global;
use std::test::Fail;
use vm_base::PageSize;
use vm_model::{Command, Counts, Declarations, Header};
use vm_outside::{Armed, Backing, SureBacking};
use vm_system::{System, SystemStop, settle};

fn header_of(alloc: Global, frames: u32) -> Result<Header, Fail>
    ensures ranged { IfOk result (λ header. IsRanged header) }
    ensures bare { IfOk result (λ header. header.objects.items ≡ []) }
    ensures slots { IfOk result (λ header. header.slots ≡ 1) }
{
    let size = PageSize::of(16).ok_or("16 is a page size")?;
    let mut counts = Counts::new(alloc);
    counts.push(frames)?;
    Ok(Header {
        size,
        slots: 1,
        frames: counts,
        objects: Declarations::new(alloc),
    })
}

// What three calls answer: the events of the step, whether a message was taken, and how many were.
fn settle_all(
    header: &Header,
    system: &mut System,
    files: &mut Armed<SureBacking>,
    paging: &mut Armed<SureBacking>,
) -> Result<(u32, bool, u32), SystemStop>
    ghost given: { Setting }
    requires header { given.header ≡ header.now }
    requires stands { SystemStands given.header given.outside system.old }
    requires backings { (start : List ℕ → Told) × BackingsFit given.header given.outside start (⟦<SureBacking as Backing>⟧.area files.old.inner)
        (⟦<SureBacking as Backing>⟧.area paging.old.inner) system.old }
{
    let command = Command::Settle { count: 2 };
    let events = system.step(1, &command, files, paging)?;
    let (took, taken) = take_all(system, files, paging)?;
    Ok((events, took, taken))
}

// What the last two of them answer.
fn take_all(
    system: &mut System,
    files: &mut Armed<SureBacking>,
    paging: &mut Armed<SureBacking>,
) -> Result<(bool, u32), SystemStop>
    ghost given: { Setting }
    requires stands { SystemStands given.header given.outside system.old }
    requires backings { (start : List ℕ → Told) × BackingsFit given.header given.outside start (⟦<SureBacking as Backing>⟧.area files.old.inner)
        (⟦<SureBacking as Backing>⟧.area paging.old.inner) system.old }
{
    let took = system.take_oldest(files, paging)?;
    let taken = settle(system, 1, files, paging)?;
    Ok((took, taken))
}

#[test]
fn each_call(rt: HostRuntime) -> Result<(), Fail> {
    let header = header_of(rt.alloc(), 4)?;
    let mut files = Armed::new(SureBacking::new(rt.alloc()));
    let mut paging = Armed::new(SureBacking::new(rt.alloc()));
    let mut system = System::new(rt.alloc(), &header)?;
    let answers = settle_all(&header, &mut system, &mut files, &mut paging);
    shows(&rt, answers == Ok((1, false, 0)));
    shows(&rt, system.history().len() == 1);
    let history = system.into_history();
    shows(&rt, history.len() == 1);
    leave(history);
    leave(files);
    leave(paging);
    Ok(())
}
