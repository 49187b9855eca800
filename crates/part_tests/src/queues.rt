// Victims, worked out by hand.
ghost use Rattle.std.specs.Prelude.{◌≡◌, IfOk, true};
ghost use Rattle.vm_queues.specs.Queues.{is_queued};

use crate::shows::shows;
use std::alloc::Global;
use std::test::Fail;
use vm_base::FrameNo;
use vm_queues::{OnList, PageQueues};

// Active 0 1 2.
fn three(alloc: Global) -> Result<PageQueues, Fail>
    ensures { IfOk result (λ queues. (is_queued queues 0 ≡ true) × (is_queued queues 1 ≡ true)) }
{
    let mut queues = PageQueues::new(alloc, 3)?;
    queues.add(FrameNo(0));
    queues.add(FrameNo(1));
    queues.add(FrameNo(2));
    Ok(queues)
}

#[test]
fn second_chance(rt: HostRuntime) -> Result<(), Fail> {
    let mut queues = three(rt.alloc())?;
    // Active 1 2, inactive 0.
    queues.balance();
    queues.touch(FrameNo(0));
    // Active 2 0, inactive 1.
    shows(&rt, queues.victim(&[]) == Some(FrameNo(1)));
    shows(&rt, queues.victim(&[FrameNo(1)]) == Some(FrameNo(2)));
    Ok(())
}

#[test]
fn linked(rt: HostRuntime) -> Result<(), Fail> {
    let mut queues = three(rt.alloc())?;
    queues.remove(FrameNo(1));
    queues.stand_once();
    // Active 0 2.
    if let Some(link) = queues.links().first() {
        shows(
            &rt,
            link.list == OnList::Active && link.after == Some(FrameNo(2)),
        );
    }
    Ok(())
}
