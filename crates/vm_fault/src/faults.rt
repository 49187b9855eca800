// Page faults.
ghost use Rattle.std.specs.Prelude.{◌≡◌, Some, false, IfOk, IsOk, OnOk};
ghost use Rattle.vm_base.specs.Entries.{entry_at};
ghost use Rattle.vm_base.specs.declared.entry.Entry.{Entry as Row};
ghost use Rattle.vm_fault.specs.Faults.{CanFault, FaultState, Faulted, Runs};
ghost use Rattle.vm_fault.specs.Rooms.{HasRoom, TakesRoom};
ghost use Rattle.vm_frames.specs.Frames.{free};
ghost use Rattle.vm_maps.specs.Judge.{IsAllowed, place_at};
ghost use Rattle.vm_maps.specs.Maps.{rows_in};

use crate::going::go;
use crate::running::{Running, address_of, is_to_go_on, left_after, need_of, offset_of};
use crate::shadowing::prepare;
use crate::step::FaultStep;
use crate::walking::top_of;
use vm_base::{Access, HostId, NoMemory, TaskId};
use vm_copies::Copies;
use vm_maps::{Maps, Place};
use vm_model::Events;
use vm_parts::HostParts;
use vm_shadow::{Chains, Ids};
use vm_waits::Want;

/// Runs an access of a task, and says what it comes to: a load or a store once, a slow copy page by page
/// as long as its pages can be had. `want` then says what is left of a slow copy.
///
/// The messages are those of "Mach 3 Kernel Interfaces": a page that its pager may have is asked for by
/// memory_object_data_request, and the unlock of a page whose lock keeps the access out by
/// memory_object_data_unlock. Shadow chains follow Young's thesis (1989): a store in a region that has
/// the copy mark gives it an object of its own, and a store whose page is further down the chain writes
/// a copy of it; a store on a file's page that the file's newest copy object hasn't had puts a copy of
/// it there first. In this profile messages are about one page, and whoever asks for a page holds a
/// frame for it from then on. The log gets at most three events, and one for each page that a slow copy
/// copies. For each event it takes the room of one row of a page at most, and that of an object and a
/// shadow for a mark that goes. It fails for want of memory alone.
pub fn fault(
    host: HostId,
    task: TaskId,
    want: &mut Want,
    may_claim: bool,
    parts: &mut HostParts,
    chains: &mut Chains,
    copies: &mut Copies,
    maps: &Maps,
    ids: &mut Ids,
    log: &mut Events,
) -> Result<FaultStep, NoMemory>
    requires { CanFault maps.now
        (record { parts = parts.old; chains = chains.old; copies = copies.old; ids = ids.old; events = log.old.items }) task.0 want.old }
    ensures runs { IfOk result (λ answer. Runs maps.now host task may_claim answer want.old want.new
        (record { parts = parts.old; chains = chains.old; copies = copies.old; ids = ids.old; events = log.old.items })
        (record { parts = parts.new; chains = chains.new; copies = copies.new; ids = ids.new; events = log.new.items })) }
    ensures still { OnOk result (may_claim ≡ false → free parts.new.frames ≡ free parts.old.frames) }
    ensures takes { OnOk result (TakesRoom
        (record { parts = parts.old; chains = chains.old; copies = copies.old; ids = ids.old; events = log.old.items })
        (record { parts = parts.new; chains = chains.new; copies = copies.new; ids = ids.new; events = log.new.items }) log.old.room log.new.room) }
    ensures succeeds { HasRoom want.old parts.old chains.old log.old.room → IsOk result }
{
    'pages: loop {
        let step = once(
            host, task, *want, may_claim, parts, chains, copies, maps, ids, log,
        )?;
        let goes_on = is_to_go_on(step, *want);
        *want = left_after(step, *want);
        if !goes_on {
            return Ok(step);
        }
    }
}

// Runs an access once: a slow copy for its next page.
fn once(
    host: HostId,
    task: TaskId,
    want: Want,
    may_claim: bool,
    parts: &mut HostParts,
    chains: &mut Chains,
    copies: &mut Copies,
    maps: &Maps,
    ids: &mut Ids,
    log: &mut Events,
) -> Result<FaultStep, NoMemory>
    requires { CanFault maps.now (record { parts = parts.old; chains = chains.old; copies = copies.old; ids = ids.old; events = log.old.items }) task.0 want }
    ensures faulted { IfOk result (λ answer. Faulted maps.now host task want may_claim answer
        (record { parts = parts.old; chains = chains.old; copies = copies.old; ids = ids.old; events = log.old.items })
        (record { parts = parts.new; chains = chains.new; copies = copies.new; ids = ids.new; events = log.new.items })) }
    ensures still { OnOk result (may_claim ≡ false → free parts.new.frames ≡ free parts.old.frames) }
    ensures takes { OnOk result (TakesRoom
        (record { parts = parts.old; chains = chains.old; copies = copies.old; ids = ids.old; events = log.old.items })
        (record { parts = parts.new; chains = chains.new; copies = copies.new; ids = ids.new; events = log.new.items }) log.old.room log.new.room) }
    ensures succeeds { HasRoom want parts.old chains.old log.old.room → IsOk result }
{
    log.reserve(3)?;
    let address = address_of(want, parts.buffers.size());
    let place = find(maps, task, address, need_of(want));
    prepare(want, place.region, parts, chains, ids, log)?;
    let top = top_of(place.region, place.page, parts, chains);
    let run = Running {
        host,
        task,
        want,
        may_claim,
        top: top.key,
        at: offset_of(address, parts.buffers.size()),
    };
    go(run, top, parts, chains, copies, log)
}

// Where an access leads that its entry allows.
pub fn find(maps: &Maps, task: TaskId, address: u64, need: Access) -> Place
    requires { IsAllowed maps.now task.0 address need }
    ensures { (entry : Row) → entry_at address (rows_in task.0 maps.now) ≡ Some entry → result ≡ place_at maps.now.size address entry }
{
    let Ok(place) = maps.lookup(task, address, need) else {
        unreachable!()
    };
    place
}
