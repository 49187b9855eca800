// The page that an access would copy.
ghost use Rattle.std.specs.Prelude.{◌≡◌, ◌<◌, ◌&&◌, ◌||◌, nat_lt, Some, None, if◌then◌else◌};
ghost use Rattle.vm_fault.specs.Pushes.{owed_at};
ghost use Rattle.vm_fault.specs.Sources.{CanWalk, Reads, is_due, source_at};

use crate::faults::find;
use crate::pushing::owed;
use crate::running::{address_of, is_copy, is_store, need_of};
use crate::walking::{Stop, top_of, walk};
use vm_base::{PageKey, TaskId};
use vm_copies::Copies;
use vm_maps::Maps;
use vm_parts::HostParts;
use vm_shadow::Chains;
use vm_waits::Want;

/// The page that an access would copy if it were run now: that of a store whose walk finds it below its
/// top place, or which owes it to a copy that isn't asked for it, and that of a slow copy that finds its
/// next page, whether a lock keeps it out or not. None for every other access. Whoever waits for a frame
/// to copy it to needs it meanwhile (this profile).
pub fn source(
    task: TaskId,
    want: Want,
    parts: &HostParts,
    chains: &Chains,
    copies: &Copies,
    maps: &Maps,
) -> Option<PageKey>
    requires { CanWalk maps.now parts.now chains.now task.0 want }
    ensures { Reads maps.now parts.now chains.now copies.now task.0 want result }
{
    let place = find(
        maps,
        task,
        address_of(want, parts.buffers.size()),
        need_of(want),
    );
    let top = top_of(place.region, place.page, parts, chains);
    source_of(want, walk(top, parts, chains), parts, copies)
}

// Whether a store owes the page to a copy, for which it isn't asked.
fn is_due(key: PageKey, parts: &HostParts, copies: &Copies) -> bool
    ensures { result ≡ is_due parts.now.resident (owed_at copies.now key) }
{
    match owed(key, copies) {
        Some(place) => parts.resident.get(place).is_none(),
        None => false,
    }
}

// The page of a store that was found below its top place, or that is due to a copy, and that of a slow
// copy.
fn source_of(want: Want, stop: Stop, parts: &HostParts, copies: &Copies) -> Option<PageKey>
    ensures { result ≡ source_at parts.now.resident copies.now want stop }
{
    match stop {
        Stop::Found { key, steps, .. } => {
            if (is_store(want) && (steps > 0 || is_due(key, parts, copies))) || is_copy(want) {
                Some(key)
            } else {
                None
            }
        }
        _ => None,
    }
}
