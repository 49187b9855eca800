// An object ends, and what loses its last reference by that.
ghost use Rattle.std.specs.Option.{option_map};
ghost use Rattle.std.specs.Prelude.{ℕ, ◌≡◌, ◌+◌, ◌<◌, ◌≤◌, false, List, length, Some, IfOk, IsOk, OnOk};
ghost use Rattle.vm_base.specs.declared.ids.FrameNo.{FrameNo};
ghost use Rattle.vm_base.specs.declared.ids.ObjectKind.TheVariants.{Temp};
ghost use Rattle.vm_copies.specs.Copies.{CopyTable, LeavesCopies};
ghost use Rattle.vm_model.specs.declared.event.Event.{Event};
ghost use Rattle.vm_objects.specs.Objects.{object_at};
ghost use Rattle.vm_parts.specs.Fits.{Fit};
ghost use Rattle.vm_parts.specs.Listed.{listed_pages};
ghost use Rattle.vm_shadow.specs.Chains.{ChainTable, IsRanked, shadow_at};
ghost use Rattle.vm_shadow.specs.declared.shadow_row.ShadowRow.{ShadowRow};
ghost use Rattle.vm_terminate.specs.Counts.{EndBelow, HasBuffers, UsesRoom, live_below};
ghost use Rattle.vm_terminate.specs.Finishes.{CanFinish, ControlEnds, EndsWith, Finishes, IsReferred, left_of};
ghost use Rattle.vm_terminate.specs.Steps.{LeavesUnder, finish_state};

use crate::pages::end_pages;
use vm_base::{HostId, NoMemory, ObjectId};
use vm_copies::Copies;
use vm_model::{Channel, Event, Events, Message};
use vm_objects::{Holder, ObjectRow};
use vm_parts::HostParts;
use vm_shadow::Chains;

/// Ends a memory object to which nothing refers, of any kind.
///
/// Its pages leave the host first, by rising number; then its control ends, where one lives, and its
/// pager is told by memory_object_terminate; where it is a copy object, it is one no more. What stands
/// under it loses a reference, and ends in the same way if that was the last. It gives the object at
/// which this stops, which has references left; None at the bottom. It fails for want of memory alone;
/// what was done by then was told.
pub fn finish<L: Holder>(
    host: HostId,
    object: ObjectId,
    parts: &mut HostParts,
    chains: &mut Chains,
    copies: &mut Copies,
    laundry: &mut L,
    log: &mut Events,
) -> Result<Option<ObjectId>, NoMemory>
    requires { CanFinish (record {
      parts = parts.old;
      chains = chains.old;
      copies = copies.old;
      held = L.held laundry.old;
      room = L.room laundry.old;
      events = log.old.items;
    }) object.0 }
    ensures finished { IfOk result (λ left. (f : Finishes host object
        (record {
          parts = parts.old;
          chains = chains.old;
          copies = copies.old;
          held = L.held laundry.old;
          room = L.room laundry.old;
          events = log.old.items;
        })
        (record {
          parts = parts.new;
          chains = chains.new;
          copies = copies.new;
          held = L.held laundry.new;
          room = L.room laundry.new;
          events = log.new.items;
        }))
        × (left ≡ left_of f)) }
    ensures fit { OnOk result (Fit parts.new) }
    ensures size { OnOk result (parts.new.buffers.size ≡ parts.old.buffers.size) }
    ensures uses { (n : ℕ) → EndBelow n chains.old parts.old.objects object.0
        → OnOk result (UsesRoom n parts.old parts.new chains.old chains.new log.old.room log.new.room) }
    ensures succeeds { (n : ℕ) → EndBelow n chains.old parts.old.objects object.0
        → listed_pages parts.old.queues + live_below parts.old.objects n ≤ log.old.room
        → HasBuffers chains.old parts.old object.0 → IsOk result }
    ensures room { OnOk result (copies.old.room ≤ copies.new.room) }
    ensures saved { ((o : ℕ) (row : ObjectRow) → EndsWith chains.old parts.old.objects object.0 o → object_at parts.old.objects o ≡ Some row → row.kind ≡ Temp)
        → OnOk result (parts.old.buffers.count ≤ parts.new.buffers.count) }
    ensures told { (n : ℕ) → EndBelow n chains.old parts.old.objects object.0
        → OnOk result (length log.new.items + (listed_pages parts.new.queues + live_below parts.new.objects n)
        ≤ length log.old.items + (listed_pages parts.old.queues + live_below parts.old.objects n)) }
{
    let mut ending = object;
    'down: loop {
        let Some(known) = parts.objects.find(ending) else {
            unreachable!()
        };
        end_pages(host, ending, known, parts, laundry, log)?;
        end_control(host, ending, known, parts, log)?;
        leave_copies(ending, copies);
        let below = stands_on(ending, chains);
        let Some(under) = leave_under(ending, parts, chains) else {
            return Ok(below);
        };
        ending = under;
    }
}

/// Ends the control of an object, where one lives, and tells the pager.
pub fn end_control(
    host: HostId,
    object: ObjectId,
    known: ObjectRow,
    parts: &mut HostParts,
    log: &mut Events,
) -> Result<(), NoMemory>
    requires fit { Fit parts.old }
    requires known { object_at parts.old.objects object.0 ≡ Some known }
    ensures ends { OnOk result ((chains : ChainTable) (copies : CopyTable) (held : List FrameNo) (room : ℕ) → ControlEnds host object known
        (finish_state parts.old chains copies held room log.old.items) (finish_state parts.new chains copies held room log.new.items)) }
    ensures fit { OnOk result (Fit parts.new) }
    ensures buffers { OnOk result (parts.new.buffers ≡ parts.old.buffers) }
    ensures queues { parts.new.queues ≡ parts.old.queues }
    ensures spare { parts.new.resident.spare ≡ parts.old.resident.spare }
    ensures rows { parts.new.objects.rows ≡ parts.old.objects.rows }
    ensures log { log.old.room ≤ log.new.room + 1 }
    ensures told { length log.new.items ≤ length log.old.items + 1 }
    ensures quiet { known.live ≡ false → log.old.room ≤ log.new.room }
    ensures succeeds { 0 < log.old.room → IsOk result }
    ensures idle { known.live ≡ false → IsOk result }
{
    if !known.live {
        return Ok(());
    }
    log.reserve(1)?;
    parts.objects.end_control(object);
    log.push(Event::Sent {
        channel: Channel::Up { host, object },
        message: Message::Terminate {
            control: known.control,
        },
    })
}

// Where an object that has ended is a copy object, its row goes.
fn leave_copies(object: ObjectId, copies: &mut Copies)
    ensures leaves { LeavesCopies object.0 copies.old copies.new }
    ensures room { copies.old.room ≤ copies.new.room }
{
    if copies.is_copy(object) {
        copies.end(object);
    }
}

// What an object stands on, where it is a shadow.
fn stands_on(object: ObjectId, chains: &Chains) -> Option<ObjectId>
    ensures { result ≡ option_map (λ row. row.under) (shadow_at chains.now object.0) }
{
    let row = chains.backing(object)?;
    Some(row.under)
}

// Takes the reference of an object that has ended from what stands under it, and gives that where it
// is to end too.
fn leave_under(object: ObjectId, parts: &mut HostParts, chains: &mut Chains) -> Option<ObjectId>
    requires fit { Fit parts.old }
    requires referred { IsRanked chains.old → (row : ShadowRow) → shadow_at chains.old object.0 ≡ Some row → IsReferred parts.old.objects row.under.0 }
    ensures under { (copies : CopyTable) (held : List FrameNo) (room : ℕ) (events : List Event) → LeavesUnder object result
        (finish_state parts.old chains.old copies held room events) (finish_state parts.new chains.new copies held room events) }
    ensures fit { Fit parts.new }
    ensures buffers { parts.new.buffers ≡ parts.old.buffers }
    ensures spare { parts.new.resident.spare ≡ parts.old.resident.spare }
    ensures rows { parts.new.objects.rows ≡ parts.old.objects.rows }
    ensures shadows { chains.old.spare ≤ chains.new.spare }
    ensures marked { chains.new.marked ≡ chains.old.marked }
{
    let row = chains.backing(object)?;
    let _ = chains.drop_object(object);
    let left = parts.objects.unrefer(row.under);
    if left == 0 { Some(row.under) } else { None }
}
