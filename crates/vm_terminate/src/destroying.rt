// An object ends since its pager says so.
ghost use Rattle.std.specs.Prelude.{ℕ, ◌≡◌, ◌+◌, ◌≤◌, false, true, List, length, IfSome, IsOk, IsSomeAnd, OnOk};
ghost use Rattle.vm_base.specs.declared.ids.FrameNo.{FrameNo};
ghost use Rattle.vm_copies.specs.Copies.{CopyTable};
ghost use Rattle.vm_model.specs.declared.event.Event.{Event};
ghost use Rattle.vm_objects.specs.Objects.{object_at};
ghost use Rattle.vm_parts.specs.Changes.{is_here};
ghost use Rattle.vm_parts.specs.Fits.{Fit, object_pages};
ghost use Rattle.vm_parts.specs.Listed.{listed_pages};
ghost use Rattle.vm_resident.specs.Resident.{row_at};
ghost use Rattle.vm_shadow.specs.Chains.{ChainTable};
ghost use Rattle.vm_terminate.specs.Destroys.{Destroys, PagesCancel, PagesDrop, here_below};
ghost use Rattle.vm_terminate.specs.Steps.{NoneHereFrom, finish_state};

use crate::finishing::end_control;
use vm_base::{HostId, NoMemory, ObjectId, PageKey, PageNo};
use vm_model::{Event, Events};
use vm_parts::HostParts;

/// Ends a memory object whose control lives, as its pager asks for by memory_object_destroy, whatever
/// refers to it.
///
/// Its pages that are here are dropped, by rising number, changed ones too; those that are asked are
/// asked no more, and their frames are free; then its control ends, and its pager is told by
/// memory_object_terminate. Who waits for the object is the caller's to end. It fails for want of
/// memory alone; what was done by then was told.
pub fn destroy(
    host: HostId,
    object: ObjectId,
    parts: &mut HostParts,
    log: &mut Events,
) -> Result<(), NoMemory>
    requires fit { Fit parts.old }
    requires live { IsSomeAnd (object_at parts.old.objects object.0) (λ known. known.live ≡ true) }
    ensures destroys { OnOk result (IfSome (object_at parts.old.objects object.0)
        (λ known. (chains : ChainTable) (copies : CopyTable) (held : List FrameNo) (room : ℕ) → Destroys host object known
        (finish_state parts.old chains copies held room log.old.items) (finish_state parts.new chains copies held room log.new.items))) }
    ensures fit { OnOk result (Fit parts.new) }
    ensures buffers { OnOk result (parts.new.buffers ≡ parts.old.buffers) }
    ensures spare { OnOk result (parts.old.resident.spare ≤ parts.new.resident.spare) }
    ensures rows { OnOk result (parts.new.objects.rows ≡ parts.old.objects.rows) }
    ensures log { OnOk result (log.old.room + listed_pages parts.new.queues ≤ log.new.room + (listed_pages parts.old.queues + 1)) }
    ensures told { OnOk result (length log.new.items + listed_pages parts.new.queues ≤ length log.old.items + (listed_pages parts.old.queues + 1)) }
    ensures fewer { OnOk result (listed_pages parts.new.queues ≤ listed_pages parts.old.queues) }
    ensures succeeds { (n : ℕ) → ((p : ℕ) → n ≤ p → is_here (row_at parts.old.resident object.0 p) ≡ true → ⊥)
        → here_below parts.old.resident object.0 n + 1 ≤ log.old.room → IsOk result }
    ensures roomy { listed_pages parts.old.queues + 1 ≤ log.old.room → IsOk result }
{
    let Some(known) = parts.objects.find(object) else {
        unreachable!()
    };
    drop_pages(host, object, known.pages, parts, log)?;
    cancel_pages(object, known.pages, parts);
    end_control(host, object, known, parts, log)
}

// Drops the pages of an object that are here, by rising number.
fn drop_pages(
    host: HostId,
    object: ObjectId,
    pages: u32,
    parts: &mut HostParts,
    log: &mut Events,
) -> Result<(), NoMemory>
    requires fit { Fit parts.old }
    requires pages { pages ≡ object_pages parts.old.objects object.0 }
    ensures drops { OnOk result ((chains : ChainTable) (copies : CopyTable) (held : List FrameNo) (room : ℕ) → PagesDrop host object 0
        (finish_state parts.old chains copies held room log.old.items) (finish_state parts.new chains copies held room log.new.items)) }
    ensures none { OnOk result ((p : ℕ) → is_here (row_at parts.new.resident object.0 p) ≡ false) }
    ensures fit { OnOk result (Fit parts.new) }
    ensures objects { OnOk result (parts.new.objects ≡ parts.old.objects) }
    ensures buffers { OnOk result (parts.new.buffers ≡ parts.old.buffers) }
    ensures spare { OnOk result (parts.old.resident.spare ≤ parts.new.resident.spare) }
    ensures log { OnOk result (log.old.room + listed_pages parts.new.queues ≤ log.new.room + listed_pages parts.old.queues) }
    ensures told { OnOk result (length log.new.items + listed_pages parts.new.queues ≤ length log.old.items + listed_pages parts.old.queues) }
    ensures fewer { OnOk result (listed_pages parts.new.queues ≤ listed_pages parts.old.queues) }
    ensures left { (n : ℕ) → NoneHereFrom parts.old.resident object.0 n
        → OnOk result (log.old.room ≤ log.new.room + here_below parts.old.resident object.0 n) }
    ensures succeeds { (n : ℕ) → NoneHereFrom parts.old.resident object.0 n
        → here_below parts.old.resident object.0 n ≤ log.old.room → IsOk result }
    ensures roomy { listed_pages parts.old.queues ≤ log.old.room → IsOk result }
{
    let mut from = PageNo(0);
    'pages: while from.0 < pages {
        let Some(page) = parts.resident.next_page(object, from) else {
            return Ok(());
        };
        let key = PageKey { object, page };
        let Some(row) = parts.resident.get(key) else {
            unreachable!()
        };
        if row.here {
            log.push(Event::Dropped { host, object, page })?;
            parts.discard(key);
        }
        from = PageNo(page.0 + 1);
    }
    Ok(())
}

// Takes back what is asked of an object: no page of it is here.
fn cancel_pages(object: ObjectId, pages: u32, parts: &mut HostParts)
    requires fit { Fit parts.old }
    requires pages { pages ≡ object_pages parts.old.objects object.0 }
    requires none { (p : ℕ) → is_here (row_at parts.old.resident object.0 p) ≡ false }
    ensures cancels { (chains : ChainTable) (copies : CopyTable) (held : List FrameNo) (room : ℕ) (events : List Event)
        → (asked : List ℕ) × PagesCancel object 0 asked
        (finish_state parts.old chains copies held room events) (finish_state parts.new chains copies held room events) }
    ensures fit { Fit parts.new }
    ensures objects { parts.new.objects ≡ parts.old.objects }
    ensures buffers { parts.new.buffers ≡ parts.old.buffers }
    ensures queues { parts.new.queues ≡ parts.old.queues }
    ensures spare { parts.old.resident.spare ≤ parts.new.resident.spare }
{
    let mut from = PageNo(0);
    'asked: while from.0 < pages {
        let Some(page) = parts.resident.next_page(object, from) else {
            return;
        };
        parts.cancel(PageKey { object, page });
        from = PageNo(page.0 + 1);
    }
}
