// The answers of a pager.
ghost use Rattle.std.specs.Prelude.{◌≡◌, ℕ, ◌+◌, ◌≤◌, ◌<◌, false, List, replicate, Some, IfOk, IfSome, IsOk, IsSome, IsSomeAnd, OnErr, OnOk, length};
ghost use Rattle.vm_base.specs.declared.ids.HostId.{HostId};
ghost use Rattle.vm_model.specs.declared.event.Event.{Event};
ghost use Rattle.vm_objects.specs.Objects.{object_at};
ghost use Rattle.vm_parts.specs.Fits.{Fit};
ghost use Rattle.vm_parts.specs.Locks.{lock_numbered};
ghost use Rattle.vm_resident.specs.Resident.{row_at};
ghost use Rattle.vm_supply.specs.Answers.{AnswerEffects, Failed, IsAnswer, Lacked, Supplied, Zeroed, outcome_on, ready_outcome};

use crate::Woken;
use crate::states::{kind_of_supply, state_of};
use vm_base::{HostId, Lock, NoMemory, ObjectId, ObjectKind, PageBytes, PageKey, PageNo};
use vm_model::{Event, Events, Message};
use vm_objects::PagerState;
use vm_parts::{HostParts, lock_of};
use vm_tables::{Act, MessageKind, message_act};

const UNLOCKED: Lock = Lock {
    read: false,
    write: false,
};

// What is done with an answer by its row of the table of messages, where the state of its page gives an
// act that the answer can have.
macro_rules! by_table {
    ($known:ident, $control:ident, $parts:ident, $object:ident, $kind:expr, $page:expr; $($act:ident => $done:expr,)+) => {{
        let page = $page;
        let row = $parts.resident.get(PageKey { object: $object, page });
        let state = state_of(&$known, $control, page, row);
        match message_act($kind, state) {
            $(Act::$act => $done,)+
            _ => Ok(Woken::Nobody),
        }
    }};
}

/// Takes one answer of an object's pager, which came for a control of this host: that it is ready,
/// that it supplies a page, that it has none, or that it can't give it.
///
/// An answer for another control than the live one is discarded, and so is one for a page that isn't
/// asked; no page behind an object's end ever is. The messages are those of "Mach 3 Kernel
/// Interfaces": memory_object_ready, data_supply, data_unavailable and data_error. It is this
/// profile's that what the default pager doesn't have is noted and leaves no page behind.
///
/// No memory is taken but for the event of a page of zeros, and for the mark of a page that the default
/// pager doesn't have; where there is none, nothing changed.
pub fn answer(
    host: HostId,
    object: ObjectId,
    control: u32,
    message: &Message,
    parts: &mut HostParts,
    log: &mut Events,
) -> Result<Woken, NoMemory>
    requires fit { Fit parts.old }
    requires answer { IsAnswer parts.old.buffers.size message.now }
    ensures fit { Fit parts.new }
    ensures answered { IfOk result (λ woken. AnswerEffects host object (outcome_on parts.old object control message.now) woken parts.old parts.new log.old.items
        log.new.items) }
    ensures spare { parts.old.resident.spare ≤ parts.new.resident.spare }
    ensures buffers { parts.new.buffers ≡ parts.old.buffers }
    ensures err { OnErr result ((parts.new ≡ parts.old) × (log.new.items ≡ log.old.items)) }
    ensures succeeds { 0 < log.old.room → 0 < parts.old.objects.marks → IsOk result }
    ensures rooms { (parts.old.objects.rows ≤ parts.new.objects.rows) × (log.old.room ≤ log.new.room + 1) }
{
    let Some(known) = parts.objects.find(object) else {
        return Ok(Woken::Nobody);
    };
    match message {
        Message::Ready { .. } => by_table!(
            known, control, parts, object, MessageKind::Ready, PageNo(0);
            MakeReady => Ok(ready(parts, object, known.state)),
        ),
        Message::Supply {
            page,
            lock,
            precious,
            hex,
        } => {
            let locked = lock_of(*lock);
            by_table!(
                known, control, parts, object, kind_of_supply(locked), *page;
                PutUnlocked => Ok(supply(parts, object, *page, UNLOCKED, *precious, hex)),
                PutLocked => Ok(supply(parts, object, *page, locked, *precious, hex)),
            )
        },
        Message::Unavailable { page } => by_table!(
            known, control, parts, object, MessageKind::Unavailable, *page;
            NoteAbsent => match known.kind {
                ObjectKind::Temp => Ok(lack(parts, object, *page)?),
                ObjectKind::File | ObjectKind::Shared | ObjectKind::Wild => {
                    Ok(zero(host, parts, object, *page, log)?)
                },
            },
        ),
        Message::Error { page, .. } => by_table!(
            known, control, parts, object, MessageKind::Error, *page;
            Fail => Ok(fail(parts, object, *page)),
        ),
        _ => unreachable!(),
    }
}

// The pager is ready.
fn ready(parts: &mut HostParts, object: ObjectId, state: PagerState) -> Woken
    requires fit { Fit parts.old }
    requires known { IfSome (object_at parts.old.objects object.0) (λ known. known.state ≡ state) × IsSome (object_at parts.old.objects object.0) }
    ensures fit { Fit parts.new }
    ensures buffers { parts.new.buffers ≡ parts.old.buffers }
    ensures spare { parts.old.resident.spare ≤ parts.new.resident.spare }
    ensures rows { parts.new.objects.rows ≡ parts.old.objects.rows }
    ensures answered { (host : HostId) (events : List Event) → AnswerEffects host object (ready_outcome state) result parts.old parts.new events events }
{
    match state {
        PagerState::Ready => Woken::Nobody,
        PagerState::Without | PagerState::Sent => {
            parts.objects.set_ready(object);
            Woken::ReadyOf { object }
        },
    }
}

// The pager supplies a page.
fn supply(
    parts: &mut HostParts,
    object: ObjectId,
    page: PageNo,
    lock: Lock,
    precious: bool,
    bytes: &PageBytes,
) -> Woken
    requires fit { Fit parts.old }
    requires asked { IsSomeAnd (row_at parts.old.resident object.0 page.0) (λ was. was.here ≡ false) }
    requires whole { length bytes.now ≡ parts.old.buffers.size }
    ensures fit { Fit parts.new }
    ensures buffers { parts.new.buffers ≡ parts.old.buffers }
    ensures spare { parts.old.resident.spare ≤ parts.new.resident.spare }
    ensures rows { parts.new.objects.rows ≡ parts.old.objects.rows }
    ensures answered { (host : HostId) (number : ℕ) (events : List Event) → lock ≡ lock_numbered number →
        AnswerEffects host object (Supplied page number precious bytes.now) result parts.old parts.new events events }
{
    let key = PageKey { object, page };
    parts.fill(key, lock, precious, bytes.as_slice());
    Woken::Page { key }
}

// The pager of a named object doesn't have a page, which comes as zeros.
fn zero(
    host: HostId,
    parts: &mut HostParts,
    object: ObjectId,
    page: PageNo,
    log: &mut Events,
) -> Result<Woken, NoMemory>
    requires fit { Fit parts.old }
    requires asked { IsSomeAnd (row_at parts.old.resident object.0 page.0) (λ was. was.here ≡ false) }
    ensures fit { Fit parts.new }
    ensures buffers { parts.new.buffers ≡ parts.old.buffers }
    ensures spare { parts.old.resident.spare ≤ parts.new.resident.spare }
    ensures rows { parts.new.objects.rows ≡ parts.old.objects.rows }
    ensures answered { IfOk result (λ woken. AnswerEffects host object (Zeroed page) woken parts.old parts.new log.old.items log.new.items) }
    ensures err { OnErr result ((parts.new ≡ parts.old) × (log.new.items ≡ log.old.items)) }
    ensures succeeds { 0 < log.old.room → IsOk result }
    ensures room { log.old.room ≤ log.new.room + 1 }
{
    let key = PageKey { object, page };
    log.push(Event::Zeroed { host, object, page })?;
    parts.fill(key, UNLOCKED, false, &[]);
    Ok(Woken::Page { key })
}

// The pager of a temporary object doesn't have a page.
fn lack(parts: &mut HostParts, object: ObjectId, page: PageNo) -> Result<Woken, NoMemory>
    requires fit { Fit parts.old }
    requires asked { IsSomeAnd (row_at parts.old.resident object.0 page.0) (λ was. was.here ≡ false) }
    ensures fit { Fit parts.new }
    ensures buffers { parts.new.buffers ≡ parts.old.buffers }
    ensures spare { parts.old.resident.spare ≤ parts.new.resident.spare }
    ensures rows { parts.new.objects.rows ≡ parts.old.objects.rows }
    ensures answered { IfOk result (λ woken. (host : HostId) (events : List Event) →
        AnswerEffects host object (Lacked page) woken parts.old parts.new events events) }
    ensures err { OnErr result (parts.new ≡ parts.old) }
    ensures succeeds { 0 < parts.old.objects.marks → IsOk result }
{
    parts.objects.reserve_marks(1)?;
    let key = PageKey { object, page };
    parts.cancel(key);
    parts.objects.note_absent(key);
    Ok(Woken::Page { key })
}

// The pager can't give a page.
fn fail(parts: &mut HostParts, object: ObjectId, page: PageNo) -> Woken
    requires fit { Fit parts.old }
    requires asked { IsSomeAnd (row_at parts.old.resident object.0 page.0) (λ was. was.here ≡ false) }
    ensures fit { Fit parts.new }
    ensures buffers { parts.new.buffers ≡ parts.old.buffers }
    ensures spare { parts.old.resident.spare ≤ parts.new.resident.spare }
    ensures rows { parts.new.objects.rows ≡ parts.old.objects.rows }
    ensures answered { (host : HostId) (events : List Event) →
        AnswerEffects host object (Failed page) result parts.old parts.new events events }
{
    let key = PageKey { object, page };
    parts.cancel(key);
    Woken::Fails { key }
}
