//! Memory is one: a law of event lists.
//!
//! Its premises are that each event has its cause, that loads and stores are of their own hosts' pages, and
//! that loads answer the flat map: what the laws of temporary, file and shared memory give.
#![tactic(auto)]

ghost use Rattle.std.specs.Prelude.{ℕ, ◌≡◌, List};
ghost use Rattle.vm_model.specs.declared.event.Event.{Event};
ghost use Rattle.vm_model.specs.declared.script.Header.{Header};
ghost use Rattle.vm_model.specs.Moments.{EachEvent};
ghost use Rattle.vm_legal.specs.Bytes.{FlatBytes, OwnBytes};
ghost use Rattle.vm_legal.specs.Flat.{flat_page};
ghost use Rattle.vm_legal.specs.Licences.{HasCause};
ghost use Rattle.vm_legal.specs.Outside.{Outside};
ghost use Rattle.vm_order.specs.OneMemory.{IsOneMemory};
ghost use Rattle.vm_order.specs.Operations.{memory, operations};

/// Memory to which a history's operations were done, one after another, is the flat map; so each load of
/// shared, file or temporary memory reads what was stored there last, in one order of all hosts' and all
/// tasks' accesses, in which each stands between its beginning and its end.
///
/// Nothing is said of a load of wild memory, nor of temporary memory where the paging area doesn't tell, nor of
/// a copy of a file that isn't told. What such a file is itself, its pager's answers say.
#[tactic(auto, using(crate::proofs::Flat::memory_is_flat, crate::proofs::Ordered::memory_is_one))]
pub fn memory_is_one()
    ensures flat { (header : Header) (outside : Outside) (history : List Event) (region page : ℕ)
        → memory header outside (operations header outside history) region page ≡ flat_page header outside region page history }
    ensures one { (header : Header) (outside : Outside) (history : List Event) → EachEvent (HasCause header outside) history
        → EachEvent (OwnBytes header) history → EachEvent (FlatBytes header outside) history → IsOneMemory header outside history }
{}
