//! Who fails where no device does: a law of event lists.
//!
//! Its premise is that each event has its cause. What fails an access to a wild object, whose pager the
//! script drives, is the script's matter, and nothing is said of it.
#![tactic(auto)]

ghost use Rattle.std.specs.Prelude.{◌≡◌, false, List};
ghost use Rattle.vm_model.specs.declared.event.Event.{Event};
ghost use Rattle.vm_model.specs.declared.script.Header.{Header};
ghost use Rattle.vm_model.specs.Moments.{EachEvent};
ghost use Rattle.vm_legal.specs.Licences.{HasCause};
ghost use Rattle.vm_legal.specs.Outside.{Outside};
ghost use Rattle.vm_losses.specs.Losses.{FailsUnslotted, ever, is_device_event};

/// Where no event tells of a device that failed, an access fails for one reason alone: its page is of
/// temporary memory, and there was no paging slot for it when it was returned. So no access to a file or
/// to shared memory fails.
#[tactic(auto, using(crate::proofs::Losses::fails_unslotted))]
pub fn without_device_failures_only_unslotted_pages_fail()
    ensures { (header : Header) (outside : Outside) (history : List Event) → EachEvent (HasCause header outside) history → ever is_device_event history ≡ false
        → EachEvent (FailsUnslotted header) history }
{}
