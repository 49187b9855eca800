//! Which pages of temporary memory come from a pager, and which of a copy of a file: laws of event lists.
//!
//! Its premise is that each event has its cause.
#![tactic(auto)]

ghost use Rattle.std.specs.Prelude.{List, ℕ, true, ◌≡◌};
ghost use Rattle.vm_model.specs.declared.event.Event.{Event};
ghost use Rattle.vm_model.specs.declared.script.Header.{Header};
ghost use Rattle.vm_model.specs.Moments.{EachEvent};
ghost use Rattle.vm_model.specs.Regions.{is_copy};
ghost use Rattle.vm_legal.specs.Licences.{HasCause};
ghost use Rattle.vm_legal.specs.Outside.{Outside};
ghost use Rattle.vm_legal.specs.Pushes.{is_pushed};
ghost use Rattle.vm_legal.specs.Returned.{OnlyReturned, was_returned};
ghost use Rattle.vm_legal.specs.Walks.{page_on};
ghost use Rattle.vm_returned.specs.Pushed.{TakesPushed};
ghost use Rattle.vm_returned.specs.Returned.{TakesReturned};

/// A host that takes a page of temporary memory from its pager had returned that page to it: a page that
/// was never reclaimed is nowhere but on its host.
#[tactic(auto, using(crate::proofs::Returned::takes_returned))]
pub fn supplied_pages_were_returned()
    ensures { (header : Header) (outside : Outside) (history : List Event) → EachEvent (HasCause header outside) history
        → EachEvent (TakesReturned header) history }
{}

/// What a host takes of temporary memory it had returned, and no page of it, or of a file, is locked: what its
/// kernel rests on to have whoever waits beside a page that is here wait for a frame.
#[tactic(auto, using(crate::proofs::Returned::only_returned))]
pub fn temporary_pages_come_back_only()
    ensures { (header : Header) (outside : Outside) (host : ℕ) (history : List Event) → EachEvent (HasCause header outside) history
        → OnlyReturned header host history }
{}

/// What a host has of a copy of a file, or has returned of it, it had copied up into that copy, and so its pager
/// gives the host, or says that it can't give, only such a page: it comes to be there in no other way, and the
/// copy is on one host.
#[tactic(auto, using(crate::proofs::Copies::here_pushed, crate::proofs::Copies::returned_pushed, crate::proofs::Pushed::takes_pushed))]
pub fn pages_of_copies_were_pushed()
    ensures here { (header : Header) (outside : Outside) (h o p : ℕ) (history : List Event) → EachEvent (HasCause header outside) history
        → is_copy o history ≡ true → (page_on header h o p history).here ≡ true → is_pushed h o p history ≡ true }
    ensures returned { (header : Header) (outside : Outside) (h o p : ℕ) (history : List Event) → EachEvent (HasCause header outside) history
        → is_copy o history ≡ true → was_returned h o p history ≡ true → is_pushed h o p history ≡ true }
    ensures takes { (header : Header) (outside : Outside) (history : List Event) → EachEvent (HasCause header outside) history
        → EachEvent TakesPushed history }
{}
