//! What loads and stores of several tasks give that go in any order: a law of event lists.
//!
//! A script's free part is the loads and stores behind its set-up. Where memory is one, what their loads give
//! depends on nothing but the order in which they end, whatever messages are taken between them; so whoever
//! has seen one run of each order has seen all that there is.
#![tactic(auto)]

ghost use Rattle.std.specs.Prelude.{◌≡◌, List};
ghost use Rattle.vm_model.specs.declared.command.Numbered.{Numbered};
ghost use Rattle.vm_model.specs.declared.event.Event.{Event};
ghost use Rattle.vm_model.specs.declared.script.Header.{Header};
ghost use Rattle.vm_legal.specs.Outside.{Outside};
ghost use Rattle.vm_free.specs.Free.{NobodyWaits};
ghost use Rattle.vm_free.specs.Outcomes.{AllFlat, AllShown, AreAll, NothingIsSaid, Values};

/// Where each order of the free part was shown behind a set-up, by a run with one of some outcomes, the loads of
/// every history that goes on from the set-up's with these accesses, in any order and with any takings between
/// them, agree with one of these outcomes; of a load that hasn't ended nothing is said.
///
/// Nobody waits at the set-up's end, and whatever is mapped then is memory of which the flat map speaks. No answer
/// of a pager says what a file has: where one does, memory depends on more than the order of the accesses.
pub fn shown_outcomes_are_all()
    ensures { (header : Header) (outside : Outside) (free : List Numbered) (start : List Event) (outcomes : List Values) → NobodyWaits start
        → NothingIsSaid header outside → AllFlat header outside start → AllShown header outside free start outcomes
        → AreAll header outside free start outcomes }
{}
