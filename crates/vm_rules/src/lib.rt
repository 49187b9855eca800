//! What there is to test in a history: a law of event lists.
//!
//! Whoever has a history and the commands that were run, whatever program wrote it, has to look at each event and each step
//! alone. What a legal history promises of all of memory together follows from that.
#![tactic(auto)]

ghost use Rattle.std.specs.Prelude.{List};
ghost use Rattle.vm_model.specs.declared.command.Numbered.{Numbered};
ghost use Rattle.vm_model.specs.declared.event.Event.{Event};
ghost use Rattle.vm_model.specs.declared.script.Header.{Header};
ghost use Rattle.vm_model.specs.declared.script.Script.{Script};
ghost use Rattle.vm_legal.specs.Follows.{FollowsAnyCut};
ghost use Rattle.vm_legal.specs.Legal.{CanonicalFor, CanonicalSoFar, Holds, LegalFor, LegalSoFar};
ghost use Rattle.vm_legal.specs.Outside.{NoneIsTemporary, Outside};
ghost use Rattle.vm_rules.specs.Tests.{Tests};

/// A history needs no other test than these, wherever it ends. Its groups are those of the commands, and each event has its
/// cause; each load and store is of a page that its own host has, and may read or write, and so is what is copied; the frames
/// suffice; and whenever a step has ended nobody waits in vain, nothing is left behind, or owed, and of each page of shared
/// memory that somebody wants some host is awaited.
///
/// What a legal history promises of all of memory together follows: each load answers the flat map, and a shared page has one
/// writer and behaves as one memory. So whoever tests a history doesn't keep the flat map, nor compare what the hosts have of a
/// shared page. Wild objects may stand beside the others, and the files may be told or not.
///
/// No declared object is temporary: of one that were, nothing would say what its pager answers.
#[tactic(auto, using(crate::proofs::Rules::holds_of))]
pub fn rules_are_all()
    ensures { (header : Header) (outside : Outside) (run : List Numbered) (history : List Event) → NoneIsTemporary header → Tests header outside run history
        → Holds header outside history }
{}

/// Nothing is tested that a legal history might lack, so each history that the rules give for its commands passes, so far as it
/// goes too. One that ends behind any event passes where all holds of it that holds of a legal one.
#[tactic(auto, using(crate::proofs::Rules::legal_passes, crate::proofs::Rules::canonical_passes, crate::proofs::Rules::legal_so_far_passes, crate::proofs::Rules::canonical_so_far_passes))]
pub fn legal_histories_pass()
    ensures legal { (header : Header) (outside : Outside) (commands : List Numbered) (history : List Event) → LegalFor header outside commands history
        → Tests header outside commands history }
    ensures legal_so_far { (script : Script) (outside : Outside) (history : List Event) (is : LegalSoFar script outside history)
        → Tests script.header outside is.run history }
    ensures cut { (header : Header) (outside : Outside) (commands : List Numbered) (history : List Event) → FollowsAnyCut header outside commands history
        → Holds header outside history → Tests header outside commands history }
    ensures canonical { (header : Header) (outside : Outside) (commands : List Numbered) (history : List Event) → CanonicalFor header outside commands history
        → Tests header outside commands history }
    ensures canonical_so_far { (script : Script) (outside : Outside) (history : List Event) (is : CanonicalSoFar script outside history)
        → Tests script.header outside is.run history }
{}
