//! How many messages there can be until nothing is undelivered: a law of event lists.
//!
//! A sum over what is undelivered, over those who stand in the lines of the server of shared memory,
//! over the accesses that wait, and over the places that they may still ask for. No event that
//! follows from a taking raises it, and each taking lowers it, whatever message is taken.
#![tactic(auto)]

ghost use Rattle.std.specs.Prelude.{ℕ, List, [], length, ◌+◌, ◌++◌, ◌∷◌, ◌≡◌, ◌≤◌};
ghost use Rattle.vm_model.specs.declared.command.Command.TheVariants as command;
ghost use Rattle.vm_model.specs.declared.command.Numbered.{Numbered};
ghost use Rattle.vm_model.specs.declared.event.Event.{Event};
ghost use Rattle.vm_model.specs.declared.event.Event.TheVariants as event;
ghost use Rattle.vm_model.specs.declared.script.Header.{Header};
ghost use Rattle.vm_legal.specs.Follows.{Follows, IsDone};
ghost use Rattle.vm_legal.specs.Outside.{NoneIsTemporary, Outside};
ghost use Rattle.vm_legal.specs.Steps.{takings};
ghost use Rattle.vm_legal.specs.Undelivered.{undelivered};
ghost use Rattle.vm_bound.specs.Bound.{PagesAreDeclared, bound, sum};
ghost use Rattle.vm_bound.specs.Settles.{HasEnded, IsOpening, IsSettle};

/// Each undelivered message counts at least once: where the sum is 0 nothing is undelivered.
pub fn each_message_counts()
    ensures { (header : Header) (past : List Event) → length (undelivered past) ≤ sum header past }
{}

/// The sum is at most what is counted more simply: the undelivered messages, those who stand in
/// line, and the accesses that wait, each page of them with the places of the deepest chain, each
/// times what one may cost.
pub fn the_sum_is_bounded()
    ensures { (header : Header) (past : List Event) → PagesAreDeclared header past → sum header past ≤ bound header past }
{}

/// What a settle takes from the sum is at least the messages that it takes: each event that follows
/// from a taking is paid by that, by who stood in line, or by an access that waits or its place. So a
/// settle that may take as many messages as the sum says leaves nothing undelivered.
///
/// It begins where nobody waits for a pager that the script drives, and throughout it whoever waits
/// has a free frame, so that nothing is reclaimed; a host begins no control of a declared object.
pub fn a_settle_lowers_the_sum()
    ensures lowers { (header : Header) (outside : Outside) (commands : List Numbered) (count line : ℕ) (group past : List Event) → NoneIsTemporary header
        → Follows header outside commands past → HasEnded header outside past → IsOpening header past → IsSettle header outside count line group past
        → sum header (group ++ event.Line line ∷ past) + takings (group ++ event.Line line ∷ past) ≤ sum header past }
    ensures ends { (header : Header) (outside : Outside) (commands : List Numbered) (count line : ℕ) (group past : List Event) → NoneIsTemporary header
        → Follows header outside commands past → HasEnded header outside past → IsOpening header past → IsSettle header outside count line group past
        → IsDone header (command.Settle count) group (event.Line line ∷ past) → sum header past ≤ count
        → undelivered (group ++ event.Line line ∷ past) ≡ [] }
{}
