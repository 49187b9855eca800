// That what a default pager answers is a step of a legal history.
ghost use Rattle.std.specs.Prelude.{ℕ, ◌≡◌, ◌++◌, true, List, [], ◌∷◌, None, Ok};
ghost use Rattle.pg_default.specs.Answers.{SuppliesStored, after_message};
ghost use Rattle.pg_default.specs.Stands.{CarriesOver, IsApart, IsOther, PagerServes, PagerStands, content_of, taking};
ghost use Rattle.pg_slots.specs.Contents.{CarriesContent};
ghost use Rattle.pg_slots.specs.Slots.{SlotTable};
ghost use Rattle.vm_base.specs.Listing.{Listed};
ghost use Rattle.vm_base.specs.declared.ids.ObjectId.{ObjectId};
ghost use Rattle.vm_legal.specs.Debts.{IsPaid};
ghost use Rattle.vm_legal.specs.InTurn.{AllInTurn};
ghost use Rattle.vm_legal.specs.Outside.{Outside};
ghost use Rattle.vm_model.specs.declared.command.Command.{Command};
ghost use Rattle.vm_model.specs.declared.event.Event.{Event};
ghost use Rattle.vm_model.specs.declared.message.Message.{Message};
ghost use Rattle.vm_model.specs.declared.script.Header.{Header};
ghost use Rattle.vm_outside.specs.Areas.{Told};

/// What a default pager answers is a step of a legal history: where its slots stand for the history
/// in front of a message, they stand for the history behind its answer, each event of the answer has
/// its cause, and the step owes nothing. So whatever `DefaultPager::answer` gives is as the
/// definitions of legal histories want it.
///
/// It is of messages about temporary objects of the pager's host, whose end it didn't take before.
/// A new pager's slots stand for the empty history, and events in which the pager has no part leave
/// what they stand for. Contents stay too, where no object is two hosts'.
#[tactic(auto, using(crate::proofs::Standing::start))]
pub fn answers_are_legal()
    ensures start { (header : Header) (host : ℕ)
        → PagerStands header host (record { host = host; size = header.size; count = header.slots; rows = [] }) [] }
    ensures stands { (header : Header) (host : ℕ) (past : List Event) (object : ObjectId) (m : Message) (old new : SlotTable) (events : List Event)
        → PagerServes header host past object m old new events
        → PagerStands header host new (events ++ taking host object m past) }

    ensures others { (header : Header) (host : ℕ) (slots : SlotTable) (e : Event) (past : List Event)
        → IsOther header host e past → PagerStands header host slots past → PagerStands header host slots (e ∷ past) }

    // Where the paging area tells, a supply must have the bytes that were stored.
    ensures causes { (header : Header) (outside : Outside) (doing : Command) (host : ℕ) (past : List Event) (object : ObjectId) (m : Message)
        (old new : SlotTable) (events : List Event)
        → PagerServes header host past object m old new events
        → (outside.paging ≡ true → SuppliesStored object events (content_of header host past))
        → AllInTurn header outside doing events (taking host object m past) }
    ensures paid { (header : Header) (host : ℕ) (past : List Event) (object : ObjectId) (m : Message) (old new : SlotTable) (events : List Event)
        → PagerServes header host past object m old new events → IsPaid header (events ++ taking host object m past) }
    ensures carries { (header : Header) (host : ℕ) (past : List Event) (object : ObjectId) (m : Message) (old new : SlotTable) (events : Listed Event)
        (before after : List ℕ → Told)
        → PagerServes header host past object m old new events.items
        → CarriesContent before after old new (after_message m object (Ok events))
        → CarriesOver before after old new (content_of header host past) (content_of header host (events.items ++ taking host object m past)) }
    ensures others_carry { (header : Header) (host : ℕ) (slots : SlotTable) (e : Event) (past : List Event) (areas : List ℕ → Told) → IsOther header host e past
        → IsApart header host (e ∷ past)
        → CarriesOver areas areas slots slots (content_of header host past) (content_of header host (e ∷ past)) }
    ensures empty { (header : Header) (host o p : ℕ) → content_of header host [] o p ≡ None }
{}
