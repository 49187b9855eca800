// That what the shared memory server answers is a step of a legal history.
ghost use Rattle.std.specs.Prelude.{ℕ, ◌≡◌, ◌++◌, List, [], ◌∷◌};
ghost use Rattle.sms_server.specs.Stands.{IsCreate, IsNewServer, IsOther, ServerServes, ServerStands, taking};
ghost use Rattle.vm_legal.specs.Prompt.{AllServed};
ghost use Rattle.sms_server.specs.Table.{IsSameTable, ServerTable};
ghost use Rattle.vm_base.specs.declared.ids.ObjectId.{ObjectId};
ghost use Rattle.vm_legal.specs.Debts.{IsPaid};
ghost use Rattle.vm_legal.specs.InTurn.{AllInTurn, AllRecalled};
ghost use Rattle.vm_legal.specs.Outside.{Outside};
ghost use Rattle.vm_model.specs.declared.command.Command.{Command};
ghost use Rattle.vm_model.specs.declared.event.Event.{Event};
ghost use Rattle.vm_model.specs.declared.message.Message.{Message};
ghost use Rattle.vm_model.specs.declared.script.Header.{Header};

/// What the shared memory server answers is a step of a legal history: where its table stands for the
/// history in front of a message, it stands for the history behind the answer, each event of the
/// answer has its cause, the step owes nothing, and where somebody still waits for a page a host is
/// awaited, and with it each that stands in the way of the first in line. So whatever `Server::answer` gives is as the definitions of legal histories want it.
///
/// It asks of the hosts what their own rules give of the message, for each page that it speaks of.
/// A new server stands for the empty history, events in which it has no part leave what it stands
/// for, and so does making room.
#[tactic(auto)]
pub fn answers_are_legal()
    ensures start { (header : Header) (table : ServerTable) → IsNewServer header table → ServerStands header table [] }
    ensures start_served { (header : Header) → AllServed header [] }
    ensures start_recalled { (header : Header) → AllRecalled header [] }
    ensures same { (header : Header) (old new : ServerTable) (past : List Event)
        → IsSameTable old new → ServerStands header old past → ServerStands header new past }
    ensures others { (header : Header) (table : ServerTable) (e : Event) (past : List Event)
        → IsOther header e → ServerStands header table past → ServerStands header table (e ∷ past) }
    ensures others_served { (header : Header) (e : Event) (past : List Event)
        → IsOther header e → AllServed header past → AllServed header (e ∷ past) }
    ensures others_recalled { (header : Header) (e : Event) (past : List Event)
        → IsOther header e → AllRecalled header past → AllRecalled header (e ∷ past) }
    ensures stands { (header : Header) (h : ℕ) (past : List Event) (object : ObjectId) (m : Message) (old new : ServerTable) (events : List Event)
        → ServerServes header h past object m old new events
        → ServerStands header new (events ++ taking h object m past) }
    ensures causes { (header : Header) (outside : Outside) (doing : Command) (h : ℕ) (past : List Event) (object : ObjectId) (m : Message)
        (old new : ServerTable) (events : List Event)
        → ServerServes header h past object m old new events
        → AllInTurn header outside doing events (taking h object m past) }
    ensures paid { (header : Header) (h : ℕ) (past : List Event) (object : ObjectId) (m : Message) (old new : ServerTable) (events : List Event)
        → ServerServes header h past object m old new events → (IsCreate m → ⊥)
        → IsPaid header (events ++ taking h object m past) }
    ensures served { (header : Header) (h : ℕ) (past : List Event) (object : ObjectId) (m : Message) (old new : ServerTable) (events : List Event)
        → ServerServes header h past object m old new events → AllServed header past
        → AllServed header (events ++ taking h object m past) }
    ensures recalled { (header : Header) (h : ℕ) (past : List Event) (object : ObjectId) (m : Message) (old new : ServerTable) (events : List Event)
        → ServerServes header h past object m old new events → AllRecalled header past
        → AllRecalled header (events ++ taking h object m past) }
{}
