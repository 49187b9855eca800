//! What a legal history is: the flat map, who waits for what, why each event stands where it does, what each step owes, and
//! what each command makes of the history.
#![tactic(auto)]

ghost use Rattle.std.specs.Prelude.{◌≡◌, ◌≢◌, ℕ, ◌<◌, List, [], None, ◌∷◌, ◌++◌, ◌+◌, ◌≤◌, ◌||◌, true, false, Some, reverse};
ghost use Rattle.vm_base.specs.declared.ids.HostId.{HostId};
ghost use Rattle.vm_base.specs.declared.ids.ObjectId.{ObjectId};
ghost use Rattle.vm_base.specs.declared.ids.Inherit.TheVariants.{Copy};
ghost use Rattle.vm_base.specs.declared.ids.Inherit.{Inherit};
ghost use Rattle.vm_base.specs.declared.ids.PageNo.{PageNo};
ghost use Rattle.vm_base.specs.declared.ids.Prot.{Prot};
ghost use Rattle.vm_base.specs.declared.ids.RegionId.{RegionId};
ghost use Rattle.vm_base.specs.declared.ids.TaskId.{TaskId};
ghost use Rattle.vm_model.specs.Moments.{EachEvent};
ghost use Rattle.vm_model.specs.declared.command.Command.{Command};
ghost use Rattle.vm_model.specs.declared.command.Command.TheVariants as command;
ghost use Rattle.vm_model.specs.declared.command.Numbered.{Numbered};
ghost use Rattle.vm_model.specs.declared.event.Event.{Event};
ghost use Rattle.vm_model.specs.declared.event.Event.TheVariants as event;
ghost use Rattle.vm_model.specs.declared.message.Channel.TheVariants.{Up};
ghost use Rattle.vm_model.specs.declared.message.Message.TheVariants as message;
ghost use Rattle.vm_model.specs.declared.script.Header.{Header};
ghost use Rattle.vm_model.specs.declared.script.Script.{Script};
ghost use Rattle.vm_model.specs.Waiting.{Copying, Target, copy_target, waiting};
ghost use Rattle.vm_legal.specs.Debts.{IsPaid};
ghost use Rattle.vm_legal.specs.Follows.{Follows, FollowsAnyCut, FollowsSoFar, IsDone, IsRun};
ghost use Rattle.vm_legal.specs.Legal.{CanonicalFor, CanonicalSoFar, LegalFor, LegalSoFar};
ghost use Rattle.vm_legal.specs.Licences.{HasCause, Caused, Licensed, LockRequest, gives_back, is_answered_over, lock_taken, owed};
ghost use Rattle.vm_legal.specs.Outside.{Outside};
ghost use Rattle.vm_legal.specs.Prompt.{IsExhausted};
ghost use Rattle.vm_legal.specs.Reclaims.{IsReclaim};
ghost use Rattle.vm_legal.specs.Refusal.{refusal};
ghost use Rattle.vm_legal.specs.Steps.{departures, completes, since};
ghost use Rattle.vm_legal.specs.Stretches.{EachOf};
ghost use Rattle.vm_legal.specs.Walks.{page_on};

/// Each event of a history that commands made has its cause: laws of histories whose events have their causes speak of what the
/// program writes, also where its last command has more to do, and of what is left of it behind any of its events.
#[tactic(auto, using(crate::proofs::Groups::any_cut_caused))]
pub fn groups_have_causes()
    ensures whole { (header : Header) (outside : Outside) (commands : List Numbered) (history : List Event) → Follows header outside commands history
        → EachEvent (HasCause header outside) history }
    ensures so_far { (header : Header) (outside : Outside) (commands : List Numbered) (history : List Event) → FollowsSoFar header outside commands history
        → EachEvent (HasCause header outside) history }
    ensures any_cut { (header : Header) (outside : Outside) (commands : List Numbered) (history : List Event) → FollowsAnyCut header outside commands history
        → EachEvent (HasCause header outside) history }
{}

/// What the rules give for a script is legal, so far as it goes too. A history that ends at a step's end is one that may end
/// behind any event.
#[tactic(auto, using(crate::proofs::Turns::legal_so_far, crate::proofs::Turns::any_cut))]
pub fn canonical_histories_are_legal()
    ensures whole { (header : Header) (outside : Outside) (commands : List Numbered) (history : List Event) → CanonicalFor header outside commands history
        → LegalFor header outside commands history }
    ensures so_far { (script : Script) (outside : Outside) (history : List Event) → CanonicalSoFar script outside history → LegalSoFar script outside history }
    ensures any_cut { (header : Header) (outside : Outside) (commands : List Numbered) (history : List Event) → FollowsSoFar header outside commands history
        → FollowsAnyCut header outside commands history }
{}

/// A pageout isn't done where something else stands in its group behind fewer reclaims than it wants, while more could be reclaimed all along:
/// a page that goes later, for an access that waits, doesn't count as its own.
pub fn pageouts_reclaim_first()
    ensures { (header : Header) (at : HostId) (count : ℕ) (later front past : List Event) (e : Event) → EachOf (IsReclaim at.0) front → (IsReclaim at.0 e → ⊥)
        → departures at.0 (front ++ past) < count → ((more first : List Event) → front ≡ more ++ first → IsExhausted header at.0 past (first ++ past) → ⊥)
        → IsDone header (command.Pageout at count) (later ++ e ∷ front) past → ⊥ }
{}

/// A host says once that it has done a lock_request, only where its pager wants that, and not while a page is still here that the
/// request flushes or gives back. An unlock for one of its pages comes behind that.
#[tactic(auto, using(crate::proofs::Completing::once, crate::proofs::Completing::unasked, crate::proofs::Completing::done, crate::proofs::Completing::behind))]
pub fn locks_complete_once()
    ensures once { (header : Header) (outside : Outside) (doing : Command) (host : HostId) (object : ObjectId) (control count : ℕ) (first : PageNo)
        (past : List Event) → since (completes host.0 object.0) past ≡ true
        → Caused header outside doing (event.Sent (Up host object) (message.Completed control first count)) past → ⊥ }
    ensures unasked { (header : Header) (outside : Outside) (doing : Command) (host : HostId) (object : ObjectId) (control count : ℕ) (first : PageNo)
        (past : List Event) (request : LockRequest) → lock_taken past ≡ Some request → request.reply ≡ false
        → Caused header outside doing (event.Sent (Up host object) (message.Completed control first count)) past → ⊥ }
    ensures done { (header : Header) (outside : Outside) (doing : Command) (host : HostId) (object : ObjectId) (control count page : ℕ) (first : PageNo)
        (past : List Event) (request : LockRequest) → lock_taken past ≡ Some request → first.0 ≤ page → page < first.0 + count
        → (page_on header host.0 object.0 page past).here ≡ true
        → (request.flush || gives_back request.returns (page_on header host.0 object.0 page past).dirty
        (page_on header host.0 object.0 page past).precious) ≡ true
        → Caused header outside doing (event.Sent (Up host object) (message.Completed control first count)) past → ⊥ }
    ensures behind { (header : Header) (outside : Outside) (doing : Command) (host : HostId) (object : ObjectId) (control access : ℕ) (page : PageNo)
        (past : List Event) → is_answered_over host.0 object.0 page.0 (lock_taken past) ≡ true → since (completes host.0 object.0) past ≡ false
        → Caused header outside doing (event.Sent (Up host object) (message.Unlock control page access)) past → ⊥ }
{}

/// Nor does a page that goes from another host.
pub fn pageouts_count_own_pages()
    ensures { (header : Header) (at : HostId) (other : HostId) (object : ObjectId) (page : PageNo) (count : ℕ) (past : List Event) → other.0 ≢ at.0
        → departures at.0 past < count → (IsExhausted header at.0 past past → ⊥)
        → IsDone header (command.Pageout at count) (event.Dropped other object page ∷ []) past → ⊥ }
{}

/// A history isn't legal so far where it ends behind the line of a pageout that wants a page, while one could be reclaimed: none but a settle
/// may have more to do there.
pub fn pageouts_are_whole_so_far()
    ensures { (header : Header) (outside : Outside) (line count : ℕ) (at : HostId) (run : List Numbered) (past : List Event) → 0 < count
        → refusal header past (command.Pageout at count) ≡ None → (IsExhausted header at.0 (event.Line line ∷ past) (event.Line line ∷ past) → ⊥)
        → FollowsSoFar header outside (record { line = line; command = command.Pageout at count } ∷ run) (event.Line line ∷ past) → ⊥ }
{}

/// Right behind the end of a slow copy stands the entry of the range that it was to fill, on the region that it made for that, and no step
/// ends in between. Behind its head a group has no other entry.
#[tactic(auto, using(crate::proofs::Owing::behind, crate::proofs::Owing::unpaid))]
pub fn slow_copies_end_with_their_entries()
    ensures behind { (header : Header) (outside : Outside) (doing : Command) (task : TaskId) (address bytes to : ℕ) (target : Target) (e : Event)
        (past : List Event) → waiting task.0 past ≡ Some (Copying address bytes to) → copy_target task.0 past ≡ Some target
        → Licensed header outside doing e (event.CopyEnded task ∷ past)
        → e ≡ event.Entered task to bytes (record { 0 = target.region }) 0 (record { read = true; write = true }) Copy }
    ensures owed { (header : Header) (task : TaskId) (address bytes to : ℕ) (target : Target) (past : List Event)
        → waiting task.0 past ≡ Some (Copying address bytes to) → copy_target task.0 past ≡ Some target → IsPaid header (event.CopyEnded task ∷ past) → ⊥ }
    ensures alone { (header : Header) (outside : Outside) (past : List Event) (numbered : Numbered) (first more before : List Event) (task : TaskId)
        (address bytes : ℕ) (region : RegionId) (offset : ℕ) (prot : Prot) (inherit : Inherit)
        → owed (before ++ (reverse first ++ event.Line numbered.line ∷ past)) ≡ None
        → IsRun header outside past numbered first ((more ++ event.Entered task address bytes region offset prot inherit ∷ before) ++ reverse first) → ⊥ }
{}
