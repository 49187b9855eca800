//! Who waits once nothing is on its way, of temporary and file memory: laws of event lists.
//!
//! They are about lists of events alone, the newest first, whatever program they come from. Their
//! premise is that each event has its cause. Shared memory has a law of its own, which says when its
//! server has answered; nothing is known of what the pagers of wild objects do.
#![tactic(auto)]

ghost use Rattle.std.specs.Prelude.{ℕ, ◌≡◌, true, false, List, [], Some};
ghost use Rattle.vm_model.specs.declared.event.Event.{Event};
ghost use Rattle.vm_model.specs.declared.message.Channel.{Channel};
ghost use Rattle.vm_model.specs.declared.message.Message.{Message};
ghost use Rattle.vm_model.specs.declared.script.Header.{Header};
ghost use Rattle.vm_model.specs.Channels.{queue};
ghost use Rattle.vm_model.specs.Moments.{BeforeSteps, EachEvent};
ghost use Rattle.vm_model.specs.Server.{first};
ghost use Rattle.vm_model.specs.Waiting.{Copying, Loading, waiting};
ghost use Rattle.vm_legal.specs.Accesses.{Waits};
ghost use Rattle.vm_legal.specs.Debts.{IsPaid};
ghost use Rattle.vm_legal.specs.Frames.{frames_free};
ghost use Rattle.vm_legal.specs.Licences.{HasCause};
ghost use Rattle.vm_legal.specs.Outside.{NoneIsTemporary, Outside};
ghost use Rattle.vm_legal.specs.Prompt.{Prompt};
ghost use Rattle.vm_legal.specs.Undelivered.{undelivered};
ghost use Rattle.vm_legal.specs.Walks.{page_on};
ghost use Rattle.vm_quiet.specs.Carried.{IsCarried};
ghost use Rattle.vm_quiet.specs.Full as full;
ghost use Rattle.vm_quiet.specs.Letters.{messages_on};
ghost use Rattle.vm_quiet.specs.Places.{AllPaged, FramesAreCounted};
ghost use Rattle.vm_quiet.specs.Quiet.{NobodyWaitsInVain, NoneIsWild, OnlyFramesAreAwaited, OnlyWildAreAwaited, SharedAreAnswered};
ghost use Rattle.vm_quiet.specs.Unanswered as unanswered;
ghost use Rattle.vm_quiet.specs.Unended as unended;

/// The queue of a channel is the channel's undelivered messages, in the order in which they were
/// sent: whether one asks the channel or all letters together, the next message is the same.
#[tactic(auto, using(crate::proofs::Letters::queue_is, crate::proofs::Letters::first_is, crate::proofs::Letters::is_first))]
pub fn channels_are_letters()
    ensures queue { (channel : Channel) (past : List Event) → queue channel past ≡ messages_on channel (undelivered past) }
    ensures first { (channel : Channel) (m : Message) (past : List Event) → first (queue channel past) ≡ Some m
        → first (messages_on channel (undelivered past)) ≡ Some m }
    ensures is_first { (channel : Channel) (m : Message) (past : List Event) → first (messages_on channel (undelivered past)) ≡ Some m
        → first (queue channel past) ≡ Some m }
{}

/// The frames that a host holds, as its events count them up and down, are one for each place that is
/// here or asked, and one for each return without a copy that its pager did not take yet. So the
/// count never falls below zero, and there is no frame of which nobody knows what stands in it.
///
/// A page that is here is never asked.
#[tactic(auto, using(crate::proofs::Counting::frames_counted, crate::proofs::Counting::never_both))]
pub fn frames_are_counted()
    ensures counted { (header : Header) (outside : Outside) (host : ℕ) (history : List Event) → EachEvent (HasCause header outside) history
        → FramesAreCounted header host history }
    ensures apart { (header : Header) (outside : Outside) (host o p : ℕ) (history : List Event) → EachEvent (HasCause header outside) history
        → (page_on header host o p history).here ≡ true → (page_on header host o p history).asked ≡ false }
{}

/// Where each step has done what it owes, whoever is asked has a message on its way: of each page of
/// temporary memory or of a file that is asked its request is undelivered, or an answer to it; and of each
/// control that is not ready yet, but for wild objects', what tells its pager of it, or that the pager is
/// ready. What the server of shared memory is asked may wait with the server too.
#[tactic(auto, using(crate::proofs::Carried::carried))]
pub fn what_is_asked_is_on_its_way()
    ensures carried { (header : Header) (outside : Outside) (history : List Event) → EachEvent (HasCause header outside) history
        → IsPaid header history → BeforeSteps (IsPaid header) history → IsCarried header history }
{}

/// Where nothing is undelivered, and each step has done what it owes, whoever still waits does so for
/// want of frames, or for the pager of a wild object, which the script drives. A host that is short of frames
/// has none that is free, and fewer than two that are neither wired nor held for such a pager: a page of a wild
/// object that is asked, or whose unlock somebody waits for, keeps its frame for as long as its pager likes.
///
/// Two are what an access can need at one moment: the page that it copies, and the page that it copies to.
///
/// With shared objects it holds where their server has answered everybody, which is a matter of the law of
/// shared pages. Where each declared object is a file there are neither shared nor wild ones.
#[tactic(auto, using(crate::proofs::Quiet::quiet, crate::proofs::Quiet::only_wild))]
pub fn nobody_waits_in_vain()
    ensures wild { (header : Header) (outside : Outside) (history : List Event) → NoneIsTemporary header → EachEvent (HasCause header outside) history
        → BeforeSteps (IsPaid header) history → IsPaid header history → SharedAreAnswered header history → Prompt header history → undelivered history ≡ []
        → OnlyWildAreAwaited header history }
    ensures quiet { (header : Header) (outside : Outside) (history : List Event) → AllPaged header → EachEvent (HasCause header outside) history
        → BeforeSteps (IsPaid header) history → IsPaid header history → Prompt header history → undelivered history ≡ [] → NobodyWaitsInVain header history }
{}

/// Where no object is wild, nobody waits for the pager of one, and no frame is held for it. So on a host that
/// leaves two frames unwired every access ends once all messages are taken.
pub fn without_wild_objects_frames_alone_are_awaited()
    ensures { (header : Header) (history : List Event) → NoneIsWild header → NobodyWaitsInVain header history → OnlyFramesAreAwaited header history }
{}

/// A worked history that meets all of that with an access that waits: the host's two frames are both
/// wired, so a load of fresh memory waits, and nothing is on its way.
pub fn full_run()
    ensures paged { AllPaged full.header }
    ensures causes { EachEvent (HasCause full.header full.outside) full.history }
    ensures steps { BeforeSteps (IsPaid full.header) full.history }
    ensures paid { IsPaid full.header full.history }
    ensures prompt { Prompt full.header full.history }
    ensures delivered { undelivered full.history ≡ [] }
    ensures waits { Waits full.header 0 (Loading 0 1) full.history }
{}

/// A worked history of a wild object on two hosts that meets the premises, with two loads that wait for ever, though
/// each host has a free frame: one for an answer that the script never gives, the other for a ready.
pub fn unanswered_run()
    ensures kinds { NoneIsTemporary unanswered.header }
    ensures causes { EachEvent (HasCause unanswered.header unanswered.outside) unanswered.history }
    ensures steps { BeforeSteps (IsPaid unanswered.header) unanswered.history }
    ensures paid { IsPaid unanswered.header unanswered.history }
    ensures shared { SharedAreAnswered unanswered.header unanswered.history }
    ensures prompt { Prompt unanswered.header unanswered.history }
    ensures delivered { undelivered unanswered.history ≡ [] }
    ensures free { frames_free unanswered.header 0 unanswered.history ≡ 1 }
    ensures free_elsewhere { frames_free unanswered.header 1 unanswered.history ≡ 2 }
    ensures unanswered { Waits unanswered.header 0 (Loading 0 1) unanswered.history }
    ensures unready { Waits unanswered.header 1 (Loading 0 1) unanswered.history }
{}

/// A slow copy that has copied all its pages may not go on waiting: where one never ends, somebody waits in
/// vain, though nothing is undelivered, and each event that did happen has its cause.
#[tactic(auto, using(crate::proofs::Unended::unended_causes, crate::proofs::Unended::unended_waits, crate::proofs::Unended::unended_delivered, crate::proofs::Unended::unended_unprompted))]
pub fn a_finished_copy_may_not_wait()
    ensures causes { EachEvent (HasCause unended.header unended.outside) unended.history }
    ensures waits { waiting 0 unended.history ≡ Some (Copying 0 16 32) }
    ensures delivered { undelivered unended.history ≡ [] }
    ensures unprompted { Prompt unended.header unended.history → ⊥ }
{}
