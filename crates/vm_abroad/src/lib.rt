//! What another host does is nothing to this one: laws of event lists.
//!
//! One Boolean says whom an event is of (`is_home`). Behind events that are not a host's, what its
//! kernel stands for reads the same; an event that is the host's moves the host's facts, whatever
//! its number is.
#![tactic(auto)]

ghost use Rattle.std.specs.Prelude.{ℕ, ◌≡◌, ◌≢◌, ◌&&◌, true, Option, List, ◌∷◌, ◌++◌};
ghost use Rattle.vm_model.specs.declared.command.Numbered.{Numbered};
ghost use Rattle.vm_model.specs.declared.event.Event.{Event};
ghost use Rattle.vm_model.specs.declared.script.Header.{Header};
ghost use Rattle.vm_model.specs.Controls.{is_control, last_control, live_control};
ghost use Rattle.vm_model.specs.Local.{Place, local, local_after};
ghost use Rattle.vm_model.specs.Moments.{EachEvent};
ghost use Rattle.vm_model.specs.Regions.{backing_of, object_pages};
ghost use Rattle.vm_legal.specs.Accesses.{is_ready};
ghost use Rattle.vm_legal.specs.Cached.{is_cached};
ghost use Rattle.vm_legal.specs.Follows.{FollowsSoFar};
ghost use Rattle.vm_legal.specs.Frames.{frames_after, frames_held, given_at_end, frames_wired, returns_out};
ghost use Rattle.vm_legal.specs.Homes.{EntersNext, IsOnlyOfHost, is_home};
ghost use Rattle.vm_legal.specs.Licences.{HasCause};
ghost use Rattle.vm_legal.specs.Merges.{IsThin};
ghost use Rattle.vm_legal.specs.Outside.{Outside};
ghost use Rattle.vm_legal.specs.Prompt.{EachLeads, HostIsFull, NoneInVain};
ghost use Rattle.vm_legal.specs.Swept.{IsSwept};
ghost use Rattle.vm_legal.specs.Stretches.{EachIn};
ghost use Rattle.vm_abroad.specs.Own.{own_cached, own_change, own_effect, own_last, own_live, own_out, own_ready, own_wired};
ghost use Rattle.vm_abroad.specs.Run as run;
ghost use Rattle.vm_abroad.specs.Same.{SameFacts, SameForHost};
ghost use Rattle.vm_abroad.specs.Sound.{IsAbroad, Knows, Sound};
ghost use Rattle.vm_abroad.specs.Whose.{IsNewTask, IsOfHost, IsShut};

/// Where regions are in use, and what their tables say of one host, it reads the same behind events that
/// are nothing to it; and so it goes on.
#[tactic(auto, using(crate::proofs::Facts::stays))]
pub fn others_are_nothing()
    ensures { (header : Header) (outside : Outside) (h : ℕ) (events past : List Event) → Sound header past → Knows header h past
        → EachIn (IsAbroad header outside h) events past → SameForHost header h past (events ++ past) }
{}

/// Whoever waits on a host waits as before, with an entry that leads to its page, and for the same; its
/// frames are as short as before, nothing more is left behind, and nothing more can be merged.
#[tactic(auto, using(crate::proofs::Thin::thin_now, crate::proofs::Waits::leads_now, crate::proofs::Waits::swept_now))]
pub fn who_waits_waits_as_before()
    ensures leads { (header : Header) (h : ℕ) (old new : List Event) → Sound header old → Knows header h old → SameFacts header h old new
        → EachLeads header h old → EachLeads header h new }
    ensures full { (header : Header) (h : ℕ) (old new : List Event) → Sound header old → Knows header h old → SameFacts header h old new
        → HostIsFull header h old → HostIsFull header h new }
    ensures vain { (header : Header) (h : ℕ) (old new : List Event) → Sound header old → Knows header h old → SameFacts header h old new
        → NoneInVain header h old → NoneInVain header h new }
    ensures swept { (header : Header) (h : ℕ) (old new : List Event) → Sound header old → Knows header h old → SameFacts header h old new → IsShut old
        → IsSwept header h old → IsSwept header h new }
    ensures thin { (header : Header) (h : ℕ) (old new : List Event) → Sound header old → Knows header h old → SameFacts header h old new → IsShut old
        → IsShut new → IsThin header h old → IsThin header h new }
{}

/// What a host's own event does to the host's pages, controls and frames: nothing is asked of numbers of hosts.
pub fn own_events_move_their_host()
    ensures local { (header : Header) (h : ℕ) (e : Event) (past : List Event) → is_home header h e past ≡ true → (place : Place)
        → local header h place (e ∷ past) ≡ local_after header.size (own_effect (λ o. backing_of header o past) (λ o. object_pages header o past) place
        (λ source. local header h source past)
        (live_control h place.object past) e) (local header h place past) }
    ensures live { (header : Header) (h : ℕ) (e : Event) (past : List Event) → is_home header h e past ≡ true → (o : ℕ)
        → live_control h o (e ∷ past) ≡ own_live o e (live_control h o past) }
    ensures last { (header : Header) (h : ℕ) (e : Event) (past : List Event) → is_home header h e past ≡ true → (o : ℕ)
        → last_control h o (e ∷ past) ≡ own_last o e (last_control h o past) }
    ensures ready { (header : Header) (h : ℕ) (e : Event) (past : List Event) → is_home header h e past ≡ true → (o : ℕ)
        → is_ready h o (e ∷ past) ≡ own_ready o (live_control h o past) e (is_ready h o past) }
    ensures cached { (header : Header) (h : ℕ) (e : Event) (past : List Event) → is_home header h e past ≡ true → (o : ℕ)
        → is_cached h o (e ∷ past) ≡ own_cached o (live_control h o past) (is_ready h o past) e (is_cached h o past) }
    ensures held { (header : Header) (h : ℕ) (e : Event) (past : List Event) → is_home header h e past ≡ true
        → frames_held header h (e ∷ past) ≡ frames_after (own_change (λ o. backing_of header o past) (λ o. object_pages header o past)
        (λ o page. (local header h (record { object = o; page = page }) past).here) (λ o control page. is_control control (live_control h o past) &&
        (local header h (record { object = o; page = page }) past).asked) (λ o. given_at_end header h o past) e) (frames_held header h past) }
    ensures wired { (header : Header) (h : ℕ) (e : Event) (past : List Event)
        → is_home header h e past ≡ true → frames_wired h (e ∷ past) ≡ own_wired e (frames_wired h past) }
    ensures out { (header : Header) (h : ℕ) (e : Event) (past : List Event) → is_home header h e past ≡ true
        → returns_out h (e ∷ past) ≡ own_out e (returns_out h past) }
{}

/// An event of one host is no other's, so it is nothing to the others.
#[tactic(auto, using(crate::proofs::Whose::abroad_of_own))]
pub fn events_have_one_home()
    ensures one { (header : Header) (outside : Outside) (g : ℕ) (e : Event) (past : List Event) → Sound header past → HasCause header outside e past
        → EntersNext e past → IsNewTask e past → is_home header g e past ≡ true → IsOnlyOfHost header g e past }
    ensures others { (header : Header) (outside : Outside) (g h : ℕ) (events past : List Event) → h ≢ g → EachIn (IsOfHost header outside g) events past
        → EachIn (IsAbroad header outside h) events past }
{}

/// A temporary region is used on one host, and what is declared stays as it was: of each history that
/// commands made.
#[tactic(auto, using(crate::proofs::Sounds::sound_of))]
pub fn regions_are_used_on_one_host()
    ensures sound { (header : Header) (outside : Outside) (history : List Event) → EachEvent (HasCause header outside) history → EachEvent EntersNext history
        → Sound header history }
    ensures entered { (header : Header) (outside : Outside) (commands : List Numbered) (history : List Event) → FollowsSoFar header outside commands history
        → EachEvent EntersNext history }
    ensures shut { (header : Header) (outside : Outside) (commands : List Numbered) (history : List Event) → FollowsSoFar header outside commands history
        → IsShut history }
{}

/// A worked run of two hosts meets the premises: what host 1 and its pager do is nothing to host 0.
#[tactic(auto, using(crate::proofs::TwoHosts::sound, crate::proofs::TwoHosts::knows, crate::proofs::TwoHosts::others_abroad))]
pub fn two_hosts()
    ensures sound { Sound run.header run.past }
    ensures knows { Knows run.header 0 run.past }
    ensures abroad { EachIn (IsAbroad run.header run.outside 0) run.others run.past }
{}
