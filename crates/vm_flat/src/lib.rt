//! What loads of temporary and file memory answer: a law of event lists.
#![tactic(auto)]

ghost use Rattle.std.specs.Prelude.{ℕ, ◌≡◌, ◌≤◌, ◌<◌, false, true, List, [], length, None, Option, Some};
ghost use Rattle.vm_model.specs.Channels.{queue, up_port};
ghost use Rattle.vm_model.specs.Controls.{last_control, live_control};
ghost use Rattle.vm_model.specs.Founded.{IsFounded};
ghost use Rattle.vm_model.specs.Local.{is_known_absent, local};
ghost use Rattle.vm_model.specs.Moments.{BeforeSteps, EachEvent};
ghost use Rattle.vm_model.specs.Named.{declared_pages};
ghost use Rattle.vm_model.specs.declared.command.Numbered.{Numbered};
ghost use Rattle.vm_model.specs.declared.event.Event.{Event};
ghost use Rattle.vm_model.specs.declared.script.Header.{Header};
ghost use Rattle.vm_legal.specs.Bytes.{CopiesCurrent, FlatBytes, LoadsCurrent, OwnBytes};
ghost use Rattle.vm_legal.specs.Flat.{flat_page};
ghost use Rattle.vm_legal.specs.Follows.{FollowsAnyCut};
ghost use Rattle.vm_legal.specs.Licences.{HasCause, pager_has};
ghost use Rattle.vm_legal.specs.Outside.{Outside, is_file, is_private_from, is_said};
ghost use Rattle.vm_legal.specs.Pagers.{last_return};
ghost use Rattle.vm_legal.specs.Prompt.{Prompt};
ghost use Rattle.vm_legal.specs.Used.{in_use};
ghost use Rattle.vm_legal.specs.Walks.{page_on};
ghost use Rattle.vm_flat.specs.Forgets as forgets;
ghost use Rattle.vm_flat.specs.Locals.{SpotIsLocal};
ghost use Rattle.vm_flat.specs.Places.{spot};
ghost use Rattle.vm_flat.specs.Told.{AnswersTold, told, untold};

/// Each load of temporary or file memory answers the flat map's bytes, whatever was shadowed,
/// raised, paged out, supplied, lost or dropped before it: of every history whose events have their
/// causes, and whose loads answer from the pages of their own hosts.
///
/// `outside` tells what the files hold at the start, if that is told: else their pages are what
/// their pagers' answers said last. Where it says that the paging area does not tell, nothing is
/// said of temporary regions; and where the files aren't told, nothing of those that come from one by
/// delayed copies. Of a slow copy from a shared object it is supposed that it takes that object's flat
/// page, and of a load of shared memory that it answers the flat page: the law of shared memory says so.
#[tactic(auto, using(crate::proofs::Loads::answers))]
pub fn loads_answer()
    ensures { (header : Header) (outside : Outside) (history : List Event) → EachEvent (HasCause header outside) history → EachEvent (OwnBytes header) history
        → EachEvent (CopiesCurrent header outside) history → EachEvent (LoadsCurrent header outside) history → EachEvent (FlatBytes header outside) history }
{}

/// A place is what its host has of the page, at every moment of every history: there is one notion of
/// a host's page. Locks, and whether a page is precious, are no matter of temporary and file memory.
///
/// Each event that has its cause is founded.
#[tactic(auto, using(crate::proofs::Locals::spot_is_local, crate::proofs::Locals::each_founded, crate::proofs::Locals::known_absent))]
pub fn places_are_local()
    ensures page { (header : Header) (outside : Outside) (history : List Event) (host o p : ℕ)
        → SpotIsLocal (is_file header o) (last_control host o history) (live_control host o history) (spot header outside host o p history)
        (local header host (record { object = o; page = p }) history) }
    ensures known_absent { (header : Header) (outside : Outside) (history : List Event) (host o p : ℕ) (from : Option ℕ)
        → is_private_from header outside o from ≡ true
        → (spot header outside host o p history).absent ≡ is_known_absent header (record { object = o; page = p })
        (local header host (record { object = o; page = p }) history) }
    ensures founded { (header : Header) (outside : Outside) (history : List Event)
        → EachEvent (HasCause header outside) history → EachEvent (IsFounded header) history }
{}

/// What a file's pager took last is the flat map's page, where the file is told, no changed copy of the page
/// is on the host that uses the file, and nothing is on its way up from there: else it is what the file had.
///
/// A page of a file is on a host only while a control of the file lives there, so where none lives nothing
/// is left of it. And no page past the object's end is ever returned: what the file holds there is never
/// touched.
#[tactic(auto, using(crate::proofs::Settled::settled, crate::proofs::Staying::none_here, crate::proofs::Beyond::none_beyond))]
pub fn files_hold_the_flat_map()
    ensures settled { (header : Header) (outside : Outside) (history : List Event) → EachEvent (HasCause header outside) history
        → EachEvent (CopiesCurrent header outside) history → (host o p : ℕ) → is_file header o ≡ true → is_said header outside o ≡ false
        → in_use header host o history ≡ true → p < declared_pages header o → queue (up_port host o) history ≡ []
        → ((page_on header host o p history).here ≡ true → (page_on header host o p history).dirty ≡ false)
        → pager_has header outside host o p history ≡ Some (flat_page header outside o p history) }
    ensures away { (header : Header) (outside : Outside) (commands : List Numbered) (history : List Event) → FollowsAnyCut header outside commands history
        → EachEvent (CopiesCurrent header outside) history → BeforeSteps (Prompt header) history → (host o p : ℕ) → host < length header.frames.items
        → is_file header o ≡ true → live_control host o history ≡ None → (page_on header host o p history).here ≡ false }
    ensures beyond { (header : Header) (outside : Outside) (history : List Event) → EachEvent (HasCause header outside) history
        → EachEvent (CopiesCurrent header outside) history → (host o p : ℕ) → is_file header o ≡ true → declared_pages header o ≤ p
        → last_return host o p history ≡ None }
{}

/// Files that aren't told, as those of a folder: what their pages are each answer of their pagers says anew, so
/// nothing holds such a pager to what it took, and it may take back a page with a 7 and then supply
/// zeros. But let each of these answers carry what the pager has: the last return that it took, else what
/// the file held at the start, in `pages`. Then each event has the cause that it would have if `pages`
/// were told, and each load answers the flat map that begins with `pages`: none forgets a store. Whoever
/// has the history and `pages` can look at each answer by itself.
///
/// A pager gives no page of which the last return was not stored, so the last that it took is the last
/// that it stored. The other way round each history of told files is one of files that aren't told, and each
/// of its answers is such.
#[tactic(auto, using(crate::proofs::Told::told_causes, crate::proofs::Told::each_told, crate::proofs::Told::untold_causes))]
pub fn untold_files_answer()
    ensures causes { (header : Header) (outside : Outside) (pages : ℕ → ℕ → List ℕ) (history : List Event) → EachEvent (HasCause header outside) history
        → EachEvent (AnswersTold header pages) history → EachEvent (HasCause header (told outside pages)) history }
    ensures answers { (header : Header) (outside : Outside) (pages : ℕ → ℕ → List ℕ) (history : List Event) → EachEvent (HasCause header outside) history
        → EachEvent (AnswersTold header pages) history → EachEvent (OwnBytes header) history → EachEvent (CopiesCurrent header (told outside pages)) history
        → EachEvent (LoadsCurrent header (told outside pages)) history → EachEvent (FlatBytes header (told outside pages)) history }
    ensures each { (header : Header) (outside : Outside) (pages : ℕ → ℕ → List ℕ) (history : List Event)
        → EachEvent (HasCause header (told outside pages)) history → EachEvent (AnswersTold header pages) history }
    ensures untold { (header : Header) (outside : Outside) (pages : ℕ → ℕ → List ℕ) (history : List Event)
        → EachEvent (HasCause header (told outside pages)) history → EachEvent (HasCause header (untold outside)) history }
{}

/// By the causes alone a file that isn't told may forget: its pager took back a page with a 7, then supplies
/// zeros, and a load answers 0. Whatever the file held at the start, that isn't what the pager has.
#[tactic(auto, using(crate::proofs::Forgets::forgets_causes, crate::proofs::Forgets::forgets_own, crate::proofs::Forgets::forgets_returned, crate::proofs::Forgets::forgets_untold))]
pub fn an_untold_file_may_forget()
    ensures causes { EachEvent (HasCause forgets.header forgets.outside) forgets.history }
    ensures own { EachEvent (OwnBytes forgets.header) forgets.history }
    ensures returned { last_return 0 0 0 forgets.asked ≡ Some forgets.seven }
    ensures untold { (pages : ℕ → ℕ → List ℕ) → EachEvent (AnswersTold forgets.header pages) forgets.history → ⊥ }
{}
