//! Worked histories: what is canonical, what is legal and not canonical, and what isn't legal.
//!
//! They are lists of events that stand here whole, the newest first, so that the definitions of what a history has to be are seen
//! to hold of something, and to refuse something.
#![tactic(auto)]

ghost use Rattle.std.specs.Prelude.{◌≡◌, ◌∷◌, List};
ghost use Rattle.vm_model.specs.declared.command.Command.{Command};
ghost use Rattle.vm_model.specs.declared.command.Numbered.{Numbered};
ghost use Rattle.vm_model.specs.declared.event.Event.TheVariants as event;
ghost use Rattle.vm_legal.specs.Legal.{CanonicalFor, LegalFor};
ghost use Rattle.vm_legal.specs.Licences.{Caused};
ghost use Rattle.vm_legal.specs.Frames.{frames_free};
ghost use Rattle.vm_legal.specs.InTurn.{ComesToPage};
ghost use Rattle.vm_legal.specs.Outside.{Outside};
ghost use Rattle.vm_legal.specs.Prompt.{WaitsForPager};
ghost use Rattle.vm_model.specs.Waiting.{Loading};
ghost use Rattle.vm_quiet.specs.Unended as unended;
ghost use Rattle.vm_worked.specs.Beside as beside;
ghost use Rattle.vm_worked.specs.Pushed as pushed;
ghost use Rattle.vm_worked.specs.Sleeping as sleeping;
ghost use Rattle.vm_worked.specs.Swapped as swapped;
ghost use Rattle.vm_worked.specs.Worked as worked;

/// A whole history that is as the rules give it for its commands: a task maps a shared object of one page, and copies the page to an
/// address of its own. The copy is a slow one, which waits for the server of shared memory; when the page has come it is copied, the
/// copy ends, and its task gets the entry. So it is legal too.
pub fn a_run_with_a_slow_copy_is_canonical()
    ensures canonical { CanonicalFor worked.header worked.outside worked.commands worked.history }
    ensures legal { LegalFor worked.header worked.outside worked.commands worked.history }
{}

/// The same history without its last two events, in which the copy never ends, is legal for no commands: the task still waits behind
/// the last step, and has no page left to wait for.
pub fn a_copy_that_never_ends_is_not_legal()
    ensures { (commands : List Numbered) → LegalFor unended.header unended.outside commands unended.history → ⊥ }
{}

/// A whole history that is legal, and not the one that the rules give: a task loads both pages of fresh memory, and ends, and the
/// second page goes before the first. To be legal a page of an object to which no region leads may go at any time; but the rules take
/// the pages of an object that ends by rising number. So it is canonical for no commands.
pub fn legal_and_not_canonical()
    ensures legal { LegalFor swapped.header swapped.outside swapped.commands swapped.history }
    ensures not_canonical { (commands : List Numbered) → CanonicalFor swapped.header swapped.outside commands swapped.history → ⊥ }
{}

/// A history in which an access sleeps beside its page is canonical for no commands. The page for which it waited is here, six frames are
/// free, and it counts as one that waits for its pager for one reason alone: another task has asked for the page below its own.
pub fn an_access_beside_its_page_may_not_sleep()
    ensures awaits { WaitsForPager sleeping.header 0 1 (Loading 0 1) sleeping.history }
    ensures comes { ComesToPage sleeping.header 0 1 sleeping.history }
    ensures free { frames_free sleeping.header 0 sleeping.history ≡ 6 }
    ensures not_canonical { (outside : Outside) (commands : List Numbered) → CanonicalFor sleeping.header outside commands sleeping.history → ⊥ }
{}

/// Behind the last page of a slow copy lies memory that nobody has touched. The copy has no page left, so it is no access to that
/// memory, and under no command have zeros a cause to come there.
pub fn zeros_for_nobody_have_no_cause()
    ensures { (outside : Outside) (doing : Command) → Caused beside.header outside doing (event.Zeroed beside.host (beside.object 1) beside.page) beside.history
        → ⊥ }
{}

/// A task has copied a page of a file that is here, and begins a store on the file. What the copy still shares comes to its own place
/// first: that has its cause, and the store has one behind it, and none without it.
pub fn a_store_on_a_copied_file_pushes_first()
    ensures pushed { (outside : Outside) (doing : Command) → Caused pushed.header outside doing pushed.push pushed.history }
    ensures paid { (outside : Outside) (doing : Command) → Caused pushed.header outside doing pushed.store (pushed.push ∷ pushed.history) }
    ensures unpaid { (outside : Outside) (doing : Command) → Caused pushed.header outside doing pushed.store pushed.history → ⊥ }
{}
