// What the directory's answers are to the history of its page.
ghost use Rattle.std.specs.Prelude.{ℕ, List, [], ◌∷◌, ◌≡◌, ◌<◌, Bool};
ghost use Rattle.vm_base.specs.Limits.{most_hosts};
ghost use Rattle.vm_model.specs.Words.{Act, Asking, Unlocking, Returning, Doing, Ending};
ghost use Rattle.vm_model.specs.Side.{side};
ghost use Rattle.vm_model.specs.PageLicences.{ActsLicensed};
ghost use Rattle.sms_pages.specs.declared.reply.Reply.{Reply};
ghost use Rattle.sms_pages.specs.Directory.{Directory, requested, unlock_heard, saved, finished, ended, IsNewDirectory, IsServedDirectory};
ghost use Rattle.vm_model.specs.Server.{line, NoRequest, NoUpgrade};
ghost use Rattle.sms_pages.specs.Stands.{StandsFor, Hears, RepliesHaveCause, taking_act};

/// The law of a page's directory: where it stands for the history of its page, each message that the
/// server takes leaves it standing for the history with that message, each reply has its cause, and
/// behind them each host is awaited that stands in the way of the first in line.
///
/// It asks of the hosts what their own rules give: one request and one unlock at a time, and a
/// completion or an end that speaks of the control for which the host is awaited. `heard` is the
/// control of the last request taken from each host, to which the replies go.
#[tactic(auto, using(crate::proofs::Taken::begins))]
pub fn directory_law()
    ensures begins { (size : ℕ) (d : Directory) → IsNewDirectory size d → StandsFor size d [] }
    ensures request { (size h control access : ℕ) (d : Directory) (past : List Act) → StandsFor size d past → h < most_hosts
        → NoRequest h (line past) → StandsFor size (requested h access d) (taking_act h (Asking control access) ∷ past) }
    ensures unlock { (size h access : ℕ) (d : Directory) (past : List Act) → StandsFor size d past → h < most_hosts
        → NoUpgrade h (line past) → StandsFor size (unlock_heard h d) (taking_act h (Unlocking access) ∷ past) }
    ensures returned { (size h : ℕ) (dirty keep : Bool) (bytes : List ℕ) (d : Directory) (past : List Act)
        → StandsFor size d past → h < most_hosts
        → StandsFor size (saved h keep bytes d) (taking_act h (Returning dirty keep bytes) ∷ past) }
    ensures completed { (size h control count : ℕ) (d : Directory) (past : List Act) → StandsFor size d past → h < most_hosts
        → (0 < (side h past).awaits → (side h past).awaited_control ≡ control)
        → StandsFor size (finished h d) (taking_act h (Doing control count) ∷ past) }
    ensures gone { (size h control : ℕ) (d : Directory) (past : List Act) → StandsFor size d past → h < most_hosts
        → (0 < (side h past).awaits → (side h past).awaited_control ≡ control)
        → StandsFor size (ended h d) (taking_act h (Ending control) ∷ past) }
    ensures served { (size : ℕ) (heard : ℕ → ℕ) (changed after : Directory) (replies : List Reply) (past : List Act)
        → ActsLicensed size past → StandsFor size changed past → Hears heard past → IsServedDirectory changed after replies
        → RepliesHaveCause size heard after replies past }
{}
