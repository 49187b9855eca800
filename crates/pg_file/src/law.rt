// That what a file's pager answers is a step of a legal history.
ghost use Rattle.std.specs.Prelude.{ℕ, ◌≡◌, ◌++◌, true, Bool, List, [], ◌∷◌, Option, Ok};
ghost use Rattle.pg_file.specs.Answers.{CacheEvents, CleanEvents, LeavesFile};
ghost use Rattle.pg_file.specs.Files.{FileTable};
ghost use Rattle.pg_file.specs.Stands.{AnswersKept, CarriesFile, FileKept, IsOther, PagerServes, PagerStands, new_table, taking};
ghost use Rattle.vm_base.specs.Listing.{Listed};
ghost use Rattle.vm_base.specs.declared.ids.PageNo.{PageNo};
ghost use Rattle.vm_legal.specs.Debts.{IsPaid};
ghost use Rattle.vm_legal.specs.Licences.{IsCache, IsClean, tells};
ghost use Rattle.vm_legal.specs.InTurn.{AllInTurn};
ghost use Rattle.vm_legal.specs.Outside.{Outside, is_file};
ghost use Rattle.vm_legal.specs.Steps.{just_begun};
ghost use Rattle.vm_model.specs.declared.command.Command.{Command};
ghost use Rattle.vm_model.specs.declared.event.Event.{Event};
ghost use Rattle.vm_model.specs.declared.message.Message.{Message};
ghost use Rattle.vm_model.specs.declared.script.Header.{Header};
ghost use Rattle.vm_outside.specs.Areas.{Told};

/// What a file's pager answers is a step of a legal history: where it stands for the history in
/// front of a message, it stands for the history behind its answer, each event of the answer has
/// its cause, and the step owes nothing. So whatever `FilePager::answer` gives is as the definitions
/// of legal histories want it. The same is said of `FilePager::clean` and `FilePager::cache`.
///
/// It is of messages from one host. A new pager stands for the empty history, and events in which
/// the pager has no part leave what it stands for. So it is with what the file holds, from whatever
/// it held at the start.
#[tactic(auto)]
pub fn answers_are_legal()
    ensures start { (header : Header) (object : ℕ)
        → is_file header object ≡ true → PagerStands header object (new_table header object) [] }
    ensures stands { (header : Header) (host : ℕ) (past : List Event) (object : ℕ) (m : Message) (old new : FileTable) (events : List Event)
        → PagerServes header host past object m old new events
        → PagerStands header object new (events ++ taking host object m past) }
    ensures others { (header : Header) (object : ℕ) (table : FileTable) (e : Event) (past : List Event)
        → IsOther object e → PagerStands header object table past → PagerStands header object table (e ∷ past) }

    // Where files are told, an answer must say what its file has.
    ensures causes { (header : Header) (outside : Outside) (doing : Command) (host : ℕ) (past : List Event) (object : ℕ) (m : Message) (old new : FileTable)
        (events : List Event)
        → PagerServes header host past object m old new events
        → (tells header outside object ≡ true → AnswersKept header outside host object past events)
        → AllInTurn header outside doing events (taking host object m past) }
    ensures paid { (header : Header) (host : ℕ) (past : List Event) (object : ℕ) (m : Message) (old new : FileTable) (events : List Event)
        → PagerServes header host past object m old new events → IsPaid header (events ++ taking host object m past) }

    // A clean stands right behind its line, and so does a word whether the file stays.
    ensures cleans { (header : Header) (outside : Outside) (doing : Command) (past : List Event) (object : ℕ) (table : FileTable) (page : PageNo) (count : ℕ)
        (flush : Bool) (events : List Event)
        → PagerStands header object table past → just_begun past ≡ true → IsClean doing object page.0 count flush
        → CleanEvents table.known table.object page count flush events → AllInTurn header outside doing events past }
    ensures clean_stands { (header : Header) (past : List Event) (object : ℕ) (table : FileTable) (page : PageNo) (count : ℕ) (flush : Bool)
        (events : List Event)
        → PagerStands header object table past → CleanEvents table.known table.object page count flush events
        → PagerStands header object table (events ++ past) }
    ensures caches { (header : Header) (outside : Outside) (doing : Command) (past : List Event) (object : ℕ) (table : FileTable) (cache : Bool)
        (events : List Event)
        → PagerStands header object table past → just_begun past ≡ true → IsCache doing object cache
        → CacheEvents table.known table.object cache events → AllInTurn header outside doing events past }
    ensures cache_stands { (header : Header) (past : List Event) (object : ℕ) (table : FileTable) (cache : Bool) (events : List Event)
        → PagerStands header object table past → CacheEvents table.known table.object cache events
        → PagerStands header object table (events ++ past) }

    ensures carries { (header : Header) (host : ℕ) (past : List Event) (object : ℕ) (m : Message) (old new : FileTable) (events : Listed Event)
        (before after : List ℕ → Told)
        → PagerServes header host past object m old new events.items
        → LeavesFile m old before after (Ok events)
        → CarriesFile header.size host object old.name before after past (events.items ++ taking host object m past) }
    ensures others_carry { (size host object : ℕ) (start now : Option (List ℕ)) (e : Event) (past : List Event)
        → IsOther object e → FileKept size host object start now past → FileKept size host object start now (e ∷ past) }
    ensures empty { (size host object : ℕ) (start : Option (List ℕ)) → FileKept size host object start start [] }
{}
