//! Shared memory in a whole history: where each event has its cause, the page law holds of each page.
//!
//! The laws are about lists of events alone, the newest first, whatever program they come from. The
//! law of one shared page (vm_coherence) is about the page's own part of a history, and its premise is
//! that each event of that part has its cause there. Here that premise follows from the causes of the
//! whole history's events, so that what the page law says holds of each page of each shared object.
#![tactic(auto)]

ghost use Rattle.std.specs.Prelude.{ℕ, ◌≡◌, ◌≢◌, true, List, [], ◌<◌, ◌⊎◌, Some};
ghost use Rattle.vm_base.specs.declared.ids.PageNo.{PageNo};
ghost use Rattle.vm_model.specs.declared.event.Event.{Event};
ghost use Rattle.vm_model.specs.declared.message.Message.TheVariants as message;
ghost use Rattle.vm_model.specs.declared.script.Header.{Header};
ghost use Rattle.vm_model.specs.Channels.{DownInOrder, UpInOrder, queue, up_port};
ghost use Rattle.vm_model.specs.Coherence.{PageLegal, Done, StepsDone};
ghost use Rattle.vm_model.specs.Founded.{IsFounded};
ghost use Rattle.vm_model.specs.Local.{CanRead, CanWrite};
ghost use Rattle.vm_model.specs.Moments.{EachEvent, BeforeSteps};
ghost use Rattle.vm_model.specs.PageLicences.{ActsLicensed};
ghost use Rattle.vm_model.specs.PagePart.{page_part};
ghost use Rattle.vm_model.specs.Server.{current, NoRequest, NoUpgrade, first, line};
ghost use Rattle.vm_legal.specs.Bytes.{OwnBytes, CopiesCurrent, LoadsCurrent};
ghost use Rattle.vm_legal.specs.Flat.{flat_page};
ghost use Rattle.vm_legal.specs.Licences.{HasCause};
ghost use Rattle.vm_legal.specs.Outside.{NoneIsTemporary, Outside, is_shared};
ghost use Rattle.vm_legal.specs.Walks.{page_on};
ghost use Rattle.vm_shared.specs.Run as run;
ghost use Rattle.vm_model.specs.Side.{side};
ghost use Rattle.vm_legal.specs.Debts.{IsPaid};
ghost use Rattle.vm_legal.specs.Prompt.{AllServed, Prompt};
ghost use Rattle.vm_legal.specs.Undelivered.{undelivered};
ghost use Rattle.vm_quiet.specs.Quiet.{SharedAreAnswered, NobodyWaitsInVain};
ghost use Rattle.vm_shared.specs.Carried.{SharedAreCarried};
ghost use Rattle.vm_shared.specs.Served as served;

/// Each event of a shared page has its cause in the page's part, so the law of one shared page is about
/// every history whose events have their causes, and whose loads and stores are of what their own hosts
/// have. Nothing is asked of what steps owe.
#[tactic(auto, using(crate::proofs::Causes::licensed))]
pub fn shared_pages_are_licensed()
    ensures licensed { (header : Header) (outside : Outside) (history : List Event) → EachEvent (HasCause header outside) history
        → EachEvent (OwnBytes header) history → (o p : ℕ) → is_shared header o ≡ true → ActsLicensed header.size (page_part header.size o p history) }
{}

/// A shared page behaves as one memory: while a host can write it no other can read it, whoever has it
/// has what the stores left, and each load answers that, at every moment of the history.
#[tactic(auto, using(crate::proofs::Pages::legal, crate::proofs::Pages::one_writer, crate::proofs::Pages::same_bytes))]
pub fn shared_pages_are_one_memory()
    ensures legal { (header : Header) (outside : Outside) (history : List Event) → EachEvent (HasCause header outside) history
        → EachEvent (OwnBytes header) history → (o p : ℕ) → is_shared header o ≡ true → PageLegal header.size (page_part header.size o p history) }
    ensures one_writer { (header : Header) (outside : Outside) (history : List Event) → EachEvent (HasCause header outside) history
        → EachEvent (OwnBytes header) history → (g h o p : ℕ) → is_shared header o ≡ true → g ≢ h → CanWrite (page_on header h o p history)
        → CanRead (page_on header g o p history) → ⊥ }
    ensures same_bytes { (header : Header) (outside : Outside) (history : List Event) → EachEvent (HasCause header outside) history
        → EachEvent (OwnBytes header) history → (h o p : ℕ) → is_shared header o ≡ true → (page_on header h o p history).here ≡ true
        → (page_on header h o p history).bytes ≡ current header.size (page_part header.size o p history) }
{}

/// Of every kind of object: what is taken from a channel is its oldest message, nothing is sent to a
/// control that did not begin, and controls of an object have rising numbers on each host. And what the
/// page law takes for granted of each event: its page is here, its task lives, its control is the live
/// one.
#[tactic(auto, using(crate::proofs::Order::up_in_order, crate::proofs::Order::down_in_order, vm_flat::proofs::Locals::each_founded))]
pub fn channels_are_in_order()
    ensures up { (header : Header) (outside : Outside) (history : List Event) → EachEvent (HasCause header outside) history → UpInOrder history }
    ensures down { (header : Header) (outside : Outside) (history : List Event) → EachEvent (HasCause header outside) history → DownInOrder history }
    ensures founded { (header : Header) (outside : Outside) (history : List Event) → EachEvent (HasCause header outside) history
        → EachEvent (IsFounded header) history }
{}

/// A shared page's part has a step of a host under way only where the present step of the history took a lock
/// with a reply over the page and hasn't said that it is done: so where steps pay what they owe, no step ends
/// with one under way.
#[tactic(auto, using(crate::proofs::Steps::steps_done, crate::proofs::Steps::done_now))]
pub fn steps_are_done()
    ensures steps { (header : Header) (outside : Outside) (o p : ℕ) (history : List Event) → is_shared header o ≡ true
        → EachEvent (HasCause header outside) history → BeforeSteps (IsPaid header) history → StepsDone (page_part header.size o p history) }
    ensures now { (header : Header) (outside : Outside) (o p : ℕ) (past : List Event) → is_shared header o ≡ true → EachEvent (HasCause header outside) past
        → IsPaid header past → Done (page_part header.size o p past) }
{}

/// Where nothing is undelivered and each step has paid what it owes, the server of shared memory has answered
/// everybody, if of each page for which somebody stands in line some host is awaited: no page of a shared
/// object is asked, and no unlock of one is outstanding. So whoever still waits, waits on a wild object's region,
/// whose pager the script drives, or on a host that is short of frames: with no free frame, and fewer than two
/// that are neither wired nor held for such a pager. No declared object is temporary.
#[tactic(auto, using(crate::proofs::Answered::shared_are_answered, crate::proofs::Answered::nobody_waits))]
pub fn nobody_waits_for_the_server()
    ensures answered { (header : Header) (outside : Outside) (history : List Event) → EachEvent (HasCause header outside) history
        → EachEvent (OwnBytes header) history → BeforeSteps (IsPaid header) history → IsPaid header history
        → AllServed header history → undelivered history ≡ [] → SharedAreAnswered header history }
    ensures waits { (header : Header) (outside : Outside) (history : List Event) → NoneIsTemporary header → EachEvent (HasCause header outside) history
        → EachEvent (OwnBytes header) history → BeforeSteps (IsPaid header) history → IsPaid header history → AllServed header history → Prompt header history
        → undelivered history ≡ [] → NobodyWaitsInVain header history }
{}

/// What the server of shared memory is promised of the message that it takes, before it looks at it. The host
/// of a request, or of the end of a control, has no request in the line, and that of an unlock no upgrade. Where
/// a host is awaited, it says that it is done, and that a control ends, of the control for which it is awaited;
/// an end is so of every page. A request is to read or to write, an unlock to write, and a completion of one page.
///
/// That a return is a whole page, and that the host is one of the header's, doesn't follow from causes.
pub fn takings_keep_the_protocol()
    ensures request { (header : Header) (outside : Outside) (h o control access : ℕ) (page : PageNo) (past : List Event)
        → EachEvent (HasCause header outside) past → EachEvent (OwnBytes header) past → is_shared header o ≡ true
        → first (queue (up_port h o) past) ≡ Some (message.Request control page access) → NoRequest h (line (page_part header.size o page.0 past))
        × ((access ≡ 1) ⊎ (access ≡ 3)) }
    ensures unlock { (header : Header) (outside : Outside) (h o control access : ℕ) (page : PageNo) (past : List Event)
        → EachEvent (HasCause header outside) past → EachEvent (OwnBytes header) past
        → BeforeSteps (IsPaid header) past → is_shared header o ≡ true → first (queue (up_port h o) past) ≡ Some (message.Unlock control page access)
        → NoUpgrade h (line (page_part header.size o page.0 past))
        × (access ≡ 3) }
    ensures completed { (header : Header) (outside : Outside) (h o control count : ℕ) (page : PageNo) (past : List Event)
        → EachEvent (HasCause header outside) past → EachEvent (OwnBytes header) past → BeforeSteps (IsPaid header) past → is_shared header o ≡ true
        → first (queue (up_port h o) past) ≡ Some (message.Completed control page count) → (count ≡ 1)
        × ((side h (page_part header.size o page.0 past)).awaited_control ≡ control) }
    ensures ended { (header : Header) (outside : Outside) (h o control p : ℕ) (past : List Event) → EachEvent (HasCause header outside) past
        → EachEvent (OwnBytes header) past → BeforeSteps (IsPaid header) past → is_shared header o ≡ true
        → first (queue (up_port h o) past) ≡ Some (message.Terminate control) → NoRequest h (line (page_part header.size o p past))
        × (0 < (side h (page_part header.size o p past)).awaits → (side h (page_part header.size o p past)).awaited_control ≡ control) }
{}

/// Where each step has paid, what is asked of the server of shared memory is on its way: of each page that is
/// asked, and of each unlock that is outstanding, the message to the server or its answer is undelivered, or its
/// host stands in the server's line. Of each host that the server awaits for a page, also where its control has
/// ended, the lock that was sent to the control for which it is awaited is undelivered, or that this control has
/// done it, or its end; so if of each page for which somebody stands in line some host is awaited, a message of
/// that page is undelivered then too.
#[tactic(auto, using(crate::proofs::Carried::shared_are_carried))]
pub fn what_the_server_is_asked_is_on_its_way()
    ensures carried { (header : Header) (outside : Outside) (history : List Event) → EachEvent (HasCause header outside) history
        → EachEvent (OwnBytes header) history → BeforeSteps (IsPaid header) history
        → IsPaid header history → AllServed header history → SharedAreCarried header history }
{}

/// A worked history that meets all of that: two hosts map one shared page, host 0 reads it, host 1 wants to
/// write it, and host 0 gives it up. It ends with nothing undelivered.
#[tactic(auto, using(crate::proofs::ServedRun::served_causes, crate::proofs::ServedRun::served_own, crate::proofs::ServedRun::served_delivered, crate::proofs::ServedRun::served_kinds))]
pub fn served_run()
    ensures kinds { NoneIsTemporary served.header }
    ensures causes { EachEvent (HasCause served.header served.outside) served.history }
    ensures own { EachEvent (OwnBytes served.header) served.history }
    ensures delivered { undelivered served.history ≡ [] }
{}

/// A worked history that meets the premises: two hosts map one shared page and read it, host 0 wants to
/// write, and its unlock crosses what the others do. Host 1 ends its control while it is awaited, maps
/// the page anew and reads what host 0 stored. At last the page is copied on host 0, page by page.
#[tactic(auto, using(crate::proofs::Run::causes, crate::proofs::Run::own_bytes))]
pub fn shared_run()
    ensures shared { is_shared run.header 0 ≡ true }
    ensures causes { EachEvent (HasCause run.header run.outside) run.history }
    ensures own_bytes { EachEvent (OwnBytes run.header) run.history }
{}

/// The flat map speaks of shared memory too: its page is what the stores of the page's part leave,
/// whatever page it is. So a slow copy from a shared page takes the flat map's bytes, and a load of
/// shared memory answers them; the law of the flat map supposes both.
///
/// No declared object is temporary: of one that were, nothing would say what its pager answers.
#[tactic(auto, using(crate::proofs::Flat::current_is_flat, crate::proofs::Currents::copies_current, crate::proofs::Currents::loads_current))]
pub fn copies_and_loads_are_current()
    ensures flat { (header : Header) (outside : Outside) (history : List Event) → EachEvent (HasCause header outside) history → (o p : ℕ)
        → is_shared header o ≡ true → flat_page header outside o p history ≡ current header.size (page_part header.size o p history) }
    ensures copies { (header : Header) (outside : Outside) (history : List Event) → NoneIsTemporary header → EachEvent (HasCause header outside) history
        → EachEvent (OwnBytes header) history → EachEvent (CopiesCurrent header outside) history }
    ensures loads { (header : Header) (outside : Outside) (history : List Event) → EachEvent (HasCause header outside) history
        → EachEvent (OwnBytes header) history → EachEvent (LoadsCurrent header outside) history }
{}
