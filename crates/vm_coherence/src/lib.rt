//! The coherence of a page of shared memory, over every order of its messages and any number of hosts.
//!
//! The law is about lists of events alone, whatever program they come from. Its premise is that each
//! event has its cause: a host sends and takes by the Mach 3 kernel interfaces, in the order of its
//! channels, and the server of the page answers by its rows.
#![tactic(auto)]

ghost use Rattle.std.specs.Prelude.{ℕ, List, ◌∷◌, ◌≡◌, ◌≢◌, ◌<◌, Some, true};
ghost use Rattle.vm_base.specs.declared.ids.HostId.{HostId};
ghost use Rattle.vm_base.specs.declared.ids.ObjectId.{ObjectId};
ghost use Rattle.vm_base.specs.declared.ids.PageNo.{PageNo};
ghost use Rattle.vm_model.specs.declared.message.Channel.TheVariants.{Up};
ghost use Rattle.vm_model.specs.declared.message.Message.TheVariants.{Request, Terminate};
ghost use Rattle.vm_model.specs.declared.event.Event.TheVariants.{Sent};
ghost use Rattle.vm_model.specs.Words.{Act, Asking, Unlocking, Doing, Ending};
ghost use Rattle.vm_model.specs.declared.event.Event.{Event};
ghost use Rattle.vm_model.specs.declared.script.Header.{Header};
ghost use Rattle.vm_model.specs.Channels.{UpInOrder, up_queue, up_words, DownInOrder, down_queue, down_words};
ghost use Rattle.vm_model.specs.Controls.{last_control, live_control};
ghost use Rattle.vm_model.specs.Founded.{IsFounded};
ghost use Rattle.vm_model.specs.Local.{CanRead, CanWrite, local};
ghost use Rattle.vm_model.specs.Moments.{EachEvent};
ghost use Rattle.vm_model.specs.Side.{side};
ghost use Rattle.vm_model.specs.Server.{current, first, line, NoRequest, NoUpgrade};
ghost use Rattle.vm_model.specs.PageLicences.{ActsLicensed};
ghost use Rattle.vm_model.specs.PagePart.{page_part, world_part};
ghost use Rattle.vm_coherence.specs.Carried.{IsCarriedAt};
ghost use Rattle.vm_coherence.specs.Crossing.{crossing};
ghost use Rattle.vm_coherence.specs.Idle.{flushed, idle_request};
ghost use Rattle.vm_coherence.specs.Locals.{IsUnmerged, SideIsLocal};
ghost use Rattle.vm_coherence.specs.Remapping.{remapping};
ghost use Rattle.vm_coherence.specs.SlowCopy.{copying, reclaimed, read_again};
ghost use Rattle.vm_model.specs.Coherence.{Throughout, OneWriter, SameBytes, EachLoadReads, PageLegal, StepsDone, SomebodyIsAwaited, WaitersHaveAsked, Quiet};
ghost use Rattle.vm_model.specs.Coherence.{NothingIsAsked, NobodyWaits};

/// The law of one shared page, for any page size. It holds of the page's part of a history and of
/// the page world alike, and for whatever host, also one that never appears.
///
/// One writer is the protocol's promise in Forin, Barrera and Sanzi 1989: while a host can write,
/// no other can read, at every moment, also inside a step. A load therefore reads what the stores in
/// front of it left. Where nothing is on its way and each step has paid what it owes, no page is
/// asked for and no unlock is outstanding, so that no access waits.
pub fn coherence_law()
    ensures one_writer { (size : ℕ) (acts : List Act) → ActsLicensed size acts → Throughout OneWriter acts }
    ensures same_bytes { (size : ℕ) (acts : List Act) → ActsLicensed size acts → Throughout (SameBytes size) acts }
    ensures loads { (size : ℕ) (acts : List Act) → ActsLicensed size acts → EachLoadReads size acts }
    ensures legal { (size : ℕ) (acts : List Act) → ActsLicensed size acts → PageLegal size acts }
    ensures answered { (size : ℕ) (acts : List Act) → ActsLicensed size acts → StepsDone acts → SomebodyIsAwaited acts → Quiet acts → NothingIsAsked acts }
    ensures nobody_waits { (size : ℕ) (acts : List Act) → ActsLicensed size acts → StepsDone acts → SomebodyIsAwaited acts → WaitersHaveAsked acts → Quiet acts
        → NobodyWaits acts }
{}

/// A worked run of the page world, of 16-byte pages: two hosts read a page and then both store. The
/// unlock of one and the flush for it cross the other's unlock. The run has a cause for each event,
/// pays what its steps owe and ends quiet, so the law's premises are met by runs in which every kind
/// of message but `terminate` appears.
pub fn crossing_run()
    ensures licensed { ActsLicensed 16 (world_part 16 crossing) }
    ensures done { StepsDone (world_part 16 crossing) }
    ensures served { SomebodyIsAwaited (world_part 16 crossing) }
    ensures prompt { WaitersHaveAsked (world_part 16 crossing) }
    ensures quiet { Quiet (world_part 16 crossing) }
{}

/// What the hosts' own rules give the server of a page: when a request is taken, none of its host is
/// in the line, nor when the end of one of its controls is; when an unlock is taken, no upgrade of its
/// host is; a lock that is said done, and a control that ends while its host is awaited, are of the
/// control for which the host is awaited.
///
/// A server that takes each message in its turn may so note a host's words without looking at the
/// control that they name.
pub fn protocol_law()
    ensures one_request { (size h control access : ℕ) (acts : List Act) → ActsLicensed size acts → first (side h acts).up ≡ Some (Asking control access)
        → NoRequest h (line acts) }
    ensures one_unlock { (size h access : ℕ) (acts : List Act) → ActsLicensed size acts → StepsDone acts → first (side h acts).up ≡ Some (Unlocking access)
        → NoUpgrade h (line acts) }
    ensures completed { (size h control count : ℕ) (acts : List Act) → ActsLicensed size acts → StepsDone acts
        → first (side h acts).up ≡ Some (Doing control count) → (side h acts).awaited_control ≡ control }
    ensures ended_unasked { (size h control : ℕ) (acts : List Act) → ActsLicensed size acts → first (side h acts).up ≡ Some (Ending control)
        → NoRequest h (line acts) }
    ensures ended { (size h control : ℕ) (acts : List Act) → ActsLicensed size acts → StepsDone acts → first (side h acts).up ≡ Some (Ending control)
        → 0 < (side h acts).awaits → (side h acts).awaited_control ≡ control }
{}

/// Whatever a host waits for of a page is on its way, or with the server, and so is whatever the server
/// waits for: a request in the queue up, in the server's line, or answered in the queue down; an unlock
/// likewise; and of a host that is awaited the lock, that it is done, or the end of the control. Only what
/// stands in the line waits for somebody else.
#[tactic(auto, using(crate::proofs::Carrying::carried))]
pub fn carried_law()
    ensures carried { (size : ℕ) (acts : List Act) → ActsLicensed size acts → StepsDone acts → (h : ℕ) → IsCarriedAt h acts }
{}

/// A worked history of a whole system, of 16-byte pages: two hosts map one page and read it, host 0
/// wants to write, and host 1 ends its control while it is awaited, maps the page anew and reads what
/// host 0 stored. The page's part of it has a cause for each event and pays what its steps owe.
#[tactic(auto, using(crate::proofs::Remapping::remapping_licensed, crate::proofs::Remapping::remapping_done))]
pub fn remapping_run()
    ensures licensed { ActsLicensed 16 (page_part 16 0 0 remapping) }
    ensures done { StepsDone (page_part 16 0 0 remapping) }
{}

/// A request to read needs somebody who reads. In this run of the page world, of 16-byte pages, host 0
/// reads the page and gives it up to host 1, which wants to write it, and each event has a cause. If
/// host 0 then asks to read again though nobody waits there, that has none.
#[tactic(auto, using(crate::proofs::Idle::flushed_licensed, crate::proofs::Idle::idle_refused))]
pub fn idle_run()
    ensures licensed { ActsLicensed 16 (world_part 16 flushed) }
    ensures idle { ActsLicensed 16 (world_part 16 idle_request) → ⊥ }
{}

/// A slow copy reads too, each of its pages once. In this history, of 16-byte pages, a slow copy asks
/// for the first page of an object, copies it and asks for the second; the first is then reclaimed.
/// Each event has a cause, at the second page up to the request for it. If the host then asks for the
/// first page again, that has none, though the copy still waits for the second.
#[tactic(auto, using(crate::proofs::SlowCopy::reclaimed_licensed, crate::proofs::SlowCopy::second_licensed, crate::proofs::SlowCopy::again_refused))]
pub fn slow_copy_run()
    ensures first { ActsLicensed 16 (page_part 16 0 0 reclaimed) }
    ensures second { ActsLicensed 16 (page_part 16 0 1 copying) }
    ensures again { ActsLicensed 16 (page_part 16 0 0 read_again) → ⊥ }
{}

/// A page's words are the messages of its channels, in order, so that first in, first out is said
/// once for each channel of a whole history. Up: the page's words on the way from a host, where what
/// is taken from each channel up is its oldest message. Down: those on the way to the live control,
/// where the same holds of each channel down, nothing is sent to a control before it begins, and a
/// control has a greater number than those before it.
#[tactic(auto, using(crate::proofs::Channels::page_queue, crate::proofs::Descent::page_descent, crate::proofs::Descent::page_control))]
pub fn channel_law()
    ensures up { (size : ℕ) (history : List Event) (h o p : ℕ) → UpInOrder history
        → (side h (page_part size o p history)).up ≡ up_words p (up_queue h o history) }
    ensures down { (size : ℕ) (history : List Event) (h o p : ℕ) → DownInOrder history → (side h (page_part size o p history)).live ≡ true
        → (side h (page_part size o p history)).down ≡ down_words p (down_queue h o (side h (page_part size o p history)).control history) }
    ensures control { (size : ℕ) (history : List Event) (h o p : ℕ) → DownInOrder history
        → (side h (page_part size o p history)).control ≡ last_control h o history }
{}

/// What a page's part says of a host is what the host has of the page, at every moment of a history
/// in which each event is founded and no merge names the page's object: so there is one notion of a
/// host's page, and the law of one shared page speaks of it: one writer, and bytes that are those of
/// the stores on every host. Where the page isn't here the part's bytes, lock and marks mean nothing.
///
/// That a request and the end of a control are the live control's follows from their causes.
pub fn local_law()
    ensures page { (header : Header) (history : List Event) (h o p : ℕ) → IsUnmerged o history → EachEvent (IsFounded header) history
        → SideIsLocal (live_control h o history) (side h (page_part header.size o p history)) (local header h (record { object = o; page = p }) history) }
    ensures one_writer { (header : Header) (history : List Event) (g h o p : ℕ) → IsUnmerged o history → EachEvent (IsFounded header) history
        → ActsLicensed header.size (page_part header.size o p history) → g ≢ h
        → CanWrite (local header h (record { object = o; page = p }) history) → CanRead (local header g (record { object = o; page = p }) history) → ⊥ }
    ensures same_bytes { (header : Header) (history : List Event) (h o p : ℕ) → IsUnmerged o history → EachEvent (IsFounded header) history
        → ActsLicensed header.size (page_part header.size o p history) → (local header h (record { object = o; page = p }) history).here ≡ true
        → (local header h (record { object = o; page = p }) history).bytes ≡ current header.size (page_part header.size o p history) }
    ensures asked { (header : Header) (past : List Event) (host : HostId) (object : ObjectId) (control access : ℕ) (page : PageNo)
        → EachEvent (IsFounded header) past
        → ActsLicensed header.size (page_part header.size object.0 page.0 (Sent (Up host object) (Request control page access) ∷ past))
        → IsFounded header (Sent (Up host object) (Request control page access)) past }
    ensures ended { (header : Header) (past : List Event) (host : HostId) (object : ObjectId) (control p : ℕ) → EachEvent (IsFounded header) past
        → ActsLicensed header.size (page_part header.size object.0 p (Sent (Up host object) (Terminate control) ∷ past))
        → IsFounded header (Sent (Up host object) (Terminate control)) past }
{}
