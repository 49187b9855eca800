// The pager of a file.
ghost use Rattle.std.specs.Prelude.{ℕ, ◌≡◌, ◌≤◌, ◌*◌, [], List, None, Some, IfOk, OnErr, length, not};
ghost use Rattle.std.specs.declared.option.Option.{Option};
ghost use Rattle.pg_answers.specs.Answers.{AnswerHasCause, EndsInReply, IsToPager, ReturnsWhole};
ghost use Rattle.pg_file.specs.Answers.{CacheEvents, CleanEvents, FileAnswer, LeavesBacking, LeavesFile, TellsKnown, TellsPage};
ghost use Rattle.pg_file.specs.Answers.{write_answer};
ghost use Rattle.pg_file.specs.Calls.{FileMakes, FindMakes, StoreMakes};
ghost use Rattle.pg_file.specs.Files.{KeepsShape, MarksPage, has_lost, without_known};
ghost use Rattle.pg_file.specs.Finding.{FindHasCause, IsFoundAs, IsFoundIn, IsWholePage, StoreHasCause};
ghost use Rattle.vm_model.specs.declared.event.Device.TheVariants.{Files};
ghost use Rattle.vm_outside.specs.Areas.{SameAreas, WriteTold};

use crate::found::{Found, find, place};
use crate::lost::Lost;
use crate::telling::{clean_request, tell_found, tell_stored};
use pg_answers::{ready, sent};
use std::alloc::Global;
use std::marker::Model;
use vm_base::{HostId, Listing, NoMemory, ObjectId, PageBytes, PageNo, PageSize, WriteStop};
use vm_model::{Events, Message, Name};
use vm_outside::Backing;

/// A control port of a host.
#[derive(Clone, Copy, Debug, PartialEq, Eq)]
pub struct KnownControl {
    pub host: HostId,
    pub control: u32,
}

/// The pager of a file object, whose pages are in the file of its name: page p is the page of bytes
/// from p times the page size on. The bytes are in a backing, which each call is handed.
///
/// Contracts see the object, the name, the page size, the control that the pager knows, and the
/// pages that are lost: those whose last write failed.
#[derive(Drop)]
pub struct FilePager {
    alloc: Global,
    object: ObjectId,
    name: Name,
    size: PageSize,
    // The control of which the last init was taken, until its terminate is.
    known: Option<KnownControl>,
    lost: Lost,
}

impl Model for FilePager {
    ghost use Rattle.pg_file.specs.Files.{FileTable};

    ghost Value = { FileTable };

    ghost view = { λ s. record { object = s.object.0; name = s.name; size = s.size; known = s.known; lost = s.lost.pages } };
}

impl FilePager {
    /// The pager of a file to which no message came yet.
    pub fn new(
        alloc: Global,
        object: ObjectId,
        name: Name,
        size: PageSize,
    ) -> Result<FilePager, NoMemory>
        ensures { IfOk result (λ pager. pager ≡ record { object = object.0; name = name; size = size; known = None; lost = [] }) }
    {
        Ok(FilePager {
            alloc,
            object,
            name,
            size,
            known: None,
            lost: Lost::new(alloc),
        })
    }

    /// Takes a message about the file from the kernel of a host, and gives the events that come of
    /// it: the device's failure, and behind it the answer, if there is one. It takes all its memory
    /// before it calls the backing. A request asks once for the length, and then reads the page once
    /// where the file reaches it; for a page that is lost it calls nothing. A return writes once. No
    /// other message calls the backing.
    ///
    /// The calls are those of memory_object_init (ready, with the strategy delay), data_request,
    /// data_return and terminate of the Mach 3 kernel interfaces; a create, which no kernel sends
    /// about a file, is answered as the default pager answers it. What is done where the file is
    /// short, or a page lost, is this profile's.
    pub fn answer<F: Backing>(
        &mut self,
        host: HostId,
        message: &Message,
        files: &mut F,
    ) -> Result<Events, NoMemory>
        requires to_pager { IsToPager message.now }
        requires whole { ReturnsWhole self.old.size message.now }
        ensures answered { IfOk result (λ events. FileAnswer message.now host.0 self.old self.new events.items) }
        ensures shape { KeepsShape self.old self.new }
        ensures few { IfOk result (λ events. length events.items ≤ 2) }
        ensures reply { IfOk result (λ events. EndsInReply Files message.now host.0 (record { 0 = self.old.object }) events.items) }
        ensures err { OnErr result (self.new ≡ self.old) }

        // What the backing tells.
        ensures bytes { IfOk result (λ events. (was : Option (List ℕ)) → F.area files.old self.old.name ≡ Some was
            → TellsPage self.old.size was events.items) }
        ensures told { LeavesFile message.now self.old (F.area files.old) (F.area files.new) result }
        ensures cause { AnswerHasCause (F.faults files.old) (F.faults files.new) result }
        ensures later { F.later files.old files.new }
        ensures unmoved { OnErr result (F.armed files.new ≡ F.armed files.old) }
        ensures untouched { LeavesBacking message.now self.old files.old files.new result }
        ensures calls { FileMakes F.called message.now self.old result files.old files.new }
    {
        let mut events = Listing::new(self.alloc);
        events.reserve(2)?;
        match message {
            Message::Init { control, size: _ } => {
                events.push(sent(host, self.object, *control, ready(2)))?;
                self.meet(host, *control);
            }
            Message::Create { control, size: _ } => {
                events.push(sent(host, self.object, *control, ready(3)))?;
                self.meet(host, *control);
            }
            Message::Request {
                control,
                page,
                access: _,
            } => {
                let page = *page;
                let found = self.look(page, files)?;
                tell_found(found, host, self.object, *control, page, &mut events)?;
            }
            Message::Return { page, hex, .. } => {
                let page = *page;
                let stored = self.store(page, hex, files)?;
                tell_stored(stored, self.object, page, &mut events)?;
            }
            Message::Terminate { control } => self.forget(host, *control),
            Message::Unlock { .. } => {}
            Message::Completed { .. } => {}
            Message::Changed { .. } => {}
            _ => unreachable!(),
        }
        Ok(events)
    }

    /// Asks the control that the pager knows for all changed and precious pages of so many from
    /// `page` on, which a flush also takes from the kernel: lock_request of the Mach 3 kernel
    /// interfaces, with a reply.
    pub fn clean(&self, page: PageNo, count: u32, flush: bool) -> Result<Events, NoMemory>
        ensures { IfOk result (λ events. CleanEvents self.now.known self.now.object page count flush events.items) }
    {
        self.tell_known(clean_request(page, count, flush))
    }

    /// Says to the control that the pager knows whether the file stays in memory when its last entry
    /// goes: memory_object_change_attributes of the Mach 3 kernel interfaces, with the strategy delay
    /// and a reply.
    pub fn cache(&self, cache: bool) -> Result<Events, NoMemory>
        ensures { IfOk result (λ events. CacheEvents self.now.known self.now.object cache events.items) }
    {
        let request = Message::Attributes {
            cache,
            strategy: 2,
            reply: true,
        };
        self.tell_known(request)
    }

    // Sends a request to the control that the pager knows, and to nobody where it knows none.
    fn tell_known(&self, request: Message) -> Result<Events, NoMemory>
        ensures { IfOk result (λ events. TellsKnown self.now.known self.now.object request events.items) }
    {
        let mut events = Listing::new(self.alloc);
        if let Some(known) = self.known {
            events.push(sent(known.host, self.object, known.control, request))?;
        }
        Ok(events)
    }

    // What is there of a page; a lost one isn't looked for.
    fn look<F: Backing>(&self, page: PageNo, files: &mut F) -> Result<Found, NoMemory>
        ensures found { IfOk result (IsFoundAs (has_lost self.now page.0)) }
        ensures whole { IfOk result (IsWholePage self.now.size) }
        ensures tells { (was : Option (List ℕ)) → F.area files.old self.now.name ≡ Some was → IfOk result (IsFoundIn self.now.size page.0 was) }
        ensures told { SameAreas (F.area files.old) (F.area files.new) }
        ensures cause { FindHasCause (F.faults files.old) (F.faults files.new) result }
        ensures later { F.later files.old files.new }
        ensures lost { result ≡ Ok Found.Lost → files.new ≡ files.old }
        ensures err { OnErr result (files.new ≡ files.old) }
        ensures calls { FindMakes F.called self.now.name (page.0 * self.now.size) self.now.size result files.old files.new }
    {
        if self.lost.has(page) {
            return Ok(Found::Lost);
        }
        find(self.alloc, self.name.as_str(), page, self.size, files)
    }

    // Writes a page to its place in the file, and says whether it is stored.
    fn store<F: Backing>(
        &mut self,
        page: PageNo,
        bytes: &PageBytes,
        files: &mut F,
    ) -> Result<bool, NoMemory>
        ensures marks { IfOk result (λ stored. MarksPage page.0 (not stored) self.old self.new) }
        ensures err { OnErr result (self.new ≡ self.old) }
        ensures told { IfOk result (λ stored. WriteTold (F.area files.old) (F.area files.new) self.old.name (page.0 * self.old.size) bytes.now
            (write_answer stored)) }
        ensures same { OnErr result (SameAreas (F.area files.old) (F.area files.new)) }
        ensures cause { StoreHasCause (F.faults files.old) (F.faults files.new) result }
        ensures later { F.later files.old files.new }
        ensures unmoved { OnErr result (F.armed files.new ≡ F.armed files.old) }
        ensures calls { StoreMakes F.called self.old.name (page.0 * self.old.size) bytes.now result files.old files.new }
    {
        self.lost.reserve()?;
        let at = place(page, self.size);
        match files.write(self.name.as_str(), at, bytes.as_slice()) {
            Ok(()) => {
                self.lost.remove(page);
                Ok(true)
            }
            Err(WriteStop::Failed) => {
                self.lost.put(page);
                Ok(false)
            }
            Err(WriteStop::NoMemory) => Err(NoMemory),
        }
    }

    // The control is known from now on.
    fn meet(&mut self, host: HostId, control: u32)
        ensures { self.new ≡ record self.old { known = Some (record { host = host; control = control }) } }
    {
        self.known = Some(KnownControl { host, control });
    }

    // The control is known no more.
    fn forget(&mut self, host: HostId, control: u32)
        ensures { self.new ≡ record self.old { known = without_known host.0 control self.old.known } }
    {
        if self.known == Some(KnownControl { host, control }) {
            self.known = None;
        }
    }
}
