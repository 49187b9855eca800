// The shared memory server.
ghost use Rattle.std.specs.Prelude.{◌≡◌, ◌≤◌, ◌<◌, ◌^◌, [], ◌∷◌, true, false, IsOk, None, OnOk, OnErr, IfOk, length, slice_get};
ghost use Rattle.vm_base.specs.Limits.{most_hosts};
ghost use Rattle.sms_server.specs.Answers.{AreServerWords, IsAbout, IsEnd, IsOfOnePage, IsToServer, ReturnsWhole, ServerAnswer, most_told, sent_to};
ghost use Rattle.sms_server.specs.Kept.{AreReadyToEnd, HasMemory, IsPreparedAt, IsRowAt, end_replies_among};
ghost use Rattle.sms_server.specs.Table.{ArePrepared, IsPrepared, IsSameTable, most_events, replies_among, row_among};

use crate::PageRow;
use crate::page_row::HOSTS;
use crate::rows::{count_waiting, end_rows, reserve_ends, reserve_rows, stands_at};
use crate::telling::{ready, sent};
use sms_pages::PageDirectory;
use std::alloc::Global;
use std::marker::Model;
use std::mem;
use vm_base::{HostId, Listing, NoMemory, ObjectId, PageKey, PageNo, PageSize};
use vm_model::{Events, Message};
use vm_sets::PagePlaces;

// The most replies of a page that is new.
const MOST_OF_NEW: u32 = 9;

// The most pages: their places are numbers of 32 bits.
const MOST_ROWS: usize = 0xffff_ffff;

/// The shared memory server of Forin, Barrera and Sanzi, "The Shared Memory Server" (1989), for all
/// shared objects and up to eight hosts.
///
/// Contracts see the directory of each page and the control that it answers on each host; a page
/// that was never named is one of zeros that nobody holds. They see besides what memory is at hand.
#[derive(Drop)]
pub struct Server {
    alloc: Global,
    size: PageSize,
    // In the order in which they were named.
    rows: Vec<PageRow>,
    // Where the row of each page stands.
    places: PagePlaces,
    // Where the page stood that was looked for last.
    last: usize,
    // A new directory, for a page that is named for the first time.
    spare: Option<PageDirectory>,
    // Events to come: none yet, and room for them.
    events: Events,
}

impl Model for Server {
    ghost use Rattle.std.specs.Prelude.{◌&&◌, ◌-◌, ◌^◌, length, nat_lt};
    ghost use Rattle.std.specs.Vec.{vec_capacity};
    ghost use Rattle.sms_server.specs.Kept.{IsKept, is_ready};
    ghost use Rattle.sms_server.specs.Table.{ServerTable};

    ghost Value = { ServerTable };

    ghost view = { λ s. record {
      size = s.size;
      rows = s.rows.items;
      spare =
          is_ready s.spare && nat_lt (length s.rows.items) (vec_capacity s.rows) && nat_lt 0 s.places.spare
          && nat_lt (length s.rows.items) (2 ^ 32 - 1);
      room = s.events.room;
    } };

    ghost invariant = { λ s. IsKept s.size s.rows.items s.places s.spare s.events.items };
}

impl Server {
    /// A server that knows of no page.
    pub fn new(alloc: Global, size: PageSize) -> Server
        ensures size { result.size ≡ size }
        ensures rows { result.rows ≡ [] }
    {
        Server {
            alloc,
            size,
            rows: Vec::new(alloc),
            places: PagePlaces::new(alloc),
            last: 0,
            spare: None,
            events: Listing::new(alloc),
        }
    }

    /// Takes the memory of the next answer about an object, which then cannot want any; answers the
    /// most events that it gives. It fails for want of memory alone.
    pub fn reserve(&mut self, object: ObjectId) -> Result<u32, NoMemory>
        ensures same { IsSameTable self.old self.new }
        ensures most { IfOk result (λ most. most ≡ most_events object.0 self.new) }
        ensures prepared { OnOk result (IsPrepared object.0 self.new) }
        ensures succeeds { IsPrepared object.0 self.old → IsOk result }
    {
        self.make_spare()?;
        self.prepare_object(object)
    }

    /// The most events of the answer to a message about an object. Of the table nothing changes but the
    /// memory at hand. It fails for want of memory alone.
    pub fn most(&mut self, object: ObjectId, message: &Message) -> Result<u32, NoMemory>
        requires { IsToServer message.now }
        ensures same { IsSameTable self.old self.new }
        ensures most { IfOk result (λ most. most ≡ most_told object.0 message.now self.new) }
    {
        match message {
            Message::Init { .. } => Ok(1),
            Message::Request { page, .. }
            | Message::Unlock { page, .. }
            | Message::Return { page, .. }
            | Message::Completed { page, .. } => self.most_at(object, *page, message),
            Message::Terminate { .. } => self.most_everywhere(object),
            _ => Ok(0),
        }
    }

    /// Takes a message of a host's kernel about an object, and gives the events of the answer. It
    /// fails for want of memory alone.
    ///
    /// The calls are those of memory_object_init (ready, with the strategy none), data_request,
    /// data_unlock, data_return, lock_completed and terminate of the Mach 3 kernel interfaces. A
    /// create, and the completion of a change, which no kernel sends about a shared object, get no
    /// answer. Where a terminate lets several pages go on, they go by rising number, in this profile.
    pub fn answer(
        &mut self,
        host: HostId,
        object: ObjectId,
        message: &Message,
    ) -> Result<Events, NoMemory>
        requires host { host.0 < most_hosts }
        requires to_server { IsToServer message.now }
        requires whole { ReturnsWhole self.old.size message.now }
        ensures answered { IfOk result (λ events. ServerAnswer host.0 object message.now self.old self.new events.items) }
        ensures words { IfOk result (λ events. AreServerWords self.old.size object events.items) }
        ensures few { IfOk result (λ events. length events.items ≤ most_events object.0 self.old) }
        ensures few_told { IfOk result (λ events. length events.items ≤ most_told object.0 message.now self.old) }
        ensures err { OnErr result (IsSameTable self.old self.new) }
        ensures succeeds { IsPrepared object.0 self.old → IsOk result }
    {
        match message {
            Message::Init { control, size: _ } => self.greet(host, object, *control),
            Message::Request { page, .. }
            | Message::Unlock { page, .. }
            | Message::Return { page, .. }
            | Message::Completed { page, .. } => self.answer_at(host, object, *page, message),
            Message::Terminate { control: _ } => self.answer_everywhere(host, object, message),
            Message::Create { .. } => Ok(Listing::new(self.alloc)),
            Message::Changed { .. } => Ok(Listing::new(self.alloc)),
            _ => unreachable!(),
        }
    }

    // The pager of an object that a kernel names for the first time is ready.
    fn greet(&mut self, host: HostId, object: ObjectId, control: u32) -> Result<Events, NoMemory>
        ensures events { IfOk result (λ events. events.items ≡ sent_to host object control (Message.Ready false 0) ∷ []) }
        ensures same { IsSameTable self.old self.new }
        ensures succeeds { 1 ≤ self.old.room → IsOk result }
    {
        self.events.reserve(1)?;
        let mut events = mem::replace(&mut self.events, Listing::new(self.alloc));
        events.push(sent(host, object, control, ready()))?;
        Ok(events)
    }

    // The most events of the answer to a message about one page.
    fn most_at(
        &mut self,
        object: ObjectId,
        page: PageNo,
        message: &Message,
    ) -> Result<u32, NoMemory>
        requires about { IsAbout page.0 message.now }
        requires one { IsOfOnePage message.now }
        ensures same { IsSameTable self.old self.new }
        ensures most { IfOk result (λ most. most ≡ most_told object.0 message.now self.new) }
    {
        let i = self.find_or_name(PageKey { object, page })?;
        self.rows[i].reserve()
    }

    // The most events of the answer to the end of a host's control.
    fn most_everywhere(&mut self, object: ObjectId) -> Result<u32, NoMemory>
        ensures same { IsSameTable self.old self.new }
        ensures most { IfOk result (λ most. most ≡ most_events object.0 self.new) }
    {
        let Some(waiting) = count_waiting(&self.rows, &mut self.places, object) else {
            return Err(NoMemory);
        };
        let pages = u64::from(self.places.count(object)) + 1;
        as_number(u64::from(waiting) + u64::from(MOST_OF_NEW) * pages)
    }

    // Answers a message about one page.
    fn answer_at(
        &mut self,
        host: HostId,
        object: ObjectId,
        page: PageNo,
        message: &Message,
    ) -> Result<Events, NoMemory>
        requires host { host.0 < most_hosts }
        requires about { IsAbout page.0 message.now }
        requires one { IsOfOnePage message.now }
        requires whole { ReturnsWhole self.old.size message.now }
        ensures answered { IfOk result (λ events. ServerAnswer host.0 object message.now self.old self.new events.items) }
        ensures words { IfOk result (λ events. AreServerWords self.old.size object events.items) }
        ensures few { IfOk result (λ events. length events.items ≤ most_events object.0 self.old) }
        ensures few_told { IfOk result (λ events. length events.items ≤ most_told object.0 message.now self.old) }
        ensures err { OnErr result (IsSameTable self.old self.new) }
        ensures succeeds { IsPrepared object.0 self.old → IsOk result }
    {
        let i = self.prepare_page(PageKey { object, page })?;
        let mut events = mem::replace(&mut self.events, Listing::new(self.alloc));
        self.places.touch(PageKey { object, page });
        self.rows[i].answer(host, message, &mut events)?;
        Ok(events)
    }

    // Answers the end of a host's control, for all pages of its object.
    fn answer_everywhere(
        &mut self,
        host: HostId,
        object: ObjectId,
        message: &Message,
    ) -> Result<Events, NoMemory>
        requires host { host.0 < most_hosts }
        requires end { IsEnd message.now }
        ensures answered { IfOk result (λ events. ServerAnswer host.0 object message.now self.old self.new events.items) }
        ensures words { IfOk result (λ events. AreServerWords self.old.size object events.items) }
        ensures few { IfOk result (λ events. length events.items ≤ most_events object.0 self.old) }
        ensures few_told { IfOk result (λ events. length events.items ≤ most_told object.0 message.now self.old) }
        ensures err { OnErr result (IsSameTable self.old self.new) }
        ensures succeeds { IsPrepared object.0 self.old → IsOk result }
    {
        self.prepare_ends(object, host)?;
        let mut events = mem::replace(&mut self.events, Listing::new(self.alloc));
        end_rows(
            &mut self.rows,
            &mut self.places,
            object,
            host,
            message,
            &mut events,
        )?;
        Ok(events)
    }

    // A new directory for a page that is named for the first time, and a place for its row.
    fn make_spare(&mut self) -> Result<(), NoMemory>
        ensures size { self.new.size ≡ self.old.size }
        ensures rows { self.new.rows ≡ self.old.rows }
        ensures room { self.new.room ≡ self.old.room }
        ensures spare { OnOk result (self.new.spare ≡ true) }
        ensures succeeds { self.old.spare ≡ true → IsOk result }
    {
        if self.rows.len() >= MOST_ROWS {
            return Err(NoMemory);
        }
        self.rows.reserve(1)?;
        self.places.reserve()?;
        let mut directory = match self.spare.take() {
            Some(directory) => directory,
            None => PageDirectory::new(self.alloc, self.size)?,
        };
        directory.reserve()?;
        self.spare = Some(directory);
        Ok(())
    }

    // Puts in the row of a page that is named for the first time.
    fn name_page(&mut self, key: PageKey) -> Result<usize, NoMemory>
        requires { row_among key.object.0 key.page.0 self.old.rows ≡ None }
        ensures same { IsSameTable self.old self.new }
        ensures at { IfOk result (λ i. IsRowAt key i self.new.rows) }
        ensures memory { IfOk result (λ i. HasMemory 9 (slice_get self.new.rows i)) }
        ensures room { self.new.room ≡ self.old.room }
        ensures succeeds { self.old.spare ≡ true → IsOk result }
    {
        self.make_spare()?;
        let Some(directory) = self.spare.take() else {
            return Err(NoMemory);
        };
        let row = PageRow {
            key,
            directory,
            heard: [0; HOSTS],
        };
        let at = self.rows.len();
        self.rows.push(row)?;
        self.places.put(key, at as u32);
        self.last = at;
        Ok(at)
    }

    // The index of a page's row, which is made where there is none.
    fn find_or_name(&mut self, key: PageKey) -> Result<usize, NoMemory>
        ensures same { IsSameTable self.old self.new }
        ensures at { IfOk result (λ i. IsRowAt key i self.new.rows) }
        ensures memory { IfOk result (λ i. IsPrepared key.object.0 self.old → HasMemory self.new.room (slice_get self.new.rows i)) }
        ensures succeeds { IsPrepared key.object.0 self.old → IsOk result }
    {
        if stands_at(&self.rows, self.last, key) {
            return Ok(self.last);
        }
        let Some(at) = self.places.get(key) else {
            return self.name_page(key);
        };
        self.last = at as usize;
        Ok(at as usize)
    }

    // The index of a page's row, which is made where there is none, with the memory of an answer.
    fn prepare_page(&mut self, key: PageKey) -> Result<usize, NoMemory>
        ensures same { IsSameTable self.old self.new }
        ensures at { IfOk result (λ i. IsPreparedAt key i self.new) }
        ensures succeeds { IsPrepared key.object.0 self.old → IsOk result }
    {
        let i = self.find_or_name(key)?;
        let most = self.rows[i].reserve()?;
        self.events.reserve(most)?;
        Ok(i)
    }

    // The memory of an answer for all pages of an object, and the most events that it has.
    fn prepare_object(&mut self, object: ObjectId) -> Result<u32, NoMemory>
        ensures same { IsSameTable self.old self.new }
        ensures spare { self.new.spare ≡ self.old.spare }
        ensures most { IfOk result (λ most. most ≡ most_events object.0 self.new) }
        ensures least { OnOk result (most_events object.0 self.new ≡ most_events object.0 self.old) }
        ensures pages { OnOk result (ArePrepared object.0 self.new.rows) }
        ensures room { OnOk result (most_events object.0 self.new ≤ self.new.room) }
        ensures few { OnOk result (most_events object.0 self.new < 2 ^ 32) }
        ensures succeeds { ArePrepared object.0 self.old.rows → most_events object.0 self.old < 2 ^ 32
            → most_events object.0 self.old ≤ self.old.room → IsOk result }
    {
        let most = reserve_rows(&mut self.rows, &self.places, object)?;
        let Some(most) = most.checked_add(MOST_OF_NEW) else {
            return Err(NoMemory);
        };
        self.events.reserve(most)?;
        Ok(most)
    }
    // The memory of the answer to the end of a host's control.
    fn prepare_ends(&mut self, object: ObjectId, host: HostId) -> Result<(), NoMemory>
        requires { host.0 < most_hosts }
        ensures same { IsSameTable self.old self.new }
        ensures ready { OnOk result (AreReadyToEnd host.0 object.0 self.new.rows) }
        ensures room { OnOk result (end_replies_among host.0 object.0 self.new.rows ≤ self.new.room) }
        ensures few { end_replies_among host.0 object.0 self.new.rows ≤ replies_among object.0 self.old.rows }
        ensures succeeds { IsPrepared object.0 self.old → IsOk result }
    {
        let most = reserve_ends(&mut self.rows, &mut self.places, object, host)?;
        self.events.reserve(most)
    }
}

// A number of 32 bits, if it is one: more events than that find no memory.
fn as_number(n: u64) -> Result<u32, NoMemory>
    ensures { IfOk result (λ number. number ≡ n) }
{
    match u32::try_from(n) {
        Ok(number) => Ok(number),
        Err(_) => Err(NoMemory),
    }
}
