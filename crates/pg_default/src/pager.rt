// The default pager of a host.
ghost use Rattle.std.specs.Prelude.{ℕ, ◌≡◌, ◌<◌, ◌≤◌, [], List, None, IfOk, OnErr, false, length};
ghost use Rattle.pg_answers.specs.Answers.{AnswerHasCause, EndsInReply, IsToPager, ReturnsWhole};
ghost use Rattle.pg_default.specs.Answers.{LeavesAreas, LeavesBacking, PagerAnswer, SuppliesStored};
ghost use Rattle.pg_default.specs.Answers.{after_message};
ghost use Rattle.pg_default.specs.Calls.{PagerMakes};
ghost use Rattle.pg_slots.specs.Contents.{CarriesContent, Content, IsAreaTold, SlotsFit};
ghost use Rattle.pg_slots.specs.Slots.{KeepsShape};
ghost use Rattle.vm_base.specs.Limits.{most_hosts, most_slots};
ghost use Rattle.vm_model.specs.declared.event.Device.TheVariants.{Paging};
ghost use Rattle.vm_outside.specs.Areas.{Told};

use crate::telling::{tell_got, tell_put};
use pg_answers::{ready, sent};
use pg_slots::Slots;
use std::alloc::Global;
use std::marker::Model;
use vm_base::{HostId, Listing, NoMemory, ObjectId, PageKey, PageSize};
use vm_model::{Events, Message};
use vm_outside::Backing;

/// The default pager of a host, which keeps the pages of temporary objects in paging slots. The
/// bytes are in a backing, which each call is handed.
///
/// Contracts see its slots, and say what backing and slots hold for each content that they fit.
#[derive(Drop)]
pub struct DefaultPager {
    alloc: Global,
    slots: Slots,
}

impl Model for DefaultPager {
    ghost use Rattle.pg_slots.specs.Slots.{SlotTable};

    ghost Value = { SlotTable };

    ghost view = { λ s. s.slots };
}

impl DefaultPager {
    /// A pager with so many slots, to which no page was returned yet; it fails for want of memory
    /// alone.
    pub fn new(
        alloc: Global,
        host: HostId,
        slots: u32,
        size: PageSize,
    ) -> Result<DefaultPager, NoMemory>
        requires host { host.0 < most_hosts }
        requires few { slots ≤ most_slots }
        ensures value { IfOk result (λ pager. pager ≡ record { host = host.0; size = size; count = slots; rows = [] }) }
        ensures fits { IfOk result (λ pager. (told : List ℕ → Told) → SlotsFit told pager (λ o p. None)) }
    {
        let slots = Slots::new(alloc, host, slots, size)?;
        Ok(DefaultPager { alloc, slots })
    }

    /// Takes a message about an object from the kernel of the host, and gives the events that come of
    /// it: the device's failure or the want of a slot, and behind it the answer, if there is one. It
    /// takes all its memory before it calls the backing. A request reads a page that is kept once, a
    /// return writes once where it has a slot, and nothing else calls the backing.
    ///
    /// The calls are those of memory_object_init and memory_object_create (ready, with the strategy
    /// none or temporary), data_request, data_return and terminate of the Mach 3 kernel interfaces;
    /// what is done where a page is lost is this profile's.
    pub fn answer<P: Backing>(
        &mut self,
        object: ObjectId,
        message: &Message,
        paging: &mut P,
    ) -> Result<Events, NoMemory>
        requires to_pager { IsToPager message.now }
        requires whole { ReturnsWhole self.old.size message.now }
        ensures answered { IfOk result (λ events. PagerAnswer message.now object self.old self.new events.items) }
        ensures shape { KeepsShape self.old self.new }
        ensures few { IfOk result (λ events. length events.items ≤ 2) }
        ensures reply { IfOk result (λ events. EndsInReply Paging message.now self.old.host object events.items) }
        ensures err { OnErr result (self.new ≡ self.old) }

        // What the backing tells.
        ensures fits { CarriesContent (P.area paging.old) (P.area paging.new) self.old self.new (after_message message.now object result) }
        ensures bytes { IfOk result (λ events. (content : Content) → IsAreaTold (P.area paging.old) self.old
            → SlotsFit (P.area paging.old) self.old content → SuppliesStored object events.items content) }
        ensures told { LeavesAreas message.now object self.new (P.area paging.old) (P.area paging.new) result }
        ensures cause { AnswerHasCause (P.faults paging.old) (P.faults paging.new) result }
        ensures later { P.later paging.old paging.new }
        ensures unmoved { OnErr result (P.armed paging.new ≡ P.armed paging.old) }
        ensures untouched { LeavesBacking message.now object self.old paging.old paging.new result }
        ensures calls { PagerMakes P.called message.now object self.old result paging.old paging.new }
    {
        let mut events = Listing::new(self.alloc);
        events.reserve(2)?;
        let host = self.slots.host();
        match message {
            Message::Init { control, size: _ } => {
                events.push(sent(host, object, *control, ready(0)))?;
            }
            Message::Create { control, size: _ } => {
                events.push(sent(host, object, *control, ready(3)))?;
            }
            Message::Request {
                control,
                page,
                access: _,
            } => {
                let page = *page;
                let got = self.slots.get(PageKey { object, page }, paging)?;
                tell_got(got, host, object, *control, page, &mut events)?;
            }
            Message::Return { page, hex, .. } => {
                let page = *page;
                let put = self.slots.put(PageKey { object, page }, hex, paging)?;
                tell_put(put, object, page, &mut events)?;
            }
            Message::Terminate { control: _ } => self.slots.drop_object(object),
            Message::Unlock { .. } => {}
            Message::Completed { .. } => {}
            Message::Changed { .. } => {}
            _ => unreachable!(),
        }
        Ok(events)
    }
}
