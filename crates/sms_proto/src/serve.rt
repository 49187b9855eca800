// The server takes a letter, and answers.
ghost use Rattle.std.specs.Prelude.{◌≡◌, ◌≢◌, ◌≤◌, ◌<◌, ◌+◌, ◌∷◌, [], ◌++◌, OnOk, OnErr, IfOk, IsOk, Some, None, List, ℕ, length, slice_get, true, false};
ghost use Rattle.vm_base.specs.Limits.{most_hosts};
ghost use Rattle.std.specs.VecDeque.{deque_len, deque_capacity};
ghost use Rattle.vm_model.specs.declared.event.Event.{Event};
ghost use Rattle.sms_pages.specs.Desk.{AllLong};
ghost use Rattle.sms_pages.specs.Directory.{IsServedDirectory, most_replies};
ghost use Rattle.vm_model.specs.declared.message.Channel.TheVariants.{Up};
ghost use Rattle.vm_model.specs.Channels.{up_queue};
ghost use Rattle.sms_proto.specs.declared.step.WorldStep.TheVariants as step;
ghost use Rattle.sms_proto.specs.Steps.{Takes, taken_head, AddsFirst};
ghost use Rattle.sms_proto.specs.Adds.{Adds, ServerDoes};
ghost use Rattle.sms_proto.specs.Kernels.{IsWholeOrder, KernelFits, SamePage};
ghost use Rattle.sms_proto.specs.Letters.{order_message, heard_by, letter_taken, order_sent};
ghost use Rattle.sms_proto.specs.Worlds.{WorldStands, StandsAt, Answering, HasPlaces, IsLong, IsSupplied, noted_by, reply_host, reply_order};

use crate::kernel::{Kernel, PAGE};
use crate::letter::{Letter, Order, lock};
use crate::stage::Stage;
use sms_pages::{PageDirectory, Replies, Reply};
use std::alloc::Global;
use vm_base::{HostId, Listing, NoMemory, PageBytes, PageSize};
use vm_model::Message;

// Makes pages until there are so many.
fn make_pages(
    pages: &mut Listing<PageBytes>,
    alloc: Global,
    size: PageSize,
    count: u32,
) -> Result<(), NoMemory>
    ensures long { AllLong size pages.old.items → AllLong size pages.new.items }
    ensures enough { OnOk result (count ≤ length pages.new.items) }
{
    while pages.len() < count {
        pages.push(PageBytes::zero(alloc, size)?)?;
    }
    Ok(())
}

impl Kernel {
    // Makes room for so many orders.
    fn make_places(&mut self, count: u32) -> Result<(), NoMemory>
        ensures fits { (history : List Event) → KernelFits history self.old → KernelFits history self.new }
        ensures page { SamePage self.old self.new }
        ensures places { OnOk result (deque_len self.new.down + count ≤ deque_capacity self.new.down) }
    {
        self.down.reserve(count as usize)?;
        Ok(())
    }
}

// Makes room for so many orders to each host.
fn make_places(kernels: &mut Vec<Kernel>, count: u32) -> Result<(), NoMemory>
    ensures each { (size : ℕ) (history : List Event)
        → ((g : ℕ) → StandsAt size g history (slice_get kernels.old.items g)) → (g : ℕ)
        → StandsAt size g history (slice_get kernels.new.items g) }
    ensures same { length kernels.new.items ≡ length kernels.old.items }
    ensures places { OnOk result (HasPlaces count kernels.new.items) }
{
    for g in 0..kernels.len() {
        kernels[g].make_places(count)?;
    }
    Ok(())
}

// What the directory notes of a letter, and how it answers.
fn note(directory: &mut PageDirectory, host: HostId, letter: &Letter) -> Result<Replies, NoMemory>
    requires host { host.0 < most_hosts }
    requires size { IsLong (length directory.old.bytes) letter.now }
    requires prepared { directory.old.prepared ≡ true }
    ensures ok { IsOk result }
    ensures exact { IfOk result (λ replies. IsServedDirectory (noted_by host.0 letter.now directory.old) directory.new replies.items) }
    ensures few { IfOk result (λ replies. length replies.items ≤ most_replies directory.old) }
{
    match letter {
        Letter::Request { access, .. } => directory.request(host, *access),
        Letter::Unlock { .. } => directory.unlock(host),
        Letter::Return { keep, bytes, .. } => directory.returned(host, *keep, bytes),
        Letter::Completed { .. } => directory.completed(host),
        Letter::Terminate { .. } => directory.gone(host),
    }
}

impl Letter {
    // The control of the host's last request, once the letter is taken.
    fn heard(&self, heard: u32) -> u32
        ensures { result ≡ heard_by heard self.now }
    {
        match self {
            Letter::Request { control, .. } => *control,
            _ => heard,
        }
    }
}

// The host of a reply.
fn host_of(reply: &Reply) -> HostId
    ensures { result ≡ reply_host reply.now }
{
    match reply {
        Reply::Supply { host, .. } => *host,
        Reply::Flush { host } => *host,
        Reply::CleanLock { host } => *host,
        Reply::Unlock { host } => *host,
    }
}

// The order that a reply is.
fn order_of(reply: Reply) -> Order
    ensures { result ≡ reply_order reply }
{
    match reply {
        Reply::Supply { lock, bytes, .. } => Order::Supply {
            writes: !lock.write,
            bytes,
        },
        Reply::Flush { .. } => Order::Flush,
        Reply::CleanLock { .. } => Order::Clean,
        Reply::Unlock { .. } => Order::Unlock,
    }
}

// A page with these bytes, one of those at hand.
#[tactic(auto, using(sms_pages::proofs::Pages::long_rest, sms_pages::proofs::Pages::long_last, sms_pages::proofs::Pages::filled))]
fn page_of(pages: &mut Listing<PageBytes>, bytes: &PageBytes) -> Result<PageBytes, NoMemory>
    requires long { AllLong (length bytes.now) pages.old.items }
    ensures page { IfOk result (λ page. page ≡ bytes.now) }
    ensures long { AllLong (length bytes.now) pages.new.items }
    ensures fewer { length pages.old.items ≤ length pages.new.items + 1 }
    ensures succeeds { 0 < length pages.old.items → IsOk result }
{
    match pages.take_first() {
        Some(mut page) => {
            page.fill(bytes.as_slice());
            Ok(page)
        }
        None => bytes.copy(),
    }
}

// The message that an order is; a supply's page is one of those at hand.
fn message_of(order: &Order, pages: &mut Listing<PageBytes>) -> Result<Message, NoMemory>
    requires long { IsSupplied order.now pages.old.items }
    requires some { 0 < length pages.old.items }
    ensures message { IfOk result (λ message. message ≡ order_message order.now) }
    ensures long { (size : ℕ) → IsWholeOrder size order.now → AllLong size pages.old.items → AllLong size pages.new.items }
    ensures fewer { length pages.old.items ≤ length pages.new.items + 1 }
    ensures ok { IsOk result }
{
    match order {
        Order::Supply { writes, bytes } => Ok(Message::Supply {
            page: PAGE,
            lock: if *writes { 0 } else { 2 },
            precious: false,
            hex: page_of(pages, bytes)?,
        }),
        Order::Flush => Ok(lock(1, true, 8, true)),
        Order::Clean => Ok(lock(1, false, 2, true)),
        Order::Unlock => Ok(lock(0, false, 0, false)),
    }
}

impl Stage {
    // Sends the oldest reply; the rest stays to be sent.
    fn send_one(&mut self, reply: Reply, rest: &Replies) -> Result<(), NoMemory>
        requires answering { Answering self.old.size self.old.kernels.items self.old.directory (rest.now.items ++ reply ∷ []) self.old.events.items }
        requires spare { AllLong self.old.size self.old.spare.items }
        requires pages { length rest.now.items + 1 ≤ length self.old.spare.items }
        requires events { length rest.now.items + 1 ≤ self.old.events.room }
        requires places { HasPlaces (length rest.now.items + 1) self.old.kernels.items }
        ensures ok { IsOk result }
        ensures answering { OnOk result (Answering self.new.size self.new.kernels.items self.new.directory rest.now.items self.new.events.items) }
        ensures spare { AllLong self.new.size self.new.spare.items }
        ensures pages { length rest.now.items ≤ length self.new.spare.items }
        ensures events { length rest.now.items ≤ self.new.events.room }
        ensures places { OnOk result (HasPlaces (length rest.now.items) self.new.kernels.items) }
        ensures adds { OnOk result (Adds ServerDoes self.old.events.items self.new.events.items) }
        ensures same { (self.new.size ≡ self.old.size)
            × (length self.new.kernels.items ≡ length self.old.kernels.items) }
    {
        let host = host_of(&reply);
        let order = order_of(reply);
        let message = message_of(&order, &mut self.spare)?;
        self.kernels[host.0 as usize].post(order, message, &mut self.events)?;
        Ok(())
    }

    // Sends the replies, the oldest first.
    fn send(&mut self, replies: Replies) -> Result<(), NoMemory>
        requires answering { Answering self.old.size self.old.kernels.items self.old.directory replies.items self.old.events.items }
        requires spare { AllLong self.old.size self.old.spare.items }
        requires pages { length replies.items ≤ length self.old.spare.items }
        requires events { length replies.items ≤ self.old.events.room }
        requires places { HasPlaces (length replies.items) self.old.kernels.items }
        ensures ok { IsOk result }
        ensures stands { OnOk result (WorldStands self.new.size self.new.kernels.items self.new.directory self.new.events.items) }
        ensures spare { AllLong self.new.size self.new.spare.items }
        ensures adds { OnOk result (Adds ServerDoes self.old.events.items self.new.events.items) }
        ensures same { (self.new.size ≡ self.old.size)
            × (length self.new.kernels.items ≡ length self.old.kernels.items) }
    {
        let mut replies = replies;
        'each: while let Some(reply) = replies.take_first() {
            self.send_one(reply, &replies)?;
        }
        Ok(())
    }

    // Room for all that the server may answer.
    fn prepare(&mut self) -> Result<(), NoMemory>
        requires stands { WorldStands self.old.size self.old.kernels.items self.old.directory self.old.events.items }
        requires spare { AllLong self.old.size self.old.spare.items }
        ensures stands { WorldStands self.new.size self.new.kernels.items self.new.directory self.new.events.items }
        ensures spare { AllLong self.new.size self.new.spare.items }
        ensures same { (self.new.size ≡ self.old.size)
            × (length self.new.kernels.items ≡ length self.old.kernels.items)
            × (self.new.events.items ≡ self.old.events.items) }
        ensures prepared { OnOk result (self.new.directory.prepared ≡ true) }
        ensures events { OnOk result (most_replies self.new.directory + 1 ≤ self.new.events.room) }
        ensures pages { OnOk result (most_replies self.new.directory ≤ length self.new.spare.items) }
        ensures places { OnOk result (HasPlaces (most_replies self.new.directory) self.new.kernels.items) }
    {
        let most = self.directory.reserve()?;
        let Some(room) = most.checked_add(1) else {
            return Err(NoMemory);
        };
        self.events.reserve(room)?;
        make_pages(&mut self.spare, self.alloc, self.size, most)?;
        make_places(&mut self.kernels, most)?;
        Ok(())
    }

    // The server takes the host's oldest letter and serves its line; the replies stay to be sent. It
    // fails for want of memory alone, or where there is no letter, and then nothing has changed.
    fn hear(&mut self, host: HostId) -> Result<Replies, NoMemory>
        requires host { host.0 < length self.old.kernels.items }
        requires stands { WorldStands self.old.size self.old.kernels.items self.old.directory self.old.events.items }
        requires prepared { self.old.directory.prepared ≡ true }
        requires events { most_replies self.old.directory + 1 ≤ self.old.events.room }
        requires places { HasPlaces (most_replies self.old.directory) self.old.kernels.items }
        ensures answering { IfOk result (λ replies. Answering self.new.size self.new.kernels.items self.new.directory replies.items self.new.events.items) }
        ensures few { IfOk result (λ replies. length replies.items ≤ most_replies self.old.directory) }
        ensures events { IfOk result (λ replies. length replies.items ≤ self.new.events.room) }
        ensures places { IfOk result (λ replies. HasPlaces (length replies.items) self.new.kernels.items) }
        ensures same { (self.new.size ≡ self.old.size)
            × (length self.new.kernels.items ≡ length self.old.kernels.items)
            × (self.new.spare.items ≡ self.old.spare.items) }
        ensures taken { OnOk result (AddsFirst (taken_head (Up host (record { 0 = 0 })) (up_queue host.0 0 self.old.events.items)) self.old.events.items
            self.new.events.items) }
        ensures err { OnErr result (WorldStands self.new.size self.new.kernels.items self.new.directory self.new.events.items
            × (self.new.events.items ≡ self.old.events.items)) }
    {
        let index = host.0 as usize;
        let Some(letter) = self.kernels[index].up.front() else {
            return Err(NoMemory);
        };
        let message = letter.message()?;
        let heard = letter.heard(self.kernels[index].heard);
        let replies = note(&mut self.directory, host, letter)?;
        self.kernels[index].hear(heard, message, &mut self.events)?;
        Ok(replies)
    }

    /// The server takes the oldest message of the host, if there is one, and answers.
    pub fn take_up(&mut self, host: HostId) -> Result<(), NoMemory>
        requires host { host.0 < length self.old.kernels.items }
        requires stands { WorldStands self.old.size self.old.kernels.items self.old.directory self.old.events.items }
        requires spare { AllLong self.old.size self.old.spare.items }
        ensures stands { WorldStands self.new.size self.new.kernels.items self.new.directory self.new.events.items }
        ensures same { (self.new.size ≡ self.old.size)
            × (length self.new.kernels.items ≡ length self.old.kernels.items) }
        ensures spare { AllLong self.new.size self.new.spare.items }
        ensures takes { OnOk result (Takes self.old.size (step.TakeUp host) self.old.events.items self.new.events.items) }
        ensures err { OnErr result (self.new.events.items ≡ self.old.events.items) }
    {
        if self.kernels[host.0 as usize].up.is_empty() {
            return Ok(());
        }
        self.prepare()?;
        let replies = self.hear(host)?;
        self.send(replies)?;
        Ok(())
    }
}
