// Events are told, and the messages that they tell of are sent.
ghost use Rattle.std.specs.Prelude.{◌≡◌, ◌≢◌, ◌+◌, ◌<◌, ◌≤◌, ◌∷◌, ◌++◌, [], ℕ, List, true, Option, None, Some, is_some, length, slice_get, OnOk};
ghost use Rattle.vm_model.specs.declared.event.Event.{Event};
ghost use Rattle.vm_model.specs.declared.event.Event.TheVariants as event;
ghost use Rattle.vm_model.specs.Channels.{queue};
ghost use Rattle.vm_model.specs.Server.{first};
ghost use Rattle.vm_model.specs.declared.message.Channel.{Channel};
ghost use Rattle.vm_model.specs.declared.message.Message.{Message};
ghost use Rattle.vm_ports.specs.Ports.{spare_channels};
ghost use Rattle.vm_system.specs.Channels.{channel_number};
ghost use Rattle.vm_system.specs.Posts.{CanTell, CanTellAll, HasRoom, IsPrepared, IsSent, MayPost, OnlyRoom, Posts, SameHosts};
ghost use Rattle.vm_system.specs.Sends.{Added, AreFresh, Delivered, HasSent, SameLetters, made_by};
ghost use Rattle.vm_system.specs.Steps.{lined};

use crate::state::State;
use std::mem;
use vm_base::{ChannelId, HostId, Listing, NoMemory};
use vm_kernel::Breadth;
use vm_model::{Channel, Event, Events, History, Message};

// The message of a letter, which stands in the event that sent it.
pub fn sent(history: &History, index: u32) -> &Message
    requires { (channel : Channel) × (m : Message) × IsSent history.now.items index channel m }
    ensures { (channel : Channel) × IsSent history.now.items index channel result.now }
{
    let Event::Sent { message, .. } = history.at(index) else {
        unreachable!()
    };
    message
}

impl State {
    // Makes room for so many events, with their letters and channels, and for the copy of one message.
    pub fn reserve(&mut self, count: u32) -> Result<(), NoMemory>
        ensures room { OnOk result (HasRoom count self.new) }
        ensures hosts { SameHosts self.old self.new }
        ensures history { self.new.history.items ≡ self.old.history.items }
        ensures made { self.new.channels.made ≡ self.old.channels.made }
        ensures numbers { self.new.ports.channels ≡ self.old.ports.channels }
        ensures letters { self.new.ports.letters ≡ self.old.ports.letters }
        ensures buffers { self.new.buffers.size ≡ self.old.buffers.size }
        ensures buffer { OnOk result (0 < self.new.buffers.count) }
    {
        let Some(channels) = count.checked_mul(2) else {
            return Err(NoMemory);
        };
        self.history.reserve(count)?;
        self.channels.reserve(channels)?;
        self.ports.reserve(channels, count)?;
        self.buffers.reserve(1)
    }

    // Takes the memory of a step in which a host acts in such a breadth, or none does, and of so many further
    // events; nothing but room changes.
    pub fn prepare(
        &mut self,
        acting: Option<HostId>,
        breadth: Breadth,
        more: u32,
    ) -> Result<(), NoMemory>
        ensures same { OnlyRoom self.old self.new }
        ensures ready { OnOk result ((most : ℕ) × IsPrepared acting breadth most more self.new) }
    {
        let most = self.hosts.reserve(acting, breadth, more, &mut self.log)?;
        let Some(count) = most.checked_add(more) else {
            return Err(NoMemory);
        };
        self.reserve(count)
    }

    // Tells what stands in the log, oldest first, and leaves it empty.
    pub fn commit_log(&mut self)
        requires posts { Posts self.old self.old.history.items }
        requires can { CanTellAll self.old.size self.old.log.items self.old.history.items }
        requires room { HasRoom (length self.old.log.items) self.old }
        ensures posts { Posts self.new self.new.history.items }
        ensures hosts { SameHosts (record self.old { log = self.new.log }) self.new }
        ensures history { self.new.history.items ≡ self.old.log.items ++ self.old.history.items }
        ensures log { self.new.log.items ≡ [] }
    {
        let mut events = mem::replace(&mut self.log, Listing::new(self.alloc));
        self.commit(&mut events);
        self.log = events;
    }

    // Tells these events, oldest first, and leaves their list empty.
    pub fn commit(&mut self, events: &mut Events)
        requires posts { Posts self.old self.old.history.items }
        requires can { CanTellAll self.old.size events.old.items self.old.history.items }
        requires room { HasRoom (length events.old.items) self.old }
        ensures posts { Posts self.new self.new.history.items }
        ensures hosts { SameHosts self.old self.new }
        ensures history { self.new.history.items ≡ events.old.items ++ self.old.history.items }
        ensures empty { events.new.items ≡ [] }
        ensures room { (n : ℕ) → HasRoom (n + length events.old.items) self.old → HasRoom n self.new }
    {
        'all: for i in 0..events.len() {
            let index = self.history.index_behind(i);
            self.post(events.at(i), index);
        }
        let Ok(()) = self.history.append(events) else {
            unreachable!()
        };
    }

    // Tells one event, for which there is room.
    pub fn tell(&mut self, event: Event)
        requires posts { Posts self.old self.old.history.items }
        requires can { CanTell self.old.size event self.old.history.items }
        requires room { HasRoom 1 self.old }
        ensures posts { Posts self.new self.new.history.items }
        ensures hosts { SameHosts self.old self.new }
        ensures history { self.new.history.items ≡ event ∷ self.old.history.items }
        ensures room { (n : ℕ) → HasRoom (n + 1) self.old → HasRoom n self.new }
    {
        let index = self.history.len();
        self.post(&event, index);
        let Ok(()) = self.history.push(event) else {
            unreachable!()
        };
    }

    // Sends the message that an event tells of, if it tells of one; the event is to stand at an index of the history.
    #[tactic(auto, using(crate::proofs::Posting::posts_other))]
    fn post(&mut self, event: &Event, index: u32)
        requires can { (past : List Event) × MayPost event.now index past self.old }
        requires room { HasRoom 1 self.old }
        ensures posts { (past : List Event) → MayPost event.now index past self.old → Posts self.new (event.now ∷ past) }
        ensures hosts { SameHosts self.old self.new }
        ensures history { self.new.history ≡ self.old.history }
        ensures room { (n : ℕ) → HasRoom (n + 1) self.old → HasRoom n self.new }
    {
        let Event::Sent { channel, message } = event else {
            return;
        };
        self.deliver(*channel, message, index);
    }

    // Sends the message of the event with an index on its channel, which it may make if it is an init or a create.
    fn deliver(&mut self, channel: Channel, message: &Message, index: u32)
        requires fresh { AreFresh (made_by self.old.channels.made channel message.now) self.old.channels.made }
        requires known { is_some (channel_number channel (self.old.channels.made ++ made_by self.old.channels.made channel message.now)) ≡ true }
        requires count { length self.old.channels.made ≡ self.old.ports.channels }
        requires room { HasRoom 1 self.old }
        ensures { Delivered channel message.now index self.old self.new }
    {
        self.open(channel, message);
        self.send(channel, index);
    }

    // An init and a create make the channel of their control, and the one up where it isn't there.
    fn open(&mut self, channel: Channel, message: &Message)
        requires fresh { AreFresh (made_by self.old.channels.made channel message.now) self.old.channels.made }
        requires room { 2 ≤ self.old.channels.room }
        requires spare { 2 ≤ spare_channels self.old.ports }
        ensures { Added (made_by self.old.channels.made channel message.now) self.old self.new }
    {
        let Channel::Up { host, object } = channel else {
            return;
        };
        let control = match message {
            Message::Init { control, .. } | Message::Create { control, .. } => *control,
            _ => return,
        };
        if self.channels.number(channel).is_none() {
            self.add(channel);
        }
        self.add(Channel::Down {
            host,
            object,
            control,
        });
    }

    // Makes a channel, for which there is room.
    fn add(&mut self, channel: Channel)
        requires fresh { channel_number channel self.old.channels.made ≡ None }
        requires room { 0 < self.old.channels.room }
        requires spare { 0 < spare_channels self.old.ports }
        ensures { Added (channel ∷ []) self.old self.new }
    {
        let Ok(_) = self.ports.add_channel() else {
            unreachable!()
        };
        self.channels.add(channel);
    }

    // Sends the message of the event with an index on a channel that was made.
    fn send(&mut self, channel: Channel, index: u32)
        requires known { is_some (channel_number channel self.old.channels.made) ≡ true }
        requires count { length self.old.channels.made ≡ self.old.ports.channels }
        requires room { 0 < self.old.ports.room }
        ensures { HasSent channel index self.old self.new }
    {
        let Some(number) = self.channels.number(channel) else {
            unreachable!()
        };
        self.ports.send_spare(number, index);
    }

    // Takes the first message of a channel, and tells that, behind a line if the step begins with one.
    pub fn take_first(&mut self, line: Option<u32>, number: ChannelId)
        requires posts { Posts self.old self.old.history.items }
        requires there { number.0 < length self.old.channels.made }
        requires some { (channel : Channel) → slice_get self.old.channels.made number.0 ≡ Some channel → queue channel self.old.history.items ≢ [] }
        requires room { HasRoom 2 self.old }
        requires buffer { 0 < self.old.buffers.count }
        ensures posts { Posts self.new self.new.history.items }
        ensures hosts { SameHosts self.old self.new }
        ensures history { (channel : Channel) → slice_get self.old.channels.made number.0 ≡ Some channel
            → (m : Message) × (first (queue channel self.old.history.items) ≡ Some m)
            × (self.new.history.items ≡ event.Taken channel m ∷ lined line self.old.history.items) }
        ensures room { (n : ℕ) → HasRoom (n + 2) self.old → HasRoom n self.new }
    {
        let channel = self.channels.channel(number);
        let Some(index) = self.ports.take(number) else {
            unreachable!()
        };
        let message = sent(&self.history, index).copy(&mut self.buffers);
        self.start(line);
        let Ok(()) = self.history.push(Event::Taken { channel, message }) else {
            unreachable!()
        };
    }

    // Tells the line that a step begins with, if it begins with one.
    fn start(&mut self, line: Option<u32>)
        requires { 0 < self.old.history.room }
        ensures history { self.new.history.items ≡ lined line self.old.history.items }
        ensures room { self.old.history.room ≤ self.new.history.room + 1 }
        ensures same { SameLetters self.old self.new }
        ensures hosts { SameHosts self.old self.new }
    {
        let Some(line) = line else {
            return;
        };
        let Ok(()) = self.history.push(Event::Line { line }) else {
            unreachable!()
        };
    }
}
