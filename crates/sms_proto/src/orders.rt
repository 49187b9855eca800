// What a kernel does with what it takes from the server.
ghost use Rattle.std.specs.Prelude.{◌≡◌, ◌≢◌, ◌+◌, ◌<◌, ◌∷◌, true, false, None, Some, OnOk, OnErr, IsOk, ℕ};
ghost use Rattle.vm_model.specs.declared.event.Event.TheVariants.{Sent, Taken};
ghost use Rattle.vm_model.specs.declared.message.Channel.TheVariants.{Up, Down};
ghost use Rattle.vm_model.specs.declared.message.Message.TheVariants.{Supply, Completed};
ghost use Rattle.vm_model.specs.PagePart.{world_part};
ghost use Rattle.vm_model.specs.PageLicences.{ActsLicensed};
ghost use Rattle.vm_model.specs.Server.{first};
ghost use Rattle.sms_proto.specs.declared.letter.Order.TheVariants as order;
ghost use Rattle.sms_proto.specs.Adds.{Adds, HostDoes};
ghost use Rattle.sms_proto.specs.Kernels.{HasRoom, IsPrompt, KernelFits};
ghost use Rattle.sms_proto.specs.Letters.{order_message, order_taken, taken_first, supply_lock, done_event, return_event, drop_event};
ghost use Rattle.sms_proto.specs.Steps.{StepEvents};

use crate::kernel::{Kernel, OBJECT, PAGE, Right};
use crate::letter::{Letter, Order, lock};
use vm_base::{NoMemory, PageBytes};
use vm_model::{Channel, Event, Events, Message};

impl Kernel {
    // The event of taking a message from the server.
    fn taken(&self, message: Message) -> Event
        ensures { result ≡ Taken (Down self.now.host (record { 0 = 0 }) self.now.control) message }
    {
        Event::Taken {
            channel: Channel::Down {
                host: self.host,
                object: OBJECT,
                control: self.control,
            },
            message,
        }
    }

    // The event of saying that a lock is done.
    fn done(&self) -> Event
        ensures { result
            ≡ Sent (Up self.now.host (record { 0 = 0 })) (Completed self.now.control (record { 0 = 0 }) 1) }
    {
        self.sent(Message::Completed {
            control: self.control,
            page: PAGE,
            count: 1,
        })
    }

    // Takes the page, which counts where it was asked for.
    fn take_supply(
        &mut self,
        writes: bool,
        bytes: PageBytes,
        message: Message,
        events: &mut Events,
    ) -> Result<(), NoMemory>
        requires message { message ≡ Supply (record { 0 = 0 }) (supply_lock writes) false bytes }
        requires live { self.old.live ≡ true }
        requires head { first self.old.down.items ≡ Some (order.Supply writes bytes) }
        requires room { HasRoom 2 events.old self.old }
        requires fits { KernelFits events.old.items self.old }
        requires licensed { ActsLicensed self.old.size (world_part self.old.size events.old.items) }
        ensures ok { IsOk result }
        ensures fits { OnOk result (KernelFits events.new.items self.new) }
        ensures licensed { OnOk result (ActsLicensed self.new.size (world_part self.new.size events.new.items)) }
        ensures adds { OnOk result (Adds (HostDoes self.old.host.0) (order_taken self.old.host self.old.control (order.Supply writes bytes) ∷ events.old.items)
            events.new.items) }
        ensures same { (self.new.host ≡ self.old.host) × (self.new.size ≡ self.old.size)
            × (self.new.live ≡ self.old.live) }
        ensures room { OnOk result (HasRoom 1 events.new self.new) }
    {
        events.push(self.taken(message))?;
        self.down.pop_front();
        if !self.asked {
            return Ok(());
        }
        self.right = Right::of(writes);
        self.bytes = bytes;
        self.dirty = false;
        self.unlocking = false;
        self.asked = false;
        Ok(())
    }

    // Takes a lock that prohibits nothing.
    #[tactic(auto, using(crate::proofs::Queues::map_end, crate::proofs::Queues::each_end))]
    fn take_unlock(&mut self, events: &mut Events) -> Result<(), NoMemory>
        requires live { self.old.live ≡ true }
        requires head { first self.old.down.items ≡ Some order.Unlock }
        requires room { HasRoom 2 events.old self.old }
        requires fits { KernelFits events.old.items self.old }
        requires licensed { ActsLicensed self.old.size (world_part self.old.size events.old.items) }
        ensures ok { IsOk result }
        ensures fits { OnOk result (KernelFits events.new.items self.new) }
        ensures licensed { OnOk result (ActsLicensed self.new.size (world_part self.new.size events.new.items)) }
        ensures adds { OnOk result (Adds (HostDoes self.old.host.0) (order_taken self.old.host self.old.control order.Unlock ∷ events.old.items)
            events.new.items) }
        ensures same { (self.new.host ≡ self.old.host) × (self.new.size ≡ self.old.size)
            × (self.new.live ≡ self.old.live) }
        ensures room { OnOk result (HasRoom 1 events.new self.new) }
    {
        events.push(self.taken(lock(0, false, 0, false)))?;
        self.down.pop_front();
        self.right = self.right.locked(true);
        self.unlocking = false;
        Ok(())
    }

    // Takes a flush of a page that isn't here.
    #[tactic(auto, using(crate::proofs::Queues::map_end, crate::proofs::Queues::each_end))]
    fn flush_nothing(&mut self, events: &mut Events) -> Result<(), NoMemory>
        requires live { self.old.live ≡ true }
        requires head { first self.old.down.items ≡ Some order.Flush }
        requires away { self.old.right ≡ 0 }
        requires room { HasRoom 4 events.old self.old }
        requires fits { KernelFits events.old.items self.old }
        requires licensed { ActsLicensed self.old.size (world_part self.old.size events.old.items) }
        ensures ok { IsOk result }
        ensures fits { OnOk result (KernelFits events.new.items self.new) }
        ensures licensed { OnOk result (ActsLicensed self.new.size (world_part self.new.size events.new.items)) }
        ensures adds { OnOk result (Adds (HostDoes self.old.host.0) (order_taken self.old.host self.old.control order.Flush ∷ events.old.items)
            events.new.items) }
        ensures same { (self.new.host ≡ self.old.host) × (self.new.size ≡ self.old.size)
            × (self.new.live ≡ self.old.live) }
        ensures room { OnOk result (HasRoom 1 events.new self.new) }
    {
        events.push(self.taken(lock(1, true, 8, true)))?;
        events.push(self.done())?;
        self.down.pop_front();
        self.up.push_back(Letter::Completed {
            control: self.control,
        })?;
        self.unlocking = false;
        Ok(())
    }

    // Takes a flush of a page that has nothing unsaved.
    #[tactic(auto, using(crate::proofs::Queues::map_end, crate::proofs::Queues::each_end))]
    fn flush_clean(&mut self, events: &mut Events) -> Result<(), NoMemory>
        requires live { self.old.live ≡ true }
        requires head { first self.old.down.items ≡ Some order.Flush }
        requires here { 0 < self.old.right }
        requires clean { self.old.dirty ≡ false }
        requires room { HasRoom 4 events.old self.old }
        requires fits { KernelFits events.old.items self.old }
        requires licensed { ActsLicensed self.old.size (world_part self.old.size events.old.items) }
        ensures ok { IsOk result }
        ensures fits { OnOk result (KernelFits events.new.items self.new) }
        ensures licensed { OnOk result (ActsLicensed self.new.size (world_part self.new.size events.new.items)) }
        ensures adds { OnOk result (Adds (HostDoes self.old.host.0) (order_taken self.old.host self.old.control order.Flush ∷ events.old.items)
            events.new.items) }
        ensures same { (self.new.host ≡ self.old.host) × (self.new.size ≡ self.old.size)
            × (self.new.live ≡ self.old.live) }
        ensures room { OnOk result (HasRoom 1 events.new self.new) }
    {
        events.push(self.taken(lock(1, true, 8, true)))?;
        events.push(self.dropped())?;
        events.push(self.done())?;
        self.down.pop_front();
        self.up.push_back(Letter::Completed {
            control: self.control,
        })?;
        self.right = Right::AWAY;
        self.unlocking = false;
        Ok(())
    }

    // Takes a flush of a page that has something unsaved. It fails for want of memory alone, and then
    // nothing has changed.
    #[tactic(auto, using(crate::proofs::Queues::map_end, crate::proofs::Queues::each_end))]
    fn flush_dirty(&mut self, events: &mut Events) -> Result<(), NoMemory>
        requires live { self.old.live ≡ true }
        requires head { first self.old.down.items ≡ Some order.Flush }
        requires here { 0 < self.old.right }
        requires dirty { self.old.dirty ≡ true }
        requires room { HasRoom 4 events.old self.old }
        requires fits { KernelFits events.old.items self.old }
        requires licensed { ActsLicensed self.old.size (world_part self.old.size events.old.items) }
        ensures fits { OnOk result (KernelFits events.new.items self.new) }
        ensures licensed { OnOk result (ActsLicensed self.new.size (world_part self.new.size events.new.items)) }
        ensures adds { OnOk result (Adds (HostDoes self.old.host.0) (order_taken self.old.host self.old.control order.Flush ∷ events.old.items)
            events.new.items) }
        ensures same { (self.new.host ≡ self.old.host) × (self.new.size ≡ self.old.size)
            × (self.new.live ≡ self.old.live) }
        ensures room { OnOk result (HasRoom 1 events.new self.new) }
        ensures err { OnErr result (KernelFits events.new.items self.new × (events.new.items ≡ events.old.items)) }
    {
        let letter = Letter::Return {
            control: self.control,
            keep: false,
            bytes: self.bytes.copy()?,
        };
        let message = letter.message()?;
        events.push(self.taken(lock(1, true, 8, true)))?;
        events.push(self.sent(message))?;
        events.push(self.done())?;
        self.down.pop_front();
        self.up.push_back(letter)?;
        self.up.push_back(Letter::Completed {
            control: self.control,
        })?;
        self.right = Right::AWAY;
        self.dirty = false;
        self.unlocking = false;
        Ok(())
    }

    // Takes a clean lock of a page that is away, or has nothing unsaved.
    #[tactic(auto, using(crate::proofs::Queues::map_end, crate::proofs::Queues::each_end))]
    fn clean_nothing(&mut self, events: &mut Events) -> Result<(), NoMemory>
        requires live { self.old.live ≡ true }
        requires head { first self.old.down.items ≡ Some order.Clean }
        requires saved { 0 < self.old.right → self.old.dirty ≡ false }
        requires room { HasRoom 4 events.old self.old }
        requires fits { KernelFits events.old.items self.old }
        requires licensed { ActsLicensed self.old.size (world_part self.old.size events.old.items) }
        ensures ok { IsOk result }
        ensures fits { OnOk result (KernelFits events.new.items self.new) }
        ensures licensed { OnOk result (ActsLicensed self.new.size (world_part self.new.size events.new.items)) }
        ensures adds { OnOk result (Adds (HostDoes self.old.host.0) (order_taken self.old.host self.old.control order.Clean ∷ events.old.items)
            events.new.items) }
        ensures same { (self.new.host ≡ self.old.host) × (self.new.size ≡ self.old.size)
            × (self.new.live ≡ self.old.live) }
        ensures room { OnOk result (HasRoom 1 events.new self.new) }
    {
        events.push(self.taken(lock(1, false, 2, true)))?;
        events.push(self.done())?;
        self.down.pop_front();
        self.up.push_back(Letter::Completed {
            control: self.control,
        })?;
        self.right = self.right.locked(false);
        self.unlocking = false;
        Ok(())
    }

    // Takes a clean lock of a page that has something unsaved. It fails for want of memory alone, and
    // then nothing has changed.
    #[tactic(auto, using(crate::proofs::Queues::map_end, crate::proofs::Queues::each_end))]
    fn clean_dirty(&mut self, events: &mut Events) -> Result<(), NoMemory>
        requires live { self.old.live ≡ true }
        requires head { first self.old.down.items ≡ Some order.Clean }
        requires here { 0 < self.old.right }
        requires dirty { self.old.dirty ≡ true }
        requires room { HasRoom 4 events.old self.old }
        requires fits { KernelFits events.old.items self.old }
        requires licensed { ActsLicensed self.old.size (world_part self.old.size events.old.items) }
        ensures fits { OnOk result (KernelFits events.new.items self.new) }
        ensures licensed { OnOk result (ActsLicensed self.new.size (world_part self.new.size events.new.items)) }
        ensures adds { OnOk result (Adds (HostDoes self.old.host.0) (order_taken self.old.host self.old.control order.Clean ∷ events.old.items)
            events.new.items) }
        ensures same { (self.new.host ≡ self.old.host) × (self.new.size ≡ self.old.size)
            × (self.new.live ≡ self.old.live) }
        ensures room { OnOk result (HasRoom 1 events.new self.new) }
        ensures err { OnErr result (KernelFits events.new.items self.new × (events.new.items ≡ events.old.items)) }
    {
        let letter = Letter::Return {
            control: self.control,
            keep: true,
            bytes: self.bytes.copy()?,
        };
        let message = letter.message()?;
        events.push(self.taken(lock(1, false, 2, true)))?;
        events.push(self.sent(message))?;
        events.push(self.done())?;
        self.down.pop_front();
        self.up.push_back(letter)?;
        self.up.push_back(Letter::Completed {
            control: self.control,
        })?;
        self.right = Right::READ;
        self.dirty = false;
        self.unlocking = false;
        Ok(())
    }

    // Takes a flush.
    fn take_flush(&mut self, events: &mut Events) -> Result<(), NoMemory>
        requires live { self.old.live ≡ true }
        requires head { first self.old.down.items ≡ Some order.Flush }
        requires room { HasRoom 4 events.old self.old }
        requires fits { KernelFits events.old.items self.old }
        requires licensed { ActsLicensed self.old.size (world_part self.old.size events.old.items) }
        ensures fits { OnOk result (KernelFits events.new.items self.new) }
        ensures licensed { OnOk result (ActsLicensed self.new.size (world_part self.new.size events.new.items)) }
        ensures adds { OnOk result (Adds (HostDoes self.old.host.0) (order_taken self.old.host self.old.control order.Flush ∷ events.old.items)
            events.new.items) }
        ensures same { (self.new.host ≡ self.old.host) × (self.new.size ≡ self.old.size)
            × (self.new.live ≡ self.old.live) }
        ensures room { OnOk result (HasRoom 1 events.new self.new) }
        ensures err { OnErr result (KernelFits events.new.items self.new × (events.new.items ≡ events.old.items)) }
    {
        if self.right == Right::AWAY {
            return self.flush_nothing(events);
        }
        if self.dirty {
            self.flush_dirty(events)
        } else {
            self.flush_clean(events)
        }
    }

    // Takes a clean lock.
    fn take_clean(&mut self, events: &mut Events) -> Result<(), NoMemory>
        requires live { self.old.live ≡ true }
        requires head { first self.old.down.items ≡ Some order.Clean }
        requires room { HasRoom 4 events.old self.old }
        requires fits { KernelFits events.old.items self.old }
        requires licensed { ActsLicensed self.old.size (world_part self.old.size events.old.items) }
        ensures fits { OnOk result (KernelFits events.new.items self.new) }
        ensures licensed { OnOk result (ActsLicensed self.new.size (world_part self.new.size events.new.items)) }
        ensures adds { OnOk result (Adds (HostDoes self.old.host.0) (order_taken self.old.host self.old.control order.Clean ∷ events.old.items)
            events.new.items) }
        ensures same { (self.new.host ≡ self.old.host) × (self.new.size ≡ self.old.size)
            × (self.new.live ≡ self.old.live) }
        ensures room { OnOk result (HasRoom 1 events.new self.new) }
        ensures err { OnErr result (KernelFits events.new.items self.new × (events.new.items ≡ events.old.items)) }
    {
        if self.right != Right::AWAY && self.dirty {
            self.clean_dirty(events)
        } else {
            self.clean_nothing(events)
        }
    }

    /// Takes the oldest message from the server, if there is one.
    pub fn take_order(&mut self, events: &mut Events) -> Result<(), NoMemory>
        requires live { self.old.live ≡ true }
        requires room { HasRoom 4 events.old self.old }
        requires fits { KernelFits events.old.items self.old }
        requires licensed { ActsLicensed self.old.size (world_part self.old.size events.old.items) }
        ensures fits { KernelFits events.new.items self.new }
        ensures licensed { ActsLicensed self.new.size (world_part self.new.size events.new.items) }
        ensures goes { OnOk result (StepEvents (HostDoes self.old.host.0) (taken_first self.old.host self.old.control (first self.old.down.items))
            events.old.items events.new.items) }
        ensures same { (self.new.host ≡ self.old.host) × (self.new.size ≡ self.old.size)
            × (self.new.live ≡ self.old.live) }
        ensures room { OnOk result (HasRoom 1 events.new self.new) }
        ensures err { OnErr result (events.new.items ≡ events.old.items) }
    {
        let Some(order) = self.down.front() else {
            return Ok(());
        };
        match order {
            Order::Supply { writes, bytes } => {
                let message = order.message()?;
                let writes = *writes;
                let bytes = bytes.copy()?;
                self.take_supply(writes, bytes, message, events)
            }
            Order::Flush => self.take_flush(events),
            Order::Clean => self.take_clean(events),
            Order::Unlock => self.take_unlock(events),
        }
    }
}
