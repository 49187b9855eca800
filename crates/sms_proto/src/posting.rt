// The messages of a kernel that the server takes and sends.
ghost use Rattle.std.specs.Prelude.{◌≡◌, ◌≢◌, ◌+◌, ◌≤◌, ◌<◌, ◌∷◌, Some, OnOk, IsOk, ℕ};
ghost use Rattle.std.specs.VecDeque.{deque_len, deque_capacity};
ghost use Rattle.vm_model.specs.declared.event.Event.TheVariants.{Taken};
ghost use Rattle.vm_model.specs.declared.message.Channel.TheVariants.{Up};
ghost use Rattle.vm_model.specs.Server.{first};
ghost use Rattle.sms_proto.specs.declared.letter.Letter.{Letter};
ghost use Rattle.sms_proto.specs.Letters.{letter_message, order_message, order_sent, heard_by};
ghost use Rattle.sms_proto.specs.Kernels.{KernelFits, IsWholeOrder, IsPrompt, SamePage};

use crate::kernel::{Kernel, OBJECT};
use crate::letter::Order;
use vm_base::NoMemory;
use vm_model::{Channel, Event, Events, Message};

impl Kernel {
    /// The server takes the host's oldest letter; `heard` is then the control of its last request.
    pub fn hear(
        &mut self,
        heard: u32,
        message: Message,
        events: &mut Events,
    ) -> Result<(), NoMemory>
        requires room { 0 < events.old.room }
        ensures ok { IsOk result }
        ensures fits { (letter : Letter) → KernelFits events.old.items self.old → first self.old.up.items ≡ Some letter
            → message ≡ letter_message letter → heard ≡ heard_by self.old.heard letter
            → OnOk result (KernelFits events.new.items self.new) }
        ensures exact { OnOk result (events.new.items
            ≡ Taken (Up self.old.host (record { 0 = 0 })) message ∷ events.old.items) }
        ensures page { SamePage self.old self.new }
        ensures heard { OnOk result (self.new.heard ≡ heard) }
        ensures posts { (deque_len self.new.down ≡ deque_len self.old.down)
            × (deque_capacity self.new.down ≡ deque_capacity self.old.down) }
        ensures room { events.old.room ≤ events.new.room + 1 }
    {
        events.push(Event::Taken {
            channel: Channel::Up {
                host: self.host,
                object: OBJECT,
            },
            message,
        })?;
        self.up.pop_front();
        self.heard = heard;
        Ok(())
    }

    /// The server sends an order to the control of the host's last request. It is on the way if that
    /// control is the live one.
    pub fn post(
        &mut self,
        order: Order,
        message: Message,
        events: &mut Events,
    ) -> Result<(), NoMemory>
        requires events { 0 < events.old.room }
        requires place { deque_len self.old.down < deque_capacity self.old.down }
        requires message { message ≡ order_message order }
        requires whole { IsWholeOrder self.old.size order }
        requires fits { KernelFits events.old.items self.old }
        ensures ok { IsOk result }
        ensures fits { OnOk result (KernelFits events.new.items self.new) }
        ensures exact { OnOk result (events.new.items
            ≡ order_sent self.old.host self.old.heard order ∷ events.old.items) }
        ensures page { SamePage self.old self.new }
        ensures heard { self.new.heard ≡ self.old.heard }
        ensures posts { (deque_capacity self.new.down ≡ deque_capacity self.old.down)
            × (deque_len self.new.down ≤ deque_len self.old.down + 1) }
        ensures room { events.old.room ≤ events.new.room + 1 }
    {
        events.push(Event::Sent {
            channel: Channel::Down {
                host: self.host,
                object: OBJECT,
                control: self.heard,
            },
            message,
        })?;
        if !self.live || self.control != self.heard {
            return Ok(());
        }
        self.down.push_back(order)?;
        Ok(())
    }
}
