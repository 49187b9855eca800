// What a host's kernel has of the page, and what it does of itself.
ghost use Rattle.std.specs.Prelude.{◌≡◌, ◌≢◌, ◌+◌, ◌≤◌, ◌<◌, ◌^◌, ◌∷◌, true, false, None, Some, [], OnOk, OnErr, IfOk, IsOk, length, replicate, if◌then◌else◌};
ghost use Rattle.std.specs.Prelude.{ℕ};
ghost use Rattle.vm_model.specs.PagePart.{world_part};
ghost use Rattle.vm_model.specs.PageLicences.{ActsLicensed};
ghost use Rattle.sms_pages.specs.Directory.{wanted_access};
ghost use Rattle.vm_model.specs.declared.event.Event.TheVariants.{Sent, Dropped};
ghost use Rattle.vm_model.specs.declared.message.Message.TheVariants.{Return, Terminate};
ghost use Rattle.vm_model.specs.declared.message.Channel.TheVariants.{Up};
ghost use Rattle.vm_model.specs.Side.{right_of, locked};
ghost use Rattle.sms_proto.specs.Letters.{supply_lock};
ghost use Rattle.sms_proto.specs.Steps.{put_away_event, begun_event};
ghost use Rattle.sms_proto.specs.Adds.{Adds, HostDoes};
ghost use Rattle.sms_proto.specs.Kernels.{HasRoom, IsPrompt, KernelFits};

use crate::letter::{Letter, Order, access_of};
use std::alloc::Global;
use std::collections::VecDeque;
use std::marker::Model;
use vm_base::{Access, HostId, NoMemory, ObjectId, PageBytes, PageNo, PageSize, TaskId};
use vm_model::{Channel, Event, Events, Message};

/// The number of the object of which the page is.
pub const OBJECT: ObjectId = ObjectId(0);

/// The number of the page in its object.
pub const PAGE: PageNo = PageNo(0);

/// What a host may do with the page.
#[derive(Clone, Copy, Debug, PartialEq, Eq)]
pub struct Right(u8);

impl Model for Right {
    ghost use Rattle.std.specs.Prelude.{ℕ};

    ghost Value = { ℕ };

    ghost view = { λ r. r.0 };

    ghost inverse = { λ n. record { 0 = n } };
}

impl Right {
    /// The page is not here.
    pub const AWAY: Right = Right(0);

    /// The page is here, with a lock that prohibits writing.
    pub const READ: Right = Right(1);

    /// The page is here, with no lock.
    pub const WRITE: Right = Right(2);

    /// What a supply gives that prohibits nothing, or prohibits writing.
    pub fn of(writes: bool) -> Right
        ensures { result ≡ right_of (supply_lock writes) }
    {
        if writes { Right::WRITE } else { Right::READ }
    }

    /// What a lock leaves of it that prohibits nothing, or prohibits writing.
    pub fn locked(self, writes: bool) -> Right
        ensures { result ≡ locked self false (supply_lock writes) }
    {
        if self == Right::AWAY {
            return self;
        }
        Right::of(writes)
    }
}

/// An access that waits, of the eight bytes at the page's front: a load, or a store of `value`, which
/// means nothing for a load.
#[derive(Clone, Copy, Debug, PartialEq, Eq)]
pub struct Want {
    pub store: bool,
    pub value: u64,
}

impl Want {
    // The access that a request for it names.
    fn access(&self) -> Access
        ensures { wanted_access result ≡ (if self.now.store then 3 else 1) }
    {
        if self.store {
            Access::Store
        } else {
            Access::Load
        }
    }
}

/// What the kernel of a host has of the page, its two channels, and the control of its last request
/// that the server took.
#[derive(Drop)]
pub struct Kernel {
    pub host: HostId,
    /// The page size in bytes.
    pub size: PageSize,
    /// The number of the latest control, 0 where there was none.
    pub control: u32,
    /// Whether the latest control is still in use.
    pub live: bool,
    pub right: Right,
    /// They mean something only while the page is here, as `dirty` does.
    pub bytes: PageBytes,
    /// The page was stored to, and not returned since.
    pub dirty: bool,
    /// A data request is outstanding.
    pub asked: bool,
    /// A data unlock is outstanding.
    pub unlocking: bool,
    /// The access of the host's task that waits.
    pub want: Option<Want>,
    /// What is on its way to the server, the oldest first.
    pub up: VecDeque<Letter>,
    /// What is on its way to the live control, the oldest first.
    pub down: VecDeque<Order>,
    /// The control of the last request that the server took, 0 where it took none.
    pub heard: u32,
}

impl Kernel {
    /// The kernel of a host that has nothing of the page.
    #[tactic(auto, using(crate::proofs::Pages::load_within))]
    pub fn new(alloc: Global, host: HostId, size: PageSize) -> Result<Kernel, NoMemory>
        ensures fits { IfOk result (λ kernel. KernelFits [] kernel) }
        ensures prompt { IfOk result (λ kernel. IsPrompt kernel) }
        ensures same { IfOk result (λ kernel. (kernel.host ≡ host) × (kernel.size ≡ size)) }
    {
        Ok(Kernel {
            host,
            size,
            control: 0,
            live: false,
            right: Right::AWAY,
            bytes: PageBytes::zero(alloc, size)?,
            dirty: false,
            asked: false,
            unlocking: false,
            want: None,
            up: VecDeque::new(alloc),
            down: VecDeque::new(alloc),
            heard: 0,
        })
    }

    /// The event of sending a message to the server.
    pub fn sent(&self, message: Message) -> Event
        ensures { result ≡ Sent (Up self.now.host (record { 0 = 0 })) message }
    {
        Event::Sent {
            channel: Channel::Up {
                host: self.host,
                object: OBJECT,
            },
            message,
        }
    }

    /// Drops the page, which has nothing unsaved.
    pub fn drop_page(&mut self, events: &mut Events) -> Result<(), NoMemory>
        requires here { 0 < self.old.right }
        requires clean { self.old.dirty ≡ false }
        requires room { HasRoom 1 events.old self.old }
        requires fits { KernelFits events.old.items self.old }
        requires licensed { ActsLicensed self.old.size (world_part self.old.size events.old.items) }
        ensures ok { IsOk result }
        ensures fits { OnOk result (KernelFits events.new.items self.new) }
        ensures licensed { OnOk result (ActsLicensed self.new.size (world_part self.new.size events.new.items)) }
        ensures adds { OnOk result (Adds (HostDoes self.old.host.0) events.old.items events.new.items) }
        ensures same { (self.new.host ≡ self.old.host) × (self.new.size ≡ self.old.size) }
        ensures exact { OnOk result (events.new.items
            ≡ Dropped self.old.host (record { 0 = 0 }) (record { 0 = 0 }) ∷ events.old.items) }
        ensures kept { OnOk result ((self.new.right ≡ 0) × (self.new.want ≡ self.old.want)
            × (self.new.live ≡ self.old.live) × (self.new.asked ≡ self.old.asked)) }
        ensures room { (n : ℕ) → HasRoom (n + 1) events.old self.old → HasRoom n events.new self.new }
    {
        events.push(self.dropped())?;
        self.right = Right::AWAY;
        Ok(())
    }

    /// The event of dropping the page.
    pub fn dropped(&self) -> Event
        ensures { result ≡ Dropped self.now.host (record { 0 = 0 }) (record { 0 = 0 }) }
    {
        Event::Dropped {
            host: self.host,
            object: OBJECT,
            page: PAGE,
        }
    }

    /// Returns the page, which has something unsaved. It fails for want of memory alone, and then
    /// nothing has changed.
    #[tactic(auto, using(crate::proofs::Queues::map_end, crate::proofs::Queues::each_end))]
    pub fn return_page(&mut self, events: &mut Events) -> Result<(), NoMemory>
        requires here { 0 < self.old.right }
        requires dirty { self.old.dirty ≡ true }
        requires room { HasRoom 1 events.old self.old }
        requires fits { KernelFits events.old.items self.old }
        requires licensed { ActsLicensed self.old.size (world_part self.old.size events.old.items) }
        ensures fits { OnOk result (KernelFits events.new.items self.new) }
        ensures licensed { OnOk result (ActsLicensed self.new.size (world_part self.new.size events.new.items)) }
        ensures adds { OnOk result (Adds (HostDoes self.old.host.0) events.old.items events.new.items) }
        ensures same { (self.new.host ≡ self.old.host) × (self.new.size ≡ self.old.size) }
        ensures exact { OnOk result (events.new.items ≡ Sent (Up self.old.host (record { 0 = 0 }))
            (Return self.old.control (record { 0 = 0 }) true false self.old.bytes) ∷ events.old.items) }
        ensures kept { OnOk result ((self.new.right ≡ 0) × (self.new.want ≡ self.old.want)
            × (self.new.live ≡ self.old.live) × (self.new.asked ≡ self.old.asked)) }
        ensures err { OnErr result (KernelFits events.new.items self.new × (events.new.items ≡ events.old.items)) }
        ensures room { (n : ℕ) → HasRoom (n + 1) events.old self.old → HasRoom n events.new self.new }
    {
        let letter = Letter::Return {
            control: self.control,
            keep: false,
            bytes: self.bytes.copy()?,
        };
        let message = letter.message()?;
        events.push(self.sent(message))?;
        self.up.push_back(letter)?;
        self.right = Right::AWAY;
        self.dirty = false;
        Ok(())
    }

    /// Gives the page up: drops it, or returns it if it has something unsaved. It fails for want of
    /// memory alone, and then nothing has changed.
    pub fn put_away(&mut self, events: &mut Events) -> Result<(), NoMemory>
        requires here { 0 < self.old.right }
        requires room { HasRoom 1 events.old self.old }
        requires fits { KernelFits events.old.items self.old }
        requires licensed { ActsLicensed self.old.size (world_part self.old.size events.old.items) }
        ensures fits { OnOk result (KernelFits events.new.items self.new) }
        ensures licensed { OnOk result (ActsLicensed self.new.size (world_part self.new.size events.new.items)) }
        ensures adds { OnOk result (Adds (HostDoes self.old.host.0) events.old.items events.new.items) }
        ensures same { (self.new.host ≡ self.old.host) × (self.new.size ≡ self.old.size) }
        ensures exact { OnOk result (events.new.items
            ≡ put_away_event self.old.host.0 self.old.control self.old.dirty self.old.bytes ∷ events.old.items) }
        ensures kept { OnOk result ((self.new.right ≡ 0) × (self.new.want ≡ self.old.want)
            × (self.new.live ≡ self.old.live) × (self.new.asked ≡ self.old.asked)) }
        ensures err { OnErr result (KernelFits events.new.items self.new × (events.new.items ≡ events.old.items)) }
        ensures room { (n : ℕ) → HasRoom (n + 1) events.old self.old → HasRoom n events.new self.new }
    {
        if self.dirty {
            self.return_page(events)
        } else {
            self.drop_page(events)
        }
    }

    /// Ends the control of a host that has no page and has asked for none.
    #[tactic(auto, using(crate::proofs::Queues::map_end, crate::proofs::Queues::each_end))]
    pub fn end(&mut self, events: &mut Events) -> Result<(), NoMemory>
        requires live { self.old.live ≡ true }
        requires away { self.old.right ≡ 0 }
        requires plain { self.old.asked ≡ false }
        requires room { HasRoom 1 events.old self.old }
        requires fits { KernelFits events.old.items self.old }
        requires licensed { ActsLicensed self.old.size (world_part self.old.size events.old.items) }
        ensures ok { IsOk result }
        ensures fits { OnOk result (KernelFits events.new.items self.new) }
        ensures licensed { OnOk result (ActsLicensed self.new.size (world_part self.new.size events.new.items)) }
        ensures adds { OnOk result (Adds (HostDoes self.old.host.0) events.old.items events.new.items) }
        ensures same { (self.new.host ≡ self.old.host) × (self.new.size ≡ self.old.size) }
        ensures exact { OnOk result (events.new.items
            ≡ Sent (Up self.old.host (record { 0 = 0 })) (Terminate self.old.control) ∷ events.old.items) }
        ensures want { self.new.want ≡ self.old.want }
    {
        let letter = Letter::Terminate {
            control: self.control,
        };
        events.push(self.sent(Message::Terminate {
            control: self.control,
        }))?;
        self.up.push_back(letter)?;
        self.down.clear();
        self.live = false;
        Ok(())
    }

    // Asks for the page, for the access that waits.
    #[tactic(auto, using(crate::proofs::Queues::map_end, crate::proofs::Queues::each_end))]
    fn request(&mut self, want: Want, events: &mut Events) -> Result<(), NoMemory>
        requires live { self.old.live ≡ true }
        requires away { self.old.right ≡ 0 }
        requires plain { self.old.asked ≡ false }
        requires waits { self.old.want ≡ Some want }
        requires room { HasRoom 1 events.old self.old }
        requires fits { KernelFits events.old.items self.old }
        requires licensed { ActsLicensed self.old.size (world_part self.old.size events.old.items) }
        ensures ok { IsOk result }
        ensures fits { OnOk result (KernelFits events.new.items self.new) }
        ensures licensed { OnOk result (ActsLicensed self.new.size (world_part self.new.size events.new.items)) }
        ensures adds { OnOk result (Adds (HostDoes self.old.host.0) events.old.items events.new.items) }
        ensures same { (self.new.host ≡ self.old.host) × (self.new.size ≡ self.old.size) }
        ensures prompt { OnOk result (IsPrompt self.new) }
    {
        let access = want.access();
        let letter = Letter::Request {
            control: self.control,
            access,
        };
        events.push(self.sent(Message::Request {
            control: self.control,
            page: PAGE,
            access: access_of(access),
        }))?;
        self.up.push_back(letter)?;
        self.asked = true;
        Ok(())
    }

    // Asks that the page, which is here to read, may be written, for the store that waits.
    #[tactic(auto, using(crate::proofs::Queues::map_end, crate::proofs::Queues::each_end))]
    fn unlock(&mut self, want: Want, events: &mut Events) -> Result<(), NoMemory>
        requires live { self.old.live ≡ true }
        requires reads { self.old.right ≡ 1 }
        requires plain { self.old.unlocking ≡ false }
        requires waits { self.old.want ≡ Some want }
        requires store { want.store ≡ true }
        requires room { HasRoom 1 events.old self.old }
        requires fits { KernelFits events.old.items self.old }
        requires licensed { ActsLicensed self.old.size (world_part self.old.size events.old.items) }
        ensures ok { IsOk result }
        ensures fits { OnOk result (KernelFits events.new.items self.new) }
        ensures licensed { OnOk result (ActsLicensed self.new.size (world_part self.new.size events.new.items)) }
        ensures adds { OnOk result (Adds (HostDoes self.old.host.0) events.old.items events.new.items) }
        ensures same { (self.new.host ≡ self.old.host) × (self.new.size ≡ self.old.size) }
        ensures prompt { OnOk result (IsPrompt self.new) }
    {
        let letter = Letter::Unlock {
            control: self.control,
        };
        events.push(self.sent(Message::Unlock {
            control: self.control,
            page: PAGE,
            access: 3,
        }))?;
        self.up.push_back(letter)?;
        self.unlocking = true;
        Ok(())
    }

    // The load that waits reads the page, which is here.
    #[tactic(auto, using(crate::proofs::Pages::stored_whole, crate::proofs::Pages::one_waits))]
    fn load(&mut self, want: Want, events: &mut Events) -> Result<(), NoMemory>
        requires here { 0 < self.old.right }
        requires waits { self.old.want ≡ Some want }
        requires load { want.store ≡ false }
        requires room { HasRoom 1 events.old self.old }
        requires fits { KernelFits events.old.items self.old }
        requires licensed { ActsLicensed self.old.size (world_part self.old.size events.old.items) }
        ensures ok { IsOk result }
        ensures fits { OnOk result (KernelFits events.new.items self.new) }
        ensures licensed { OnOk result (ActsLicensed self.new.size (world_part self.new.size events.new.items)) }
        ensures adds { OnOk result (Adds (HostDoes self.old.host.0) events.old.items events.new.items) }
        ensures same { (self.new.host ≡ self.old.host) × (self.new.size ≡ self.old.size) }
        ensures none { OnOk result (self.new.want ≡ None) }
    {
        events.push(Event::Loaded {
            task: TaskId(self.host.0),
            object: OBJECT,
            page: PAGE,
            value: self.bytes.get(0, 8),
        })?;
        self.want = None;
        Ok(())
    }

    // The store that waits writes the page, which is here with nothing prohibited.
    #[tactic(auto, using(crate::proofs::Pages::stored_whole, crate::proofs::Pages::one_waits))]
    fn store(&mut self, want: Want, events: &mut Events) -> Result<(), NoMemory>
        requires writes { self.old.right ≡ 2 }
        requires waits { self.old.want ≡ Some want }
        requires store { want.store ≡ true }
        requires fits_in { want.value < 2 ^ 64 }
        requires room { HasRoom 1 events.old self.old }
        requires fits { KernelFits events.old.items self.old }
        requires licensed { ActsLicensed self.old.size (world_part self.old.size events.old.items) }
        ensures ok { IsOk result }
        ensures fits { OnOk result (KernelFits events.new.items self.new) }
        ensures licensed { OnOk result (ActsLicensed self.new.size (world_part self.new.size events.new.items)) }
        ensures adds { OnOk result (Adds (HostDoes self.old.host.0) events.old.items events.new.items) }
        ensures same { (self.new.host ≡ self.old.host) × (self.new.size ≡ self.old.size) }
        ensures none { OnOk result (self.new.want ≡ None) }
    {
        events.push(Event::Stored {
            task: TaskId(self.host.0),
            object: OBJECT,
            page: PAGE,
            at: 0,
            size: 8,
            value: want.value,
        })?;
        self.bytes.put(0, 8, want.value);
        self.dirty = true;
        self.want = None;
        Ok(())
    }

    /// The access that waits, if one does, goes as far as it can.
    pub fn go_on(&mut self, events: &mut Events) -> Result<(), NoMemory>
        requires live { self.old.want ≢ None → self.old.live ≡ true }
        requires room { HasRoom 1 events.old self.old }
        requires fits { KernelFits events.old.items self.old }
        requires licensed { ActsLicensed self.old.size (world_part self.old.size events.old.items) }
        ensures ok { IsOk result }
        ensures fits { OnOk result (KernelFits events.new.items self.new) }
        ensures licensed { OnOk result (ActsLicensed self.new.size (world_part self.new.size events.new.items)) }
        ensures adds { OnOk result (Adds (HostDoes self.old.host.0) events.old.items events.new.items) }
        ensures same { (self.new.host ≡ self.old.host) × (self.new.size ≡ self.old.size) }
        ensures prompt { OnOk result (IsPrompt self.new) }
    {
        let Some(want) = self.want else {
            return Ok(());
        };
        if self.right == Right::AWAY {
            if self.asked {
                return Ok(());
            }
            return self.request(want, events);
        }
        if !want.store {
            return self.load(want, events);
        }
        if self.right == Right::WRITE {
            return self.store(want, events);
        }
        if self.unlocking {
            return Ok(());
        }
        self.unlock(want, events)
    }

    /// Begins an access of a host that has a control.
    pub fn begin(&mut self, want: Want, events: &mut Events) -> Result<(), NoMemory>
        requires live { self.old.live ≡ true }
        requires idle { self.old.want ≡ None }
        requires plain { want.store ≡ false → want.value ≡ 0 }
        requires room { HasRoom 2 events.old self.old }
        requires fits { KernelFits events.old.items self.old }
        requires licensed { ActsLicensed self.old.size (world_part self.old.size events.old.items) }
        ensures ok { IsOk result }
        ensures fits { OnOk result (KernelFits events.new.items self.new) }
        ensures licensed { OnOk result (ActsLicensed self.new.size (world_part self.new.size events.new.items)) }
        ensures same { (self.new.host ≡ self.old.host) × (self.new.size ≡ self.old.size) }
        ensures exact { OnOk result (events.new.items
            ≡ begun_event self.old.host.0 want.store want.value ∷ events.old.items) }
        ensures begun { OnOk result ((self.new.live ≡ true) × (self.new.want ≡ Some want)) }
        ensures room { HasRoom 1 events.new self.new }
    {
        events.push(begun(self.host, want))?;
        self.want = Some(want);
        Ok(())
    }

    /// Begins an access of a host that has no control: its next one begins.
    pub fn begin_anew(
        &mut self,
        control: u32,
        want: Want,
        events: &mut Events,
    ) -> Result<(), NoMemory>
        requires gone { self.old.live ≡ false }
        requires next { control ≡ self.old.control + 1 }
        requires idle { self.old.want ≡ None }
        requires plain { want.store ≡ false → want.value ≡ 0 }
        requires room { HasRoom 2 events.old self.old }
        requires fits { KernelFits events.old.items self.old }
        requires licensed { ActsLicensed self.old.size (world_part self.old.size events.old.items) }
        ensures ok { IsOk result }
        ensures fits { OnOk result (KernelFits events.new.items self.new) }
        ensures licensed { OnOk result (ActsLicensed self.new.size (world_part self.new.size events.new.items)) }
        ensures same { (self.new.host ≡ self.old.host) × (self.new.size ≡ self.old.size) }
        ensures exact { OnOk result (events.new.items
            ≡ begun_event self.old.host.0 want.store want.value ∷ events.old.items) }
        ensures begun { OnOk result ((self.new.live ≡ true) × (self.new.want ≡ Some want)) }
        ensures room { HasRoom 1 events.new self.new }
    {
        events.push(begun(self.host, want))?;
        self.control = control;
        self.live = true;
        self.want = Some(want);
        Ok(())
    }
}

// The event of beginning an access.
fn begun(host: HostId, want: Want) -> Event
    ensures { result ≡ begun_event host.0 want.store want.value }
{
    let task = TaskId(host.0);
    if want.store {
        Event::BegunStore {
            task,
            address: 0,
            size: 8,
            value: want.value,
        }
    } else {
        Event::BegunLoad {
            task,
            address: 0,
            size: 8,
        }
    }
}
