// The events that tell what a page's directory answers.
ghost use Rattle.std.specs.Prelude.{◌≡◌, ◌≤◌, ◌+◌, ◌++◌, false, IsOk, length, slice_index};
ghost use Rattle.sms_pages.specs.Stands;
ghost use Rattle.sms_server.specs.Answers.{reply_event, reply_events, sent_to};

use sms_pages::{Replies, Reply};
use vm_base::{HostId, Lock, NoMemory, ObjectId, PageKey, PageNo};
use vm_model::{Channel, Event, Events, Message};

// What a lock_request asks back: MEMORY_OBJECT_RETURN_NONE and RETURN_DIRTY.
const RETURN_NONE: u32 = 0;

const RETURN_DIRTY: u32 = 1;

// What a lock prohibits: nothing, writing, or what it did: VM_PROT_NO_CHANGE.
const UNLOCKED: u32 = 0;

const NO_WRITE: u32 = 2;

const NO_CHANGE: u32 = 8;

/// A message to a control of a host.
pub fn sent(host: HostId, object: ObjectId, control: u32, message: Message) -> Event
    ensures { result ≡ sent_to host object control message }
{
    Event::Sent {
        channel: Channel::Down {
            host,
            object,
            control,
        },
        message,
    }
}

/// The object is ready: no caching, and no copy strategy.
pub fn ready() -> Message
    ensures { result ≡ Message.Ready false 0 }
{
    Message::Ready {
        cache: false,
        strategy: 0,
    }
}

// A lock_request for one page.
fn lock_request(page: PageNo, returns: u32, flush: bool, lock: u32, reply: bool) -> Message
    ensures { result ≡ Message.Lock page 1 returns flush lock reply }
{
    Message::Lock {
        page,
        count: 1,
        returns,
        flush,
        lock,
        reply,
    }
}

// The accesses that are prohibited, as a message names them.
fn lock_number(lock: Lock) -> u32
    ensures { result ≡ Stands.lock_number lock }
{
    let reading = if lock.read { 1 } else { 0 };
    let writing = if lock.write { 2 } else { 0 };
    reading + writing
}

// The control of the last request that was taken from a host.
fn heard_from(heard: &[u32], host: HostId) -> u32
    ensures { result ≡ slice_index heard.now host.0 }
{
    match heard.get(host.0 as usize) {
        Some(control) => *control,
        None => 0,
    }
}

// The event that sends a reply.
fn event_of(reply: Reply, key: PageKey, heard: &[u32]) -> Event
    ensures { result ≡ reply_event key.object key.page (slice_index heard.now) reply }
{
    let (host, message) = match reply {
        Reply::Supply { host, lock, bytes } => {
            let lock = lock_number(lock);
            let message = Message::Supply {
                page: key.page,
                lock,
                precious: false,
                hex: bytes,
            };
            (host, message)
        }
        Reply::Flush { host } => (
            host,
            lock_request(key.page, RETURN_DIRTY, true, NO_CHANGE, true),
        ),
        Reply::CleanLock { host } => (
            host,
            lock_request(key.page, RETURN_DIRTY, false, NO_WRITE, true),
        ),
        Reply::Unlock { host } => (
            host,
            lock_request(key.page, RETURN_NONE, false, UNLOCKED, false),
        ),
    };
    sent(host, key.object, heard_from(heard, host), message)
}

/// Adds the events that send a page's replies, the oldest first.
pub fn tell(
    replies: Replies,
    key: PageKey,
    heard: &[u32],
    events: &mut Events,
) -> Result<(), NoMemory>
    requires { length replies.items ≤ events.old.room }
    ensures ok { IsOk result }
    ensures told { events.new.items ≡ reply_events key.object key.page (slice_index heard.now) replies.items ++ events.old.items }
    ensures room { events.old.room ≤ events.new.room + length replies.items }
    ensures count { length events.new.items ≡ length events.old.items + length replies.items }
{
    let mut replies = replies;
    'each: while let Some(reply) = replies.take_first() {
        events.push(event_of(reply, key, heard))?;
    }
    Ok(())
}
