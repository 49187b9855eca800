//! What a pager answers, whatever memory it has.
#![tactic(auto)]

ghost use Rattle.std.specs.Prelude.{◌≡◌, false};
ghost use Rattle.pg_answers.specs.Answers.{error, sent_to, supply};

use vm_base::{HostId, ObjectId, PageBytes, PageNo};
use vm_model::{Channel, Event, Message};

// The reason of an error: KERN_MEMORY_ERROR.
const MEMORY_ERROR: u32 = 10;

/// A message to a control of a host.
pub fn sent(host: HostId, object: ObjectId, control: u32, message: Message) -> Event
    ensures { result ≡ sent_to host.0 object control message }
{
    Event::Sent {
        channel: Channel::Down {
            host,
            object,
            control,
        },
        message,
    }
}

/// The object is ready, with a copy strategy: 0 none, 2 delay, 3 temporary.
pub fn ready(strategy: u32) -> Message
    ensures { result ≡ Message.Ready false strategy }
{
    Message::Ready {
        cache: false,
        strategy,
    }
}

/// The bytes of a page, with no access prohibited.
pub fn supply(page: PageNo, bytes: PageBytes) -> Message
    ensures { result ≡ supply page bytes }
{
    Message::Supply {
        page,
        lock: 0,
        precious: false,
        hex: bytes,
    }
}

/// The page is lost, or can't be read.
pub fn error(page: PageNo) -> Message
    ensures { result ≡ error page }
{
    Message::Error {
        page,
        reason: MEMORY_ERROR,
    }
}
