// What is on the way between a host's kernel and the server.
ghost use Rattle.std.specs.Prelude.{◌≡◌, true, false, IfOk};
ghost use Rattle.sms_pages.specs.Directory.{wanted_access};
ghost use Rattle.vm_model.specs.declared.message.Message.TheVariants.{Lock};
ghost use Rattle.sms_proto.specs.Letters.{letter_message, order_message};

use vm_base::{Access, NoMemory, PageBytes, PageNo};
use vm_model::Message;

const PAGE: PageNo = PageNo(0);

/// A message from a kernel to the server, about the world's one page.
#[derive(Drop)]
pub enum Letter {
    Request {
        control: u32,
        access: Access,
    },
    Unlock {
        control: u32,
    },
    Return {
        control: u32,
        keep: bool,
        bytes: PageBytes,
    },
    Completed {
        control: u32,
    },
    Terminate {
        control: u32,
    },
}

impl Letter {
    /// The message of the kernel interfaces that the letter is.
    pub fn message(&self) -> Result<Message, NoMemory>
        ensures { IfOk result (λ message. message ≡ letter_message self.now) }
    {
        Ok(match self {
            Letter::Request { control, access } => Message::Request {
                control: *control,
                page: PAGE,
                access: access_of(*access),
            },
            Letter::Unlock { control } => Message::Unlock {
                control: *control,
                page: PAGE,
                access: 3,
            },
            Letter::Return {
                control,
                keep,
                bytes,
            } => Message::Return {
                control: *control,
                page: PAGE,
                dirty: true,
                keep: *keep,
                hex: bytes.copy()?,
            },
            Letter::Completed { control } => Message::Completed {
                control: *control,
                page: PAGE,
                count: 1,
            },
            Letter::Terminate { control } => Message::Terminate { control: *control },
        })
    }
}

/// The desired access of a request.
pub fn access_of(access: Access) -> u32
    ensures { result ≡ wanted_access access }
{
    match access {
        Access::Load => 1,
        Access::Store => 3,
    }
}

/// A message from the server to a kernel's control of the page.
#[derive(Drop)]
pub enum Order {
    /// The page, with no access prohibited, or with writing prohibited.
    Supply { writes: bool, bytes: PageBytes },
    /// A lock with a reply: what is unsaved comes back, and the page goes.
    Flush,
    /// A lock with a reply: what is unsaved comes back, and writing is prohibited.
    Clean,
    /// A lock that prohibits nothing.
    Unlock,
}

impl Order {
    /// The message of the kernel interfaces that the order is.
    pub fn message(&self) -> Result<Message, NoMemory>
        ensures { IfOk result (λ message. message ≡ order_message self.now) }
    {
        match self {
            Order::Supply { writes, bytes } => Ok(Message::Supply {
                page: PAGE,
                lock: if *writes { 0 } else { 2 },
                precious: false,
                hex: bytes.copy()?,
            }),
            Order::Flush => Ok(lock(1, true, 8, true)),
            Order::Clean => Ok(lock(1, false, 2, true)),
            Order::Unlock => Ok(lock(0, false, 0, false)),
        }
    }
}

/// A lock request over the page.
pub fn lock(returns: u32, flush: bool, lock: u32, reply: bool) -> Message
    ensures { result ≡ Lock (record { 0 = 0 }) 1 returns flush lock reply }
{
    Message::Lock {
        page: PAGE,
        count: 1,
        returns,
        flush,
        lock,
        reply,
    }
}
