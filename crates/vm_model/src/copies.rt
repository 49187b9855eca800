// Copies of messages.
ghost use Rattle.std.specs.Prelude.{◌≡◌, ◌+◌, ◌<◌, length, true, false};
ghost use Rattle.vm_model.specs.Copies.{carries_page, HasPageOf, is_of_pages, is_from_pager};

use crate::Message;
use vm_base::{Buffers, PageBytes};

impl Message {
    /// The same message once more, without memory: the copy of its page, where it has one, stands in
    /// a buffer of the store.
    pub fn copy(&self, buffers: &mut Buffers) -> Message
        requires buffer { carries_page self.now ≡ true → 0 < buffers.old.count }
        requires size { HasPageOf buffers.old.size self.now }
        ensures same { result ≡ self.now }
        ensures size { buffers.new.size ≡ buffers.old.size }
        ensures fewer { carries_page self.now ≡ true → buffers.old.count ≡ buffers.new.count + 1 }
        ensures kept { carries_page self.now ≡ false → buffers.new ≡ buffers.old }
    {
        match *self {
            Message::Return {
                control,
                page,
                dirty,
                keep,
                ref hex,
            } => Message::Return {
                control,
                page,
                dirty,
                keep,
                hex: copy_page(hex, buffers),
            },
            Message::Supply {
                page,
                lock,
                precious,
                ref hex,
            } => Message::Supply {
                page,
                lock,
                precious,
                hex: copy_page(hex, buffers),
            },
            _ => self.copy_of_object(),
        }
    }

    // What is said of the whole object; else it is of pages.
    fn copy_of_object(&self) -> Message
        requires { carries_page self.now ≡ false }
        ensures { result ≡ self.now }
    {
        match *self {
            Message::Init { control, size } => Message::Init { control, size },
            Message::Create { control, size } => Message::Create { control, size },
            Message::Terminate { control } => Message::Terminate { control },
            Message::Ready { cache, strategy } => Message::Ready { cache, strategy },
            Message::Attributes {
                cache,
                strategy,
                reply,
            } => Message::Attributes {
                cache,
                strategy,
                reply,
            },
            Message::Changed {
                control,
                cache,
                strategy,
            } => Message::Changed {
                control,
                cache,
                strategy,
            },
            Message::Destroy { reason } => Message::Destroy { reason },
            _ => self.copy_of_pages(),
        }
    }

    // What a kernel says of pages; else the pager says it.
    fn copy_of_pages(&self) -> Message
        requires { is_of_pages self.now ≡ true }
        ensures { result ≡ self.now }
    {
        match *self {
            Message::Request {
                control,
                page,
                access,
            } => Message::Request {
                control,
                page,
                access,
            },
            Message::Unlock {
                control,
                page,
                access,
            } => Message::Unlock {
                control,
                page,
                access,
            },
            Message::Completed {
                control,
                page,
                count,
            } => Message::Completed {
                control,
                page,
                count,
            },
            _ => self.copy_from_pager(),
        }
    }

    fn copy_from_pager(&self) -> Message
        requires { is_from_pager self.now ≡ true }
        ensures { result ≡ self.now }
    {
        match *self {
            Message::Unavailable { page } => Message::Unavailable { page },
            Message::Error { page, reason } => Message::Error { page, reason },
            Message::Lock {
                page,
                count,
                returns,
                flush,
                lock,
                reply,
            } => Message::Lock {
                page,
                count,
                returns,
                flush,
                lock,
                reply,
            },
            _ => unreachable!(),
        }
    }
}

// The same page once more.
fn copy_page(page: &PageBytes, buffers: &mut Buffers) -> PageBytes
    requires buffer { 0 < buffers.old.count }
    requires size { length page.now ≡ buffers.old.size }
    ensures same { result ≡ page.now }
    ensures size { buffers.new.size ≡ buffers.old.size }
    ensures count { buffers.old.count ≡ buffers.new.count + 1 }
{
    let mut copy = buffers.take();
    copy.fill(page.as_slice());
    copy
}
