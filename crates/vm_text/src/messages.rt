// Messages as words of a line.
#![tactic(auto, unfolding(vm_model::specs::Text::message_text))]

ghost use Rattle.std.specs.Prelude.{◌≡◌, ◌++◌, true, OnOk};
ghost use Rattle.vm_model.specs.Copies.{is_of_pages};
ghost use Rattle.vm_model.specs.Text.{message_text as text_of_message};

use crate::Line;
use crate::fields::flag;
use vm_base::{NoMemory, PageBytes, PageNo};
use vm_model::Message;

/// Puts the message's word and fields.
#[tactic(auto)]
pub(crate) fn put_message(line: &mut Line, message: &Message) -> Result<(), NoMemory>
    ensures { OnOk result (line.new ≡ line.old ++ text_of_message message.now) }
{
    match message {
        Message::Init { control, size } => init(line, *control, *size),
        Message::Create { control, size } => create(line, *control, *size),
        Message::Return {
            control,
            page,
            dirty,
            keep,
            hex,
        } => page_return(line, *control, *page, *dirty, *keep, hex),
        Message::Terminate { control } => terminate(line, *control),
        Message::Ready { cache, strategy } => ready(line, *cache, *strategy),
        Message::Supply {
            page,
            lock,
            precious,
            hex,
        } => supply(line, *page, *lock, *precious, hex),
        Message::Attributes {
            cache,
            strategy,
            reply,
        } => attributes(line, *cache, *strategy, *reply),
        Message::Destroy { reason } => destroy(line, *reason),
        Message::Changed {
            control,
            cache,
            strategy,
        } => changed(line, *control, *cache, *strategy),
        _ => put_of_pages(line, message),
    }
}

// What is said of pages without their bytes.
#[tactic(auto)]
fn put_of_pages(line: &mut Line, message: &Message) -> Result<(), NoMemory>
    requires { is_of_pages message.now ≡ true }
    ensures { OnOk result (line.new ≡ line.old ++ text_of_message message.now) }
{
    match message {
        Message::Request {
            control,
            page,
            access,
        } => request(line, *control, *page, *access),
        Message::Unlock {
            control,
            page,
            access,
        } => unlock(line, *control, *page, *access),
        Message::Completed {
            control,
            page,
            count,
        } => completed(line, *control, *page, *count),
        Message::Unavailable { page } => unavailable(line, *page),
        Message::Error { page, reason } => error(line, *page, *reason),
        Message::Lock {
            page,
            count,
            returns,
            flush,
            lock,
            reply,
        } => lock_request(line, *page, *count, *returns, *flush, *lock, *reply),
        _ => unreachable!(),
    }
}

fn init(line: &mut Line, control: u32, size: u32) -> Result<(), NoMemory>
    ensures { OnOk result (line.new ≡ line.old ++ text_of_message (Message.Init control size)) }
{
    line.put_text(b"init", &[u64::from(control), u64::from(size)])
}

fn create(line: &mut Line, control: u32, size: u32) -> Result<(), NoMemory>
    ensures { OnOk result (line.new ≡ line.old ++ text_of_message (Message.Create control size)) }
{
    line.put_text(b"create", &[u64::from(control), u64::from(size)])
}

fn request(line: &mut Line, control: u32, page: PageNo, access: u32) -> Result<(), NoMemory>
    ensures { OnOk result (line.new ≡ line.old ++ text_of_message (Message.Request control page access)) }
{
    line.put_text(
        b"request",
        &[u64::from(control), u64::from(page.0), u64::from(access)],
    )
}

fn unlock(line: &mut Line, control: u32, page: PageNo, access: u32) -> Result<(), NoMemory>
    ensures { OnOk result (line.new ≡ line.old ++ text_of_message (Message.Unlock control page access)) }
{
    line.put_text(
        b"unlock",
        &[u64::from(control), u64::from(page.0), u64::from(access)],
    )
}

fn page_return(
    line: &mut Line,
    control: u32,
    page: PageNo,
    dirty: bool,
    keep: bool,
    hex: &PageBytes,
) -> Result<(), NoMemory>
    ensures { OnOk result (line.new ≡ line.old ++ text_of_message (Message.Return control page dirty keep hex.now)) }
{
    line.put_text(
        b"return",
        &[
            u64::from(control),
            u64::from(page.0),
            flag(dirty),
            flag(keep),
        ],
    )?;
    line.put_page(hex.as_slice())
}

fn completed(line: &mut Line, control: u32, page: PageNo, count: u32) -> Result<(), NoMemory>
    ensures { OnOk result (line.new ≡ line.old ++ text_of_message (Message.Completed control page count)) }
{
    line.put_text(
        b"completed",
        &[u64::from(control), u64::from(page.0), u64::from(count)],
    )
}

fn terminate(line: &mut Line, control: u32) -> Result<(), NoMemory>
    ensures { OnOk result (line.new ≡ line.old ++ text_of_message (Message.Terminate control)) }
{
    line.put_text(b"terminate", &[u64::from(control)])
}

fn ready(line: &mut Line, cache: bool, strategy: u32) -> Result<(), NoMemory>
    ensures { OnOk result (line.new ≡ line.old ++ text_of_message (Message.Ready cache strategy)) }
{
    line.put_text(b"ready", &[flag(cache), u64::from(strategy)])
}

fn supply(
    line: &mut Line,
    page: PageNo,
    lock: u32,
    precious: bool,
    hex: &PageBytes,
) -> Result<(), NoMemory>
    ensures { OnOk result (line.new ≡ line.old ++ text_of_message (Message.Supply page lock precious hex.now)) }
{
    line.put_text(
        b"supply",
        &[u64::from(page.0), u64::from(lock), flag(precious)],
    )?;
    line.put_page(hex.as_slice())
}

fn unavailable(line: &mut Line, page: PageNo) -> Result<(), NoMemory>
    ensures { OnOk result (line.new ≡ line.old ++ text_of_message (Message.Unavailable page)) }
{
    line.put_text(b"unavailable", &[u64::from(page.0)])
}

fn error(line: &mut Line, page: PageNo, reason: u32) -> Result<(), NoMemory>
    ensures { OnOk result (line.new ≡ line.old ++ text_of_message (Message.Error page reason)) }
{
    line.put_text(b"error", &[u64::from(page.0), u64::from(reason)])
}

fn lock_request(
    line: &mut Line,
    page: PageNo,
    count: u32,
    returns: u32,
    flush: bool,
    lock: u32,
    reply: bool,
) -> Result<(), NoMemory>
    ensures { OnOk result (line.new ≡ line.old ++ text_of_message (Message.Lock page count returns flush lock reply)) }
{
    line.put_text(
        b"lock",
        &[
            u64::from(page.0),
            u64::from(count),
            u64::from(returns),
            flag(flush),
            u64::from(lock),
            flag(reply),
        ],
    )
}

fn attributes(line: &mut Line, cache: bool, strategy: u32, reply: bool) -> Result<(), NoMemory>
    ensures { OnOk result (line.new ≡ line.old ++ text_of_message (Message.Attributes cache strategy reply)) }
{
    line.put_text(
        b"attributes",
        &[flag(cache), u64::from(strategy), flag(reply)],
    )
}

fn destroy(line: &mut Line, reason: u32) -> Result<(), NoMemory>
    ensures { OnOk result (line.new ≡ line.old ++ text_of_message (Message.Destroy reason)) }
{
    line.put_text(b"destroy", &[u64::from(reason)])
}

fn changed(line: &mut Line, control: u32, cache: bool, strategy: u32) -> Result<(), NoMemory>
    ensures { OnOk result (line.new ≡ line.old ++ text_of_message (Message.Changed control cache strategy)) }
{
    line.put_text(
        b"changed",
        &[u64::from(control), flag(cache), u64::from(strategy)],
    )
}
