// The message that a line says.
ghost use Rattle.std.specs.Prelude.{◌≡◌};
ghost use Rattle.vm_text.specs.Forms.{receiver_of, ready_said, supply_said, unavailable_said, error_said, lock_said, attributes_said, destroy_said};
ghost use Rattle.vm_text.specs.Forms.{message_form, nothing_said, say_line};
ghost use Rattle.vm_text.specs.Stops.{Gives};
ghost use Rattle.vm_text.specs.Words.{words_of};

use crate::error::LineStop;
use crate::heading::Heading;
use crate::hex::page_of;
use crate::lookup::message_word;
use crate::meaning::MessageWord;
use crate::numbers::{count_in, flag_of, number_below};
use crate::terms::{lock_of, page_number};
use crate::words::{four_words, one_word, six_words, three_words, two_words, word_at};
use std::alloc::Global;
use vm_base::limits::MOST_PAGES;
use vm_base::{HostId, ObjectId};
use vm_model::{Command, Message, ScriptFault};

const LAST_PAGE: u32 = MOST_PAGES - 1;

// The host and the object that a message goes to.
fn receiver_of(
    heading: &Heading,
    host: &[u8],
    name: &[u8],
) -> Result<(HostId, ObjectId), ScriptFault>
    ensures { result ≡ receiver_of heading.now host.now name.now }
{
    let host = heading.host_of(host)?;
    let object = heading.object_of(name)?;
    Ok((host, object))
}

fn ready_said(
    heading: &Heading,
    host: &[u8],
    name: &[u8],
    line: &[u8],
) -> Result<Command, ScriptFault>
    ensures { result ≡ ready_said heading.now host.now name.now (words_of line.now) }
{
    let (cache, strategy) = two_words(line)?;
    let (host, object) = receiver_of(heading, host, name)?;
    let cache = flag_of(cache)?;
    let strategy = count_in(strategy, 0, 3)?;
    let message = Message::Ready { cache, strategy };
    Ok(Command::Say {
        host,
        object,
        message,
    })
}

fn supply_said(
    alloc: Global,
    heading: &Heading,
    host: &[u8],
    name: &[u8],
    line: &[u8],
) -> Result<Command, LineStop>
    ensures { Gives result (supply_said heading.now host.now name.now (words_of line.now)) }
{
    let (page, lock, precious, hex) = four_words(line)?;
    let (host, object) = receiver_of(heading, host, name)?;
    let page = page_number(page, LAST_PAGE)?;
    let lock = count_in(lock, 0, 3)?;
    let precious = flag_of(precious)?;
    let hex = page_of(alloc, heading.size(), hex)?;
    let message = Message::Supply {
        page,
        lock,
        precious,
        hex,
    };
    Ok(Command::Say {
        host,
        object,
        message,
    })
}

fn unavailable_said(
    heading: &Heading,
    host: &[u8],
    name: &[u8],
    line: &[u8],
) -> Result<Command, ScriptFault>
    ensures { result ≡ unavailable_said heading.now host.now name.now (words_of line.now) }
{
    let page = one_word(line)?;
    let (host, object) = receiver_of(heading, host, name)?;
    let page = page_number(page, LAST_PAGE)?;
    let message = Message::Unavailable { page };
    Ok(Command::Say {
        host,
        object,
        message,
    })
}

fn error_said(
    heading: &Heading,
    host: &[u8],
    name: &[u8],
    line: &[u8],
) -> Result<Command, ScriptFault>
    ensures { result ≡ error_said heading.now host.now name.now (words_of line.now) }
{
    let (page, reason) = two_words(line)?;
    let (host, object) = receiver_of(heading, host, name)?;
    let page = page_number(page, LAST_PAGE)?;
    let reason = number_below(reason, 0x1_0000_0000)?;
    let message = Message::Error {
        page,
        reason: reason as u32,
    };
    Ok(Command::Say {
        host,
        object,
        message,
    })
}

fn lock_said(
    heading: &Heading,
    host: &[u8],
    name: &[u8],
    line: &[u8],
) -> Result<Command, ScriptFault>
    ensures { result ≡ lock_said heading.now host.now name.now (words_of line.now) }
{
    let (page, count, returns, flush, lock, reply) = six_words(line)?;
    let (host, object) = receiver_of(heading, host, name)?;
    let page = page_number(page, LAST_PAGE)?;
    let count = count_in(count, 0, MOST_PAGES)?;
    let returns = count_in(returns, 0, 2)?;
    let flush = flag_of(flush)?;
    let lock = lock_of(lock)?;
    let reply = flag_of(reply)?;
    let message = Message::Lock {
        page,
        count,
        returns,
        flush,
        lock,
        reply,
    };
    Ok(Command::Say {
        host,
        object,
        message,
    })
}

fn attributes_said(
    heading: &Heading,
    host: &[u8],
    name: &[u8],
    line: &[u8],
) -> Result<Command, ScriptFault>
    ensures { result ≡ attributes_said heading.now host.now name.now (words_of line.now) }
{
    let (cache, strategy, reply) = three_words(line)?;
    let (host, object) = receiver_of(heading, host, name)?;
    let cache = flag_of(cache)?;
    let strategy = count_in(strategy, 0, 3)?;
    let reply = flag_of(reply)?;
    let message = Message::Attributes {
        cache,
        strategy,
        reply,
    };
    Ok(Command::Say {
        host,
        object,
        message,
    })
}

fn destroy_said(
    heading: &Heading,
    host: &[u8],
    name: &[u8],
    line: &[u8],
) -> Result<Command, ScriptFault>
    ensures { result ≡ destroy_said heading.now host.now name.now (words_of line.now) }
{
    let reason = one_word(line)?;
    let (host, object) = receiver_of(heading, host, name)?;
    let reason = number_below(reason, 0x1_0000_0000)?;
    let message = Message::Destroy {
        reason: reason as u32,
    };
    Ok(Command::Say {
        host,
        object,
        message,
    })
}

fn nothing_said(heading: &Heading, host: &[u8], name: &[u8]) -> Result<Command, ScriptFault>
    ensures { result ≡ nothing_said heading.now host.now name.now }
{
    receiver_of(heading, host, name)?;
    Err(ScriptFault::UnknownWord)
}

fn message_form(
    alloc: Global,
    heading: &Heading,
    word: MessageWord,
    host: &[u8],
    name: &[u8],
    line: &[u8],
) -> Result<Command, LineStop>
    ensures { Gives result (message_form heading.now word host.now name.now (words_of line.now)) }
{
    match word {
        MessageWord::Ready => Ok(ready_said(heading, host, name, line)?),
        MessageWord::Supply => supply_said(alloc, heading, host, name, line),
        MessageWord::Unavailable => Ok(unavailable_said(heading, host, name, line)?),
        MessageWord::Error => Ok(error_said(heading, host, name, line)?),
        MessageWord::Lock => Ok(lock_said(heading, host, name, line)?),
        MessageWord::Attributes => Ok(attributes_said(heading, host, name, line)?),
        MessageWord::Destroy => Ok(destroy_said(heading, host, name, line)?),
    }
}

/// A line that says a message to a host's control of an object.
pub fn say_line(alloc: Global, heading: &Heading, line: &[u8]) -> Result<Command, LineStop>
    ensures { Gives result (say_line heading.now (words_of line.now)) }
{
    let Some((host, rest)) = word_at(line) else {
        return Err(LineStop::Fault(ScriptFault::WrongCount));
    };
    let Some((name, rest)) = word_at(rest) else {
        return Err(LineStop::Fault(ScriptFault::WrongCount));
    };
    let Some((word, rest)) = word_at(rest) else {
        return Err(LineStop::Fault(ScriptFault::WrongCount));
    };
    match message_word(word) {
        Some(meaning) => message_form(alloc, heading, meaning, host, name, rest),
        None => Ok(nothing_said(heading, host, name)?),
    }
}
