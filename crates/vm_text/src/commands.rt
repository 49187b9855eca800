// The command that a line says.
ghost use Rattle.std.specs.Prelude.{◌≡◌};
ghost use Rattle.vm_text.specs.Forms.{task_line, fork_line, exit_line, allocate_line, map_line, deallocate_line, protect_line, inherit_line, load_line};
ghost use Rattle.vm_text.specs.Forms.{store_line, copy_line, take_line, settle_line, host_count, pageout_line, clean_line, wire_line, unwire_line, is_files};
ghost use Rattle.vm_text.specs.Forms.{cache_line, fail_line, command_form};
ghost use Rattle.vm_text.specs.Stops.{Gives};
ghost use Rattle.vm_text.specs.Words.{words_of};

use crate::channel::channel_of;
use crate::error::LineStop;
use crate::heading::Heading;
use crate::meaning::CommandWord;
use crate::numbers::{count_in, flag_of, number_below};
use crate::say::say_line;
use crate::terms::{access_size, inherit_of, page_number, prot_of, range_of, task_of, value_of};
use crate::words::{five_words, four_words, one_word, three_words, two_words};
use std::alloc::Global;
use vm_base::HostId;
use vm_base::limits::{MOST_FRAMES, MOST_PAGES};
use vm_model::limits::{MOST_CALLS, MOST_TAKINGS};
use vm_model::{Command, ScriptFault};

const ADDRESSES: u64 = 0x1_0000_0000;

fn task_line(heading: &Heading, line: &[u8]) -> Result<Command, ScriptFault>
    ensures { result ≡ task_line heading.now (words_of line.now) }
{
    let (task, host) = two_words(line)?;
    let task = task_of(task)?;
    let host = heading.host_of(host)?;
    Ok(Command::Task { task, host })
}

fn fork_line(line: &[u8]) -> Result<Command, ScriptFault>
    ensures { result ≡ fork_line (words_of line.now) }
{
    let (task, child) = two_words(line)?;
    let task = task_of(task)?;
    let child = task_of(child)?;
    Ok(Command::Fork { task, child })
}

fn exit_line(line: &[u8]) -> Result<Command, ScriptFault>
    ensures { result ≡ exit_line (words_of line.now) }
{
    let task = one_word(line)?;
    let task = task_of(task)?;
    Ok(Command::Exit { task })
}

fn allocate_line(line: &[u8]) -> Result<Command, ScriptFault>
    ensures { result ≡ allocate_line (words_of line.now) }
{
    let (task, address, bytes) = three_words(line)?;
    let (task, address, bytes) = range_of(task, address, bytes)?;
    Ok(Command::Allocate {
        task,
        address,
        bytes,
    })
}

fn map_line(heading: &Heading, line: &[u8]) -> Result<Command, ScriptFault>
    ensures { result ≡ map_line heading.now (words_of line.now) }
{
    let (task, address, bytes, object, offset) = five_words(line)?;
    let (task, address, bytes) = range_of(task, address, bytes)?;
    let object = heading.object_of(object)?;
    let offset = count_in(offset, 0, MOST_PAGES)?;
    Ok(Command::Map {
        task,
        address,
        bytes,
        object,
        offset,
    })
}

fn deallocate_line(line: &[u8]) -> Result<Command, ScriptFault>
    ensures { result ≡ deallocate_line (words_of line.now) }
{
    let (task, address, bytes) = three_words(line)?;
    let (task, address, bytes) = range_of(task, address, bytes)?;
    Ok(Command::Deallocate {
        task,
        address,
        bytes,
    })
}

fn protect_line(line: &[u8]) -> Result<Command, ScriptFault>
    ensures { result ≡ protect_line (words_of line.now) }
{
    let (task, address, bytes, prot) = four_words(line)?;
    let (task, address, bytes) = range_of(task, address, bytes)?;
    let prot = prot_of(prot)?;
    Ok(Command::Protect {
        task,
        address,
        bytes,
        prot,
    })
}

fn inherit_line(line: &[u8]) -> Result<Command, ScriptFault>
    ensures { result ≡ inherit_line (words_of line.now) }
{
    let (task, address, bytes, inherit) = four_words(line)?;
    let (task, address, bytes) = range_of(task, address, bytes)?;
    let inherit = inherit_of(inherit)?;
    Ok(Command::Inherit {
        task,
        address,
        bytes,
        inherit,
    })
}

fn load_line(line: &[u8]) -> Result<Command, ScriptFault>
    ensures { result ≡ load_line (words_of line.now) }
{
    let (task, address, size) = three_words(line)?;
    let task = task_of(task)?;
    let address = number_below(address, ADDRESSES)?;
    let size = access_size(size)?;
    Ok(Command::Load {
        task,
        address,
        size,
    })
}

fn store_line(line: &[u8]) -> Result<Command, ScriptFault>
    ensures { result ≡ store_line (words_of line.now) }
{
    let (task, address, size, value) = four_words(line)?;
    let task = task_of(task)?;
    let address = number_below(address, ADDRESSES)?;
    let size = access_size(size)?;
    let value = value_of(value, size)?;
    Ok(Command::Store {
        task,
        address,
        size,
        value,
    })
}

fn copy_line(line: &[u8]) -> Result<Command, ScriptFault>
    ensures { result ≡ copy_line (words_of line.now) }
{
    let (task, address, bytes, target, to) = five_words(line)?;
    let (task, address, bytes) = range_of(task, address, bytes)?;
    let target = task_of(target)?;
    let to = number_below(to, ADDRESSES)?;
    Ok(Command::Copy {
        task,
        address,
        bytes,
        target,
        to,
    })
}

fn take_line(heading: &Heading, line: &[u8]) -> Result<Command, ScriptFault>
    ensures { result ≡ take_line heading.now (words_of line.now) }
{
    let channel = one_word(line)?;
    let channel = channel_of(heading, channel)?;
    Ok(Command::Take { channel })
}

fn settle_line(line: &[u8]) -> Result<Command, ScriptFault>
    ensures { result ≡ settle_line (words_of line.now) }
{
    let count = one_word(line)?;
    let count = count_in(count, 0, MOST_TAKINGS)?;
    Ok(Command::Settle { count })
}

// A host and a number of its pages or frames.
fn host_count(heading: &Heading, line: &[u8]) -> Result<(HostId, u32), ScriptFault>
    ensures { result ≡ host_count heading.now (words_of line.now) }
{
    let (host, count) = two_words(line)?;
    let host = heading.host_of(host)?;
    let count = count_in(count, 0, MOST_FRAMES)?;
    Ok((host, count))
}

fn pageout_line(heading: &Heading, line: &[u8]) -> Result<Command, ScriptFault>
    ensures { result ≡ pageout_line heading.now (words_of line.now) }
{
    let (host, count) = host_count(heading, line)?;
    Ok(Command::Pageout { host, count })
}

fn wire_line(heading: &Heading, line: &[u8]) -> Result<Command, ScriptFault>
    ensures { result ≡ wire_line heading.now (words_of line.now) }
{
    let (host, count) = host_count(heading, line)?;
    Ok(Command::Wire { host, count })
}

fn unwire_line(heading: &Heading, line: &[u8]) -> Result<Command, ScriptFault>
    ensures { result ≡ unwire_line heading.now (words_of line.now) }
{
    let (host, count) = host_count(heading, line)?;
    Ok(Command::Unwire { host, count })
}

fn clean_line(heading: &Heading, line: &[u8]) -> Result<Command, ScriptFault>
    ensures { result ≡ clean_line heading.now (words_of line.now) }
{
    let (object, page, count, flush) = four_words(line)?;
    let object = heading.object_of(object)?;
    let page = page_number(page, MOST_PAGES)?;
    let count = count_in(count, 0, MOST_PAGES)?;
    let flush = flag_of(flush)?;
    Ok(Command::Clean {
        object,
        page,
        count,
        flush,
    })
}

fn cache_line(heading: &Heading, line: &[u8]) -> Result<Command, ScriptFault>
    ensures { result ≡ cache_line heading.now (words_of line.now) }
{
    let (object, cache) = two_words(line)?;
    let object = heading.object_of(object)?;
    let cache = flag_of(cache)?;
    Ok(Command::Cache { object, cache })
}

// Whether the backing is that of the files.
fn is_files(word: &[u8]) -> Result<bool, ScriptFault>
    ensures { result ≡ is_files word.now }
{
    if word == b"files".as_slice() {
        return Ok(true);
    }
    if word == b"paging".as_slice() {
        return Ok(false);
    }
    Err(ScriptFault::UnknownWord)
}

fn fail_line(line: &[u8]) -> Result<Command, ScriptFault>
    ensures { result ≡ fail_line (words_of line.now) }
{
    let (backing, count) = two_words(line)?;
    let files = is_files(backing)?;
    let count = count_in(count, 1, MOST_CALLS)?;
    if files {
        Ok(Command::FailFiles { count })
    } else {
        Ok(Command::FailPaging { count })
    }
}

/// Reads the rest of a command line, behind its first word; the fault is the first one of the line.
pub fn command_form(
    alloc: Global,
    heading: &Heading,
    word: CommandWord,
    line: &[u8],
) -> Result<Command, LineStop>
    ensures { Gives result (command_form heading.now word (words_of line.now)) }
{
    let command = match word {
        CommandWord::Task => task_line(heading, line)?,
        CommandWord::Fork => fork_line(line)?,
        CommandWord::Exit => exit_line(line)?,
        CommandWord::Allocate => allocate_line(line)?,
        CommandWord::Map => map_line(heading, line)?,
        CommandWord::Deallocate => deallocate_line(line)?,
        CommandWord::Protect => protect_line(line)?,
        CommandWord::Inherit => inherit_line(line)?,
        CommandWord::Load => load_line(line)?,
        CommandWord::Store => store_line(line)?,
        CommandWord::Copy => copy_line(line)?,
        CommandWord::Take => take_line(heading, line)?,
        CommandWord::Settle => settle_line(line)?,
        CommandWord::Pageout => pageout_line(heading, line)?,
        CommandWord::Clean => clean_line(heading, line)?,
        CommandWord::Cache => cache_line(heading, line)?,
        CommandWord::Wire => wire_line(heading, line)?,
        CommandWord::Unwire => unwire_line(heading, line)?,
        CommandWord::Fail => fail_line(line)?,
        CommandWord::Say => say_line(alloc, heading, line)?,
    };
    Ok(command)
}
