// What a word of a command can be.
ghost use Rattle.std.specs.Prelude.{◌≡◌, ◌^◌, ◌-◌, [], ◌∷◌, IfOk};
ghost use Rattle.vm_base.specs.Pages.{IsAccessSize};
ghost use Rattle.vm_text.specs.Forms.{task_of, page_number, page_size, access_size, lock_in_words, prot_of, inherit_of, range_of};
ghost use Rattle.vm_text.specs.Words.{number_between};

use crate::numbers::{count_below, count_in, number_below, number_in, number_of};
use vm_base::limits::{MOST_PAGE_BYTES, MOST_TASKS};
use vm_base::{Inherit, PageNo, PageSize, Prot, TaskId};
use vm_model::ScriptFault;

/// A task, by its number, which is below 1,024.
pub fn task_of(word: &[u8]) -> Result<TaskId, ScriptFault>
    ensures { result ≡ task_of word.now }
{
    let task = count_below(word, MOST_TASKS)?;
    Ok(TaskId(task))
}

/// A page, by its number, which is `most` at most.
pub fn page_number(word: &[u8], most: u32) -> Result<PageNo, ScriptFault>
    ensures { result ≡ page_number most word.now }
{
    let page = count_in(word, 0, most)?;
    Ok(PageNo(page))
}

/// The number of bytes of a page; `OutOfRange` where it is no power of two from 16 to 4,096.
pub fn page_size(word: &[u8]) -> Result<PageSize, ScriptFault>
    ensures { result ≡ page_size word.now }
{
    let number = number_of(word)?;
    if number > u64::from(MOST_PAGE_BYTES) {
        return Err(ScriptFault::OutOfRange);
    }
    match PageSize::of(number as u32) {
        Some(size) => Ok(size),
        None => Err(ScriptFault::OutOfRange),
    }
}

/// The number of bytes of an access; `OutOfRange` where it isn't 1, 2, 4 or 8.
pub fn access_size(word: &[u8]) -> Result<u32, ScriptFault>
    ensures exact { result ≡ access_size word.now }
    ensures size { IfOk result IsAccessSize }
{
    match number_of(word)? {
        1 => Ok(1),
        2 => Ok(2),
        4 => Ok(4),
        8 => Ok(8),
        _ => Err(ScriptFault::OutOfRange),
    }
}

/// A number that `size` bytes can spell.
pub fn value_of(word: &[u8], size: u32) -> Result<u64, ScriptFault>
    requires { IsAccessSize size }
    ensures { result ≡ number_between 0 (256 ^ size - 1) word.now }
{
    match size {
        1 => number_in(word, 0, 0xff),
        2 => number_in(word, 0, 0xffff),
        4 => number_in(word, 0, 0xffff_ffff),
        _ => number_in(word, 0, u64::MAX),
    }
}

/// The lock of a lock_request: the sum of 1, which prohibits reading, and 2, which prohibits writing,
/// or 8, which leaves the lock as it is.
pub fn lock_of(word: &[u8]) -> Result<u32, ScriptFault>
    ensures { result ≡ lock_in_words word.now }
{
    match number_of(word)? {
        0 => Ok(0),
        1 => Ok(1),
        2 => Ok(2),
        3 => Ok(3),
        8 => Ok(8),
        _ => Err(ScriptFault::OutOfRange),
    }
}

/// A protection: 1 to read, 2 to write, 3 for both.
pub fn prot_of(word: &[u8]) -> Result<Prot, ScriptFault>
    ensures { result ≡ prot_of word.now }
{
    let number = count_in(word, 0, 3)?;
    Ok(Prot {
        read: number % 2 == 1,
        write: number >= 2,
    })
}

/// An inheritance: 0 shares, 1 copies, 2 leaves out.
pub fn inherit_of(word: &[u8]) -> Result<Inherit, ScriptFault>
    ensures { result ≡ inherit_of word.now }
{
    match count_in(word, 0, 2)? {
        0 => Ok(Inherit::Share),
        1 => Ok(Inherit::Copy),
        _ => Ok(Inherit::Never),
    }
}

/// A task, an address and a length in bytes.
pub fn range_of(
    task: &[u8],
    address: &[u8],
    bytes: &[u8],
) -> Result<(TaskId, u64, u64), ScriptFault>
    ensures { result ≡ range_of task.now address.now bytes.now }
{
    let owner = task_of(task)?;
    let start = number_below(address, 0x1_0000_0000)?;
    let size = number_in(bytes, 0, 0x1_0000_0000)?;
    Ok((owner, start, size))
}
