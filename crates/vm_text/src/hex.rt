// The bytes of a page, spelled in hexadecimal.
ghost use Rattle.std.specs.Prelude.{◌≡◌, ◌+◌, ◌*◌, ◌≤◌, ◌<◌, false, length, IsTrue, MatchOption};
ghost use Rattle.vm_text.specs.Stops.{Gives};
ghost use Rattle.vm_text.specs.Words.{is_hex, hex_value, are_pairs, pair_bytes, page_with, SpellsBytes, page_bytes_of};

use crate::error::LineStop;
use std::alloc::Global;
use vm_base::limits::MOST_PAGE_BYTES;
use vm_base::{PageBytes, PageSize};
use vm_model::ScriptFault;

const MOST_BYTES: usize = MOST_PAGE_BYTES as usize;

fn is_hex(byte: u8) -> bool
    ensures { result ≡ is_hex byte }
{
    (byte >= b'0' && byte <= b'9') || (byte >= b'a' && byte <= b'f')
}

fn hex_value(byte: u8) -> u8
    requires { IsTrue (is_hex byte) }
    ensures value { result ≡ hex_value byte }
    ensures small { result < 16 }
{
    if byte >= b'0' && byte <= b'9' {
        byte - b'0'
    } else {
        byte - b'a' + 10
    }
}

fn pair_value(high: u8, low: u8) -> u8
    requires high { IsTrue (is_hex high) }
    requires low { IsTrue (is_hex low) }
    ensures { result ≡ 16 * hex_value high + hex_value low }
{
    16 * hex_value(high) + hex_value(low)
}

fn are_pairs(word: &[u8]) -> bool
    ensures { result ≡ are_pairs word.now }
{
    let mut rest = word;
    while let [high, low, more @ ..] = rest {
        if !is_hex(*high) || !is_hex(*low) {
            return false;
        }
        rest = more;
    }
    rest.is_empty()
}

// Puts the bytes of all the pairs.
fn put_pairs(word: &[u8], bytes: &mut [u8])
    requires pairs { IsTrue (are_pairs word.now) }
    requires fits { length word.now ≡ 2 * length bytes.old }
    ensures { bytes.new ≡ pair_bytes word.now }
{
    let mut rest = word;
    for byte in bytes.iter_mut() {
        if let [high, low, more @ ..] = rest {
            *byte = pair_value(*high, *low);
            rest = more;
        }
    }
}

// The number of bytes that the word spells, if it is pairs.
fn pair_count(word: &[u8]) -> Option<usize>
    ensures { MatchOption result (are_pairs word.now ≡ false) (λ count. SpellsBytes word.now count) }
{
    if are_pairs(word) {
        Some(word.len() / 2)
    } else {
        None
    }
}

// Begins the page with so many bytes of the pairs, by way of a buffer; the rest is zeros.
fn fill_page(page: &mut PageBytes, word: &[u8], count: usize, buffer: &mut [u8])
    requires spells { SpellsBytes word.now count }
    requires fits { count ≤ length page.old }
    requires room { count ≤ length buffer.old }
    ensures { page.new ≡ page_with (length page.old) (pair_bytes word.now) }
{
    let (front, _) = buffer.split_at_mut(count);
    put_pairs(word, front);
    page.fill(front);
}

/// A page that begins with the bytes of the word and goes on with zeros.
pub fn page_of(alloc: Global, size: PageSize, word: &[u8]) -> Result<PageBytes, LineStop>
    ensures { Gives result (page_bytes_of size word.now) }
{
    if word == b"-".as_slice() {
        return Ok(PageBytes::zero(alloc, size)?);
    }
    let Some(count) = pair_count(word) else {
        return Err(LineStop::Fault(ScriptFault::BadNumber));
    };
    if count > size.bytes() as usize {
        return Err(LineStop::Fault(ScriptFault::OutOfRange));
    }
    let mut page = PageBytes::zero(alloc, size)?;
    let mut buffer = [0u8; MOST_BYTES];
    fill_page(&mut page, word, count, &mut buffer);
    Ok(page)
}
