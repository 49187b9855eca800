// A line of text, and the fields that are put behind it.
ghost use Rattle.std.specs.Prelude.{◌≡◌, ◌+◌, ◌≤◌, ◌++◌, [], length, take, codes, OnOk, IfOk};
ghost use Rattle.std.specs.List.{flat_map};
ghost use Rattle.vm_base.specs.Pages.{little_endian_bytes};
ghost use Rattle.vm_model.specs.Text.{flag as flag_of, prot_number as prot_of, inherit_number as inherit_of, byte_hex as hex_of};
ghost use Rattle.vm_model.specs.Text.{channel_text as text_of_channel, page_field, newline};
ghost use Rattle.vm_text.specs.Fields.{with_fields};

use crate::room::{
    CHANNEL_BYTES, FIELD_BYTES, put_byte, put_channel, put_hex, put_little_endian, put_text,
    put_word,
};
use crate::zeros::trimmed_len;
use std::alloc::Global;
use std::marker::Model;
use vm_base::{Inherit, NoMemory, Prot};
use vm_model::Channel;

// Room grows by so many bytes.
const BLOCK_BYTES: usize = 256;

static ZEROS: [u8; BLOCK_BYTES] = [0; BLOCK_BYTES];

/// Text that lines are put into, which contracts see as its bytes.
#[derive(Drop)]
pub struct Line {
    // (the text, and room for more behind its end)
    bytes: Vec<u8>,
    end: usize,
}

impl Model for Line {
    ghost use Rattle.std.specs.Prelude.{ℕ, List, take, length, ◌≤◌};

    ghost Value = { List ℕ };

    ghost view = { λ l. take l.end l.bytes.items };

    ghost invariant = { λ l. l.end ≤ length l.bytes.items };
}

impl Line {
    /// The bytes, with the line end where the line has one.
    pub fn as_slice(&self) -> &[u8]
        ensures { result.now ≡ self.now }
    {
        &self.bytes[..self.end]
    }

    /// No text yet, and room for so many bytes. It fails for want of memory alone, and so does each call
    /// that puts something.
    pub fn with_room(alloc: Global, bytes: usize) -> Result<Line, NoMemory>
        ensures { IfOk result (λ line. line ≡ []) }
    {
        Ok(Line {
            bytes: Vec::with_capacity(alloc, bytes.saturating_add(BLOCK_BYTES))?,
            end: 0,
        })
    }

    /// The word as it is, without a space in front.
    #[inline(always)]
    pub(crate) fn put_word(&mut self, word: &[u8]) -> Result<(), NoMemory>
        ensures { OnOk result (self.new ≡ self.old ++ word.now) }
    {
        make_room(&mut self.bytes, self.end, word.len())?;
        self.end = put_word(&mut self.bytes, self.end, word);
        Ok(())
    }

    /// The lowest bytes of a number, the lowest first.
    pub(crate) fn put_little_endian(&mut self, size: u32, number: u64) -> Result<(), NoMemory>
        ensures { OnOk result (self.new ≡ self.old ++ flat_map hex_of (little_endian_bytes size number)) }
    {
        make_room(&mut self.bytes, self.end, 2 * size as usize)?;
        self.end = put_little_endian(&mut self.bytes, self.end, size, number);
        Ok(())
    }

    /// A space, and the bytes of a page, each in two hexadecimal digits, without the zeros at its end; a
    /// dash where all bytes are zeros.
    pub(crate) fn put_page(&mut self, bytes: &[u8]) -> Result<(), NoMemory>
        ensures { OnOk result (self.new ≡ self.old ++ page_field bytes.now) }
    {
        let end = trimmed_len(bytes);
        if end == 0 {
            return self.put_word(b" -");
        }
        make_room(&mut self.bytes, self.end, 2 * end + 1)?;
        let start = put_byte(&mut self.bytes, self.end, b' ');
        self.end = put_hex(&mut self.bytes, start, &bytes[..end]);
        Ok(())
    }

    /// A word, without a space in front, and a field for each number.
    #[inline(always)]
    #[tactic(auto, using(crate::proofs::Behind::behind_front))]
    pub(crate) fn put_text(&mut self, word: &[u8], numbers: &[u64]) -> Result<(), NoMemory>
        requires short { length word.now ≤ 16 }
        requires few { length numbers.now ≤ 7 }
        ensures { OnOk result (self.new ≡ self.old ++ with_fields word.now numbers.now) }
    {
        make_room(
            &mut self.bytes,
            self.end,
            word.len() + FIELD_BYTES * numbers.len(),
        )?;
        self.end = put_text(&mut self.bytes, self.end, word, numbers);
        Ok(())
    }

    /// The same with the line end behind it.
    #[inline(always)]
    pub(crate) fn put_line(&mut self, word: &[u8], numbers: &[u64]) -> Result<(), NoMemory>
        requires short { length word.now ≤ 16 }
        requires few { length numbers.now ≤ 7 }
        ensures { OnOk result (self.new ≡ self.old ++ (with_fields word.now numbers.now ++ newline)) }
    {
        make_room(
            &mut self.bytes,
            self.end,
            word.len() + FIELD_BYTES * numbers.len() + 1,
        )?;
        let end = put_text(&mut self.bytes, self.end, word, numbers);
        self.end = put_byte(&mut self.bytes, end, b'\n');
        Ok(())
    }

    /// The word, the channel as a word, and a space.
    #[inline(always)]
    pub(crate) fn put_channel(&mut self, word: &[u8], channel: Channel) -> Result<(), NoMemory>
        requires { length word.now ≤ 16 }
        ensures { OnOk result (self.new ≡ self.old ++ (word.now ++ text_of_channel channel ++ codes " ")) }
    {
        make_room(&mut self.bytes, self.end, word.len() + CHANNEL_BYTES + 1)?;
        let end = put_word(&mut self.bytes, self.end, word);
        let end = put_channel(&mut self.bytes, end, channel);
        self.end = put_byte(&mut self.bytes, end, b' ');
        Ok(())
    }

    /// The line end, one line feed.
    #[inline(always)]
    pub(crate) fn end(&mut self) -> Result<(), NoMemory>
        ensures { OnOk result (self.new ≡ self.old ++ newline) }
    {
        self.put_word(b"\n")
    }
}

// Makes room for so many bytes behind an index.
#[inline(always)]
fn make_room(bytes: &mut Vec<u8>, end: usize, count: usize) -> Result<(), NoMemory>
    requires { end ≤ length bytes.old.items }
    ensures kept { take end bytes.new.items ≡ take end bytes.old.items }
    ensures within { end ≤ length bytes.new.items }
    ensures room { OnOk result (end + count ≤ length bytes.new.items) }
{
    if count <= bytes.len() - end {
        return Ok(());
    }
    lengthen(bytes, end, count)
}

// The same, a block of zeros at a time.
#[inline(never)]
fn lengthen(bytes: &mut Vec<u8>, end: usize, count: usize) -> Result<(), NoMemory>
    requires { end ≤ length bytes.old.items }
    ensures kept { take end bytes.new.items ≡ take end bytes.old.items }
    ensures within { end ≤ length bytes.new.items }
    ensures room { OnOk result (end + count ≤ length bytes.new.items) }
{
    'blocks: while count > bytes.len() - end {
        bytes.extend_from_slice(&ZEROS)?;
    }
    Ok(())
}

/// 1 for yes, 0 for no.
pub(crate) fn flag(set: bool) -> u64
    ensures { result ≡ flag_of set }
{
    u64::from(set)
}

/// 1 to read and 2 to write, added.
pub(crate) fn prot_number(prot: Prot) -> u64
    ensures { result ≡ prot_of prot }
{
    let write = if prot.write { 2 } else { 0 };
    flag(prot.read) + write
}

/// 0 shares, 1 copies, 2 gives nothing.
pub(crate) fn inherit_number(inherit: Inherit) -> u64
    ensures { result ≡ inherit_of inherit }
{
    match inherit {
        Inherit::Share => 0,
        Inherit::Copy => 1,
        Inherit::Never => 2,
    }
}
