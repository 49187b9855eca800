// What the header lines of a script say.
ghost use Rattle.std.specs.Prelude.{◌≡◌, [], None, nat_lt, length, reverse, IfOk};
ghost use Rattle.vm_text.specs.Forms.{host_in_word, object_of, size_of, hosts_line, frames_line, page_line, slots_line, new_name, object_line, stands_already};
ghost use Rattle.vm_text.specs.Forms.{header_form, IsHeader};
ghost use Rattle.vm_text.specs.Stops.{LeavesValue};
ghost use Rattle.vm_text.specs.Words.{words_of};

use crate::error::LineStop;
use crate::meaning::HeaderWord;
use crate::names::Names;
use crate::numbers::{count_in, number_below};
use crate::terms::page_size;
use crate::words::{one_word, two_words};
use std::alloc::Global;
use std::marker::Model;
use vm_base::limits::{
    LEAST_FRAMES, MOST_FRAMES, MOST_HOSTS, MOST_OBJECTS, MOST_PAGES, MOST_SLOTS,
};
use vm_base::{HostId, NoMemory, ObjectId, ObjectKind, PageSize};
use vm_model::{Counts, Declared, Header, Name, ScriptFault};

// What a header says that doesn't give the page size, or the slots.
const USUAL_SIZE: u32 = 4096;

const USUAL_SLOTS: u32 = 1024;

/// What the header lines have said so far.
#[derive(Drop)]
pub struct Heading<'a> {
    size: Option<PageSize>,
    slots: Option<u32>,
    frames: Vec<u32>,
    names: Names<'a>,
}

impl<'a> Model for Heading<'a> {
    ghost use Rattle.std.specs.Prelude.{◌≤◌, length};
    ghost use Rattle.vm_base.specs.Limits.{most_hosts};
    ghost use Rattle.vm_text.specs.Forms.{Heading};

    ghost Value = { Heading };

    ghost view = { λ h. record { size = h.size; slots = h.slots; frames = h.frames.items; objects = h.names } };

    ghost invariant = { λ h. length h.frames.items ≤ most_hosts };
}

impl<'a> Heading<'a> {
    /// No line was read yet.
    pub fn new(alloc: Global) -> Heading<'a>
        ensures { result ≡ record { size = None; slots = None; frames = []; objects = [] } }
    {
        Heading {
            size: None,
            slots: None,
            frames: Vec::new(alloc),
            names: Names::new(alloc),
        }
    }

    /// A host, by its number; `OutOfRange` where there are fewer hosts.
    pub fn host_of(&self, word: &[u8]) -> Result<HostId, ScriptFault>
        ensures { result ≡ host_in_word self.now word.now }
    {
        let host = number_below(word, self.frames.len() as u64)?;
        Ok(HostId(host as u32))
    }

    /// A declared object, by its name.
    pub fn object_of(&self, word: &[u8]) -> Result<ObjectId, ScriptFault>
        ensures { result ≡ object_of self.now word.now }
    {
        match self.names.find(word) {
            Some(object) => Ok(ObjectId(object)),
            None => Err(ScriptFault::UnknownWord),
        }
    }

    /// The number of bytes of a page, 4,096 where no line gives it.
    pub fn size(&self) -> PageSize
        ensures { result ≡ size_of self.now }
    {
        match self.size {
            Some(size) => size,
            None => PageSize::of(USUAL_SIZE).unwrap(),
        }
    }

    fn hosts_line(&mut self, alloc: Global, line: &[u8]) -> Result<(), LineStop>
        ensures { LeavesValue result self.new (hosts_line self.old (words_of line.now)) }
    {
        let (hosts, frames) = two_words(line)?;
        let hosts = count_in(hosts, 1, MOST_HOSTS)?;
        let frames = count_in(frames, LEAST_FRAMES, MOST_FRAMES)?;
        self.frames = vec![in alloc; frames; hosts as usize]?;
        Ok(())
    }

    fn frames_line(&mut self, line: &[u8]) -> Result<(), LineStop>
        ensures { LeavesValue result self.new (frames_line self.old (words_of line.now)) }
    {
        let (host, frames) = two_words(line)?;
        let host = self.host_of(host)?;
        let frames = count_in(frames, LEAST_FRAMES, MOST_FRAMES)?;
        self.frames[host.0 as usize] = frames;
        Ok(())
    }

    fn page_line(&mut self, line: &[u8]) -> Result<(), LineStop>
        ensures { LeavesValue result self.new (page_line self.old (words_of line.now)) }
    {
        let size = one_word(line)?;
        let size = page_size(size)?;
        self.size = Some(size);
        Ok(())
    }

    fn slots_line(&mut self, line: &[u8]) -> Result<(), LineStop>
        ensures { LeavesValue result self.new (slots_line self.old (words_of line.now)) }
    {
        let slots = one_word(line)?;
        let slots = count_in(slots, 0, MOST_SLOTS)?;
        self.slots = Some(slots);
        Ok(())
    }

    // A name that may be declared next.
    fn new_name(&self, word: &[u8]) -> Result<Name, ScriptFault>
        ensures { result ≡ new_name self.now word.now }
    {
        let Some(name) = Name::new(word) else {
            return Err(ScriptFault::UnknownWord);
        };
        if self.names.find(word).is_some() || self.names.len() >= MOST_OBJECTS {
            return Err(ScriptFault::OutOfRange);
        }
        Ok(name)
    }

    fn object_line(&mut self, kind: ObjectKind, line: &'a [u8]) -> Result<(), LineStop>
        ensures { LeavesValue result self.new (object_line kind self.old (words_of line.now)) }
    {
        let (text, pages) = two_words(line)?;
        let name = self.new_name(text)?;
        let pages = count_in(pages, 1, MOST_PAGES)?;
        self.names.declare(text, Declared { name, kind, pages })?;
        Ok(())
    }

    /// Whether the line with the hosts was read.
    pub fn has_hosts(&self) -> bool
        ensures { result ≡ nat_lt 0 (length self.now.frames) }
    {
        !self.frames.is_empty()
    }

    /// Whether the line stands already, where it may stand once.
    pub fn again(&self, word: HeaderWord) -> bool
        ensures { result ≡ stands_already self.now word }
    {
        match word {
            HeaderWord::Hosts => self.has_hosts(),
            HeaderWord::Page => self.size.is_some(),
            HeaderWord::Slots => self.slots.is_some(),
            _ => false,
        }
    }

    /// Reads the rest of a header line.
    pub fn header_form(
        &mut self,
        alloc: Global,
        word: HeaderWord,
        line: &'a [u8],
    ) -> Result<(), LineStop>
        ensures { LeavesValue result self.new (header_form self.old word (words_of line.now)) }
    {
        match word {
            HeaderWord::Hosts => self.hosts_line(alloc, line),
            HeaderWord::Frames => {
                if !self.has_hosts() {
                    return Err(LineStop::Fault(ScriptFault::NoHosts));
                }
                self.frames_line(line)
            }
            HeaderWord::Page => self.page_line(line),
            HeaderWord::Slots => self.slots_line(line),
            HeaderWord::File => self.object_line(ObjectKind::File, line),
            HeaderWord::Shared => self.object_line(ObjectKind::Shared, line),
            HeaderWord::Wild => self.object_line(ObjectKind::Wild, line),
        }
    }

    /// What the lines said, as a script has it.
    pub fn into_header(self, alloc: Global) -> Result<Header, NoMemory>
        ensures { IfOk result (IsHeader self.entry) }
    {
        let size = self.size();
        let slots = self.slots.unwrap_or(USUAL_SLOTS);
        let frames = counts_of(alloc, &self.frames)?;
        let objects = self.names.into_objects();
        Ok(Header {
            size,
            slots,
            frames,
            objects,
        })
    }
}

fn counts_of(alloc: Global, numbers: &[u32]) -> Result<Counts, NoMemory>
    ensures { IfOk result (λ counts. counts.items ≡ reverse numbers.now) }
{
    let mut counts = Counts::new(alloc);
    for number in numbers {
        counts.push(*number)?;
    }
    Ok(counts)
}
