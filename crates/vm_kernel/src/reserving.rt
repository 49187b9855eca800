// Room for a step.
ghost use Rattle.std.specs.Prelude.{◌≡◌, ◌+◌, ◌*◌, ◌<◌, ◌≤◌, ◌^◌, OnOk, length, true, vec_capacity};
ghost use Rattle.vm_frames.specs.Frames.{frame_count};
ghost use Rattle.vm_maps.specs.Maps.{rows_in};
ghost use Rattle.vm_kernel.specs.Rooms.{HasReturns, IsReady, front, full_dues, making, most, of_entries, returning, with_buffers, with_rooms_of};
ghost use Rattle.vm_kernel.specs.Taking.{is_lock_request};
ghost use Rattle.vm_parts.specs.Listed.{listed_pages};

use crate::breadth::Breadth;
use crate::parts::Parts;
use vm_base::{NoMemory, TaskId};
use vm_model::{Command, Message};

// What the other commands tell in front of the accesses that are run, but for pages that go, and what they make.
const OF_FEW: u32 = 5;

// What a reclaim for the frame queue tells last.
const TOLD_LAST: u64 = 2;

impl Parts {
    /// The most events that a step adds on this host. It takes no memory.
    pub fn most(&self, breadth: Breadth) -> u64
        ensures { result ≡ most breadth self.now }
    {
        self.most_behind() + self.front(breadth) + TOLD_LAST
    }

    // The most events that the accesses tell that are run.
    fn most_behind(&self) -> u64
        ensures dues { result ≡ full_dues self.now }
        ensures small { result < 2 ^ 35 }
    {
        let accesses = u64::from(self.waits.count());
        let marks = u64::from(self.chains.marked());
        let copied = if self.waits.copies() == 0 {
            0
        } else {
            u64::from(self.memory.frames.count())
        };
        3 * accesses + marks + 2 * copied + 1
    }

    // The most events that a step tells in front of these.
    fn front(&self, breadth: Breadth) -> u64
        ensures front { result ≡ front breadth self.now }
        ensures small { result < 2 ^ 63 + 2 ^ 34 }
    {
        let frames = u64::from(self.memory.frames.count());
        match breadth {
            Breadth::Few => u64::from(OF_FEW),
            Breadth::Entries(task) => self.of_entries(task),
            Breadth::Frames => 2 * frames + u64::from(OF_FEW),
            Breadth::Pages => self.of_pages(),
            Breadth::Ends(task) => self.of_pages() + u64::from(self.entry_count(task)),
        }
    }

    // What a fork of a task tells and makes at most: it makes a task, and copies each entry.
    fn of_entries(&self, task: TaskId) -> u64
        ensures entries { result ≡ of_entries task.0 self.now }
        ensures small { result ≤ 1025 }
    {
        4 * u64::from(self.entry_count(task)) + 1
    }

    // How many entries a task has; none where it isn't on the host.
    pub fn entry_count(&self, task: TaskId) -> u32
        ensures count { result ≡ length (rows_in task.0 self.now.maps) }
        ensures few { result ≤ 256 }
    {
        if !self.maps.has(task) {
            return 0;
        }
        self.maps.entries(task).len()
    }

    // What goes where each page and each control of the host does.
    fn of_pages(&self) -> u64
        ensures pages { result ≡ 2 * frame_count self.now.memory.frames + length self.now.memory.objects.entries + 1 }
        ensures small { result < 2 ^ 63 + 2 ^ 33 }
    {
        2 * u64::from(self.memory.frames.count()) + self.memory.objects.count() as u64 + 1
    }

    // The most rows that it takes in each table.
    fn made(&self, breadth: Breadth) -> u64
        ensures made { result ≡ making breadth self.now }
        ensures small { result < 2 ^ 34 }
    {
        let frames = u64::from(self.memory.frames.count());
        match breadth {
            Breadth::Few => u64::from(OF_FEW),
            Breadth::Entries(task) => self.of_entries(task),
            Breadth::Frames => 2 * frames + u64::from(OF_FEW),
            Breadth::Pages | Breadth::Ends(_) => 0,
        }
    }

    /// Makes room for a step in the host's tables; it fails for want of memory alone.
    pub fn reserve(&mut self, breadth: Breadth) -> Result<(), NoMemory>
        ensures is { self.new ≡ with_rooms_of self.new self.old }
        ensures ready { OnOk result (IsReady breadth self.new) }
    {
        let made = self.made(breadth);
        let Ok(shadows) = u32::try_from(u64::from(self.chains.marked()) + made) else {
            return Err(NoMemory);
        };
        let Ok(pages) = u32::try_from(self.most_behind() + made) else {
            return Err(NoMemory);
        };
        self.memory.resident.reserve(pages)?;
        // What an earlier step was promised for merges isn't wanted any more.
        self.memory.resident.keep(pages);
        self.memory.objects.reserve(shadows, 1)?;
        self.chains.reserve(shadows)?;
        self.copies.reserve(shadows)?;
        self.waits.reserve(1)?;
        self.reserve_buffers(self.returning())
    }

    /// Makes room for the returns that a command makes in front of the accesses that are run, and for one
    /// more; it fails for want of memory alone.
    pub fn reserve_for(&mut self, command: &Command) -> Result<(), NoMemory>
        ensures is { self.new ≡ with_buffers self.new.memory.buffers.count self.old }
        ensures kept { self.old.memory.buffers.count ≤ self.new.memory.buffers.count }
        ensures enough { OnOk result (HasReturns command.now self.new) }
    {
        match command {
            Command::Pageout { count, .. } => {
                let here = self.memory.queues.count();
                self.reserve_buffers(here.min(*count as usize))
            }
            _ => Ok(()),
        }
    }

    /// The same for what a pager says.
    pub fn reserve_for_word(&mut self, message: &Message) -> Result<(), NoMemory>
        ensures is { self.new ≡ with_buffers self.new.memory.buffers.count self.old }
        ensures kept { self.old.memory.buffers.count ≤ self.new.memory.buffers.count }
        ensures enough { OnOk result (is_lock_request message.now ≡ true → listed_pages self.new.memory.queues + 1 ≤ self.new.memory.buffers.count) }
    {
        match message {
            Message::Lock { .. } => {
                let here = self.memory.queues.count();
                self.reserve_buffers(here)
            }
            _ => Ok(()),
        }
    }

    // Makes room for so many buffers and one more.
    fn reserve_buffers(&mut self, count: usize) -> Result<(), NoMemory>
        ensures is { self.new ≡ with_buffers self.new.memory.buffers.count self.old }
        ensures kept { self.old.memory.buffers.count ≤ self.new.memory.buffers.count }
        ensures enough { OnOk result (count + 1 ≤ self.new.memory.buffers.count) }
    {
        let Ok(count) = u32::try_from(count) else {
            return Err(NoMemory);
        };
        let Some(count) = count.checked_add(1) else {
            return Err(NoMemory);
        };
        self.memory.buffers.reserve(count)
    }

    // How many pages an end may send back: none where no object is declared.
    fn returning(&self) -> usize
        ensures { result ≡ returning self.now }
    {
        if self.declared.len() == 0 {
            return 0;
        }
        self.memory.queues.count()
    }
}
