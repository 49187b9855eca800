// Pages come, are asked for, and are written.
ghost use Rattle.std.specs.Prelude.{◌≡◌, ◌+◌, ◌≤◌, ◌<◌, ◌^◌, [], false, true, None, IfOk, IfSome, IsOk, IsSomeAnd, OnErr, OnOk, length};
ghost use Rattle.vm_base.specs.Pages.{IsAccessSize, little_endian_bytes, with_bytes};
ghost use Rattle.vm_frames.specs.Frames.{free, page_in};
ghost use Rattle.vm_resident.specs.Resident.{row_at};
ghost use Rattle.vm_parts.specs.Changes.{AsksPage, Brings, FillsPage, Writes, asked_row, filled};
ghost use Rattle.vm_parts.specs.Fits.{Fit, IsStart, object_pages};

use crate::HostParts;
use std::alloc::Global;
use vm_base::{Buffers, FrameNo, Lock, NoMemory, PageKey, PageSize};
use vm_frames::Frames;
use vm_objects::Objects;
use vm_queues::PageQueues;
use vm_resident::{PageRow, Resident};

pub const UNLOCKED: Lock = Lock {
    read: false,
    write: false,
};

impl HostParts {
    /// So many frames, and no page or object; it fails for want of memory alone.
    pub fn new(alloc: Global, frames: u32, size: PageSize) -> Result<HostParts, NoMemory>
        ensures { IfOk result (λ parts. IsStart frames size parts) }
    {
        let count = frames;
        let frames = Frames::new(alloc, count, size)?;
        let queues = PageQueues::new(alloc, count)?;
        Ok(HostParts {
            frames,
            resident: Resident::new(alloc),
            queues,
            objects: Objects::new(alloc),
            buffers: Buffers::new(alloc, size),
        })
    }

    /// Makes room for the rows of so many pages; it fails for want of memory alone.
    pub fn reserve(&mut self, pages: u32) -> Result<(), NoMemory>
        requires fit { Fit self.old }
        ensures fit { Fit self.new }
        ensures is { self.new ≡ record self.old { resident = self.new.resident } }
        ensures rows { self.new.resident.rows ≡ self.old.resident.rows }
        ensures room { OnOk result (pages ≤ self.new.resident.spare) }
        ensures kept { self.old.resident.spare ≤ self.new.resident.spare }
        ensures succeeds { pages ≤ self.old.resident.spare → IsOk result }
        ensures err { OnErr result (self.new ≡ self.old) }
    {
        self.resident.reserve(pages)
    }

    /// The row of a page that is asked: it holds a frame, and isn't here.
    pub fn asked(&self, key: PageKey) -> Option<PageRow>
        ensures { result ≡ asked_row (row_at self.now.resident key.object.0 key.page.0) }
    {
        let row = self.resident.get(key)?;
        if row.here {
            return None;
        }
        Some(row)
    }

    /// Notes that a page is asked, which isn't here, and claims a frame for it.
    pub fn ask(&mut self, key: PageKey) -> FrameNo
        requires fit { Fit self.old }
        requires absent { row_at self.old.resident key.object.0 key.page.0 ≡ None }
        requires inside { key.page.0 < object_pages self.old.objects key.object.0 }
        requires free { 0 < free self.old.frames }
        requires room { 0 < self.old.resident.spare }
        ensures fit { Fit self.new }
        ensures asks { AsksPage key result self.old self.new }
        ensures objects { self.new.objects ≡ self.old.objects }
        ensures buffers { self.new.buffers ≡ self.old.buffers }
        ensures room { self.old.resident.spare ≡ self.new.resident.spare + 1 }
    {
        let Some(frame) = self.frames.claim() else {
            unreachable!()
        };
        let row = PageRow {
            frame,
            lock: UNLOCKED,
            dirty: false,
            precious: false,
            here: false,
            unlock_sent: false,
        };
        self.resident.insert(key, row);
        frame
    }

    /// Puts a page that isn't here into a free frame, as zeros.
    pub fn bring(&mut self, key: PageKey) -> FrameNo
        requires fit { Fit self.old }
        requires absent { row_at self.old.resident key.object.0 key.page.0 ≡ None }
        requires inside { key.page.0 < object_pages self.old.objects key.object.0 }
        requires free { 0 < free self.old.frames }
        requires room { 0 < self.old.resident.spare }
        ensures fit { Fit self.new }
        ensures brings { Brings key result self.old self.new }
        ensures objects { self.new.objects ≡ self.old.objects }
        ensures buffers { self.new.buffers ≡ self.old.buffers }
        ensures room { self.old.resident.spare ≡ self.new.resident.spare + 1 }
    {
        let Some(frame) = self.frames.claim() else {
            unreachable!()
        };
        self.frames.bytes_mut(frame).fill(&[]);
        let row = PageRow {
            frame,
            lock: UNLOCKED,
            dirty: false,
            precious: false,
            here: true,
            unlock_sent: false,
        };
        self.resident.insert(key, row);
        self.queues.add(frame);
        frame
    }

    /// An asked page comes into the frame that it holds: these bytes, and zeros behind them.
    pub fn fill(&mut self, key: PageKey, lock: Lock, precious: bool, bytes: &[u8])
        requires fit { Fit self.old }
        requires asked { IsSomeAnd (row_at self.old.resident key.object.0 key.page.0) (λ was. was.here ≡ false) }
        requires bytes { length bytes.now ≤ self.old.buffers.size }
        ensures fit { Fit self.new }
        ensures fills { IfSome (row_at self.old.resident key.object.0 key.page.0)
            (λ was. FillsPage key was lock precious (filled self.old.buffers.size bytes.now) self.old self.new) }
        ensures objects { self.new.objects ≡ self.old.objects }
        ensures buffers { self.new.buffers ≡ self.old.buffers }
        ensures room { self.new.resident.spare ≡ self.old.resident.spare }
    {
        let Some(was) = self.resident.get(key) else {
            unreachable!()
        };
        self.frames.bytes_mut(was.frame).fill(bytes);
        let row = PageRow {
            frame: was.frame,
            lock,
            dirty: false,
            precious,
            here: true,
            unlock_sent: false,
        };
        self.resident.set(key, row);
        self.queues.add(was.frame);
    }

    /// Puts the little-endian number into `size` bytes of a page that is here, which is dirty then.
    pub fn write(&mut self, key: PageKey, at: u32, size: u32, value: u64)
        requires fit { Fit self.old }
        requires here { IsSomeAnd (row_at self.old.resident key.object.0 key.page.0) (λ row. row.here ≡ true) }
        requires inside { at + size ≤ self.old.buffers.size }
        requires size { IsAccessSize size }
        requires value { value < 256 ^ size }
        ensures fit { Fit self.new }
        ensures writes { IfSome (row_at self.old.resident key.object.0 key.page.0) (λ row.
            Writes key row (with_bytes at (little_endian_bytes size value) (page_in self.old.frames row.frame.0)) self.old self.new) }
        ensures objects { self.new.objects ≡ self.old.objects }
        ensures buffers { self.new.buffers ≡ self.old.buffers }
        ensures room { self.new.resident.spare ≡ self.old.resident.spare }
    {
        let Some(row) = self.resident.get(key) else {
            unreachable!()
        };
        self.frames.bytes_mut(row.frame).put(at, size, value);
        self.resident.set(key, PageRow { dirty: true, ..row });
    }
}
