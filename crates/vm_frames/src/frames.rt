// The frames of a host.
ghost use Rattle.std.specs.Prelude.{◌≡◌, ◌≢◌, ◌+◌, ◌<◌, ◌≤◌, [], true, false, IfOk, IsSome, MatchOption, get_or, if◌then◌else◌, length, nat_le, replicate};
ghost use Rattle.std.specs.Prelude.{reverse, set, vec_capacity};
ghost use Rattle.std.specs.Borrow.{sem};
ghost use Rattle.vm_frames.specs.Frames.{Claims, FrameTable, Releases, claimed, free, frame_count, held, is_claimed, page_in};
ghost use Rattle.vm_frames.specs.Kept.{frames_from};

use std::alloc::Global;
use std::marker::Model;
use vm_base::{FrameNo, NoMemory, PageBytes, PageSize};

/// The page frames of a host. Contracts see the bytes of each frame, which frames are claimed, and
/// how many are wired.
///
/// A claimed frame is nobody else's until it is released. Wired frames are held back from claims;
/// they are a number alone (this profile). A claim doesn't touch the bytes. No call but `new` takes
/// memory.
#[derive(Drop)]
pub struct Frames {
    pages: Vec<PageBytes>,
    claims: Vec<bool>,
    // The frames that aren't claimed; the last one is claimed next.
    spare: Vec<FrameNo>,
    wired: u32,
}

impl Model for Frames {
    ghost use Rattle.std.specs.Prelude.{vec_capacity, reverse};
    ghost use Rattle.vm_frames.specs.Frames.{FrameTable};
    ghost use Rattle.vm_frames.specs.Kept.{AreFrames};

    ghost Value = { FrameTable };

    ghost view = { λ s. record { pages = s.pages.items; claims = s.claims.items; wired = s.wired } };

    ghost invariant = { λ s. AreFrames s.pages.items s.claims.items (reverse s.spare.items) (vec_capacity s.spare) s.wired };
}

impl Frames {
    ghost use Rattle.vm_frames.specs.Lending.{LendsPage, with_page};

    /// So many frames of zeros, none claimed and none wired; it fails for want of memory alone.
    pub fn new(alloc: Global, n: u32, size: PageSize) -> Result<Frames, NoMemory>
        ensures { IfOk result (λ frames. frames
            ≡ record { pages = replicate n (replicate size 0); claims = replicate n false; wired = 0 }) }
    {
        let pages = zero_pages(alloc, n, size)?;
        let claims = vec![in alloc; false; n as usize]?;
        let spare = all_spare(alloc, n)?;
        Ok(Frames {
            pages,
            claims,
            spare,
            wired: 0,
        })
    }

    /// A frame that wasn't claimed, and now is; None exactly where no frame is free.
    pub fn claim(&mut self) -> Option<FrameNo>
        ensures { MatchOption result ((free self.old ≡ 0) × (self.new ≡ self.old))
            (λ f. Claims f.0 self.old self.new) }
    {
        if self.free() == 0 {
            return None;
        }
        let frame = self.spare.pop()?;
        self.claims[frame.0 as usize] = true;
        Some(frame)
    }

    /// Gives a claimed frame back.
    pub fn release(&mut self, f: FrameNo)
        requires { is_claimed self.old f.0 ≡ true }
        ensures { Releases f.0 self.old self.new }
    {
        self.claims[f.0 as usize] = false;
        let _ = self.spare.push(f);
    }

    /// The bytes of a claimed frame.
    pub fn bytes(&self, f: FrameNo) -> &PageBytes
        requires { is_claimed self.now f.0 ≡ true }
        ensures { result.now ≡ page_in self.now f.0 }
    {
        &self.pages[f.0 as usize]
    }

    /// Lends the bytes of a claimed frame; nothing else changes.
    pub fn bytes_mut(&mut self, f: FrameNo) -> &mut PageBytes
        requires { is_claimed self.old f.0 ≡ true }
        ensures value { result.now ≡ page_in self.old f.0 }
        ensures* lends { sem 𝓛 (LendsPage self.entry f.0 result) }
    {
        &mut self.pages[f.0 as usize]
    }

    /// Copies the bytes of a claimed frame into another one, without memory.
    pub fn copy(&mut self, from: FrameNo, to: FrameNo)
        requires from { is_claimed self.old from.0 ≡ true }
        requires to { is_claimed self.old to.0 ≡ true }
        requires apart { from.0 ≢ to.0 }
        requires sized { length (page_in self.old from.0) ≡ length (page_in self.old to.0) }
        ensures { self.new ≡ with_page self.old to.0 (page_in self.old from.0) }
    {
        copy_page(&mut self.pages, from.0 as usize, to.0 as usize);
    }

    /// Wires `n` more frames, if so many are free; false exactly where fewer are.
    pub fn wire(&mut self, n: u32) -> bool
        ensures enough { result ≡ nat_le n (free self.old) }
        ensures wired { self.new ≡ (if result then record self.old { wired = self.old.wired + n } else self.old) }
        ensures free { free self.old ≡ (if result then free self.new + n else free self.new) }
    {
        if n > self.free() {
            return false;
        }
        self.wired += n;
        true
    }

    /// Wires `n` frames less, if so many are wired; false exactly where fewer are.
    pub fn unwire(&mut self, n: u32) -> bool
        ensures enough { result ≡ nat_le n self.old.wired }
        ensures wired { self.old ≡ (if result then record self.new { wired = self.new.wired + n } else self.new) }
        ensures free { free self.new ≡ (if result then free self.old + n else free self.old) }
    {
        if n > self.wired {
            return false;
        }
        self.wired -= n;
        true
    }

    /// The number of frames.
    pub fn count(&self) -> u32
        ensures { result ≡ frame_count self.now }
    {
        self.claims.len() as u32
    }

    /// The number of frames that are neither claimed nor wired.
    pub fn free(&self) -> u32
        ensures value { result ≡ free self.now }
        ensures all { claimed self.now + (self.now.wired + result) ≡ frame_count self.now }
    {
        self.spare.len() as u32 - self.wired
    }

    /// The number of wired frames.
    pub fn wired(&self) -> u32
        ensures { result ≡ self.now.wired }
    {
        self.wired
    }
}

// Copies one page over another one as long.
fn copy_page(pages: &mut [PageBytes], from: usize, to: usize)
    requires from { from < length pages.old }
    requires to { to < length pages.old }
    requires apart { from ≢ to }
    requires sized { length (get_or pages.old from []) ≡ length (get_or pages.old to []) }
    ensures { pages.new ≡ set pages.old to (get_or pages.old from []) }
{
    if from < to {
        let (front, back) = pages.split_at_mut(to);
        back[0].fill(front[from].as_slice());
    } else {
        let (front, back) = pages.split_at_mut(from);
        front[to].fill(back[0].as_slice());
    }
}

fn zero_pages(alloc: Global, n: u32, size: PageSize) -> Result<Vec<PageBytes>, NoMemory>
    ensures { IfOk result (λ pages. pages.items ≡ replicate n (replicate size 0)) }
{
    let mut pages = Vec::with_capacity(alloc, n as usize)?;
    'all: for _ in 0..n {
        pages.push(PageBytes::zero(alloc, size)?)?;
    }
    Ok(pages)
}

// All frames, the first one last.
fn all_spare(alloc: Global, n: u32) -> Result<Vec<FrameNo>, NoMemory>
    ensures items { IfOk result (λ spare. reverse spare.items ≡ frames_from 0 n) }
    ensures room { IfOk result (λ spare. n ≤ vec_capacity spare) }
{
    let mut spare = Vec::with_capacity(alloc, n as usize)?;
    let mut next = n;
    'all: while next > 0 {
        next -= 1;
        spare.push(FrameNo(next))?;
    }
    Ok(spare)
}
