// The queues of the pages that are here.
ghost use Rattle.std.specs.Prelude.{◌≡◌, ◌+◌, ◌<◌, ◌++◌, ℕ, [], List, true, false, IfOk, MatchOption, if◌then◌else◌, length};
ghost use Rattle.vm_base.specs.declared.ids.FrameNo.{FrameNo};
ghost use Rattle.vm_queues.specs.Links.{along, first_frame, frames_of, link_in, link_of};
ghost use Rattle.vm_queues.specs.Queues.{AllSkipped, AllSpared, EachOnce, GainsPage, IsEmpty, KeepsPages, LosesPage, Queues, SkipsSame, added, balanced};
ghost use Rattle.vm_queues.specs.Queues.{is_queued, is_skipped, queues_except, spared, spared as spared_queues, victim_frame, with_reference};

use crate::link::Link;
use crate::lists::{Lists, balance, choose, empty, put_active, spare, take_off};
use crate::sparing::{Listed, Spares};
use std::alloc::Global;
use std::marker::Model;
use vm_base::{FrameNo, NoMemory};

/// The active and the inactive pages of a host, each by its frame, and which of them are marked as
/// referenced. The inactive list is kept at a third of all pages, and a victim comes from its front.
/// The balance and the choice of a victim are this profile's.
///
/// No call but `new` takes memory.
#[derive(Drop)]
pub struct PageQueues {
    lists: Lists,
}

impl Model for PageQueues {
    ghost use Rattle.vm_queues.specs.Queues.{Queues};
    ghost use Rattle.vm_queues.specs.Kept.{ArePageLists, page_lists};

    ghost Value = { Queues };

    ghost view = { λ s. page_lists s.lists };

    ghost invariant = { λ s. ArePageLists s.lists };
}

impl PageQueues {
    /// Two empty lists for pages in so many frames; it fails for want of memory alone.
    pub fn new(alloc: Global, frames: u32) -> Result<PageQueues, NoMemory>
        ensures queues { IfOk result (λ queues. queues ≡ record { active = []; inactive = []; frames = frames }) }
        ensures pages { IfOk result (λ queues. IsEmpty queues) }
    {
        let lists = empty(alloc, frames)?;
        Ok(PageQueues { lists })
    }

    /// Puts a page at the active back, not referenced.
    pub fn add(&mut self, f: FrameNo)
        requires inside { f.0 < self.old.frames }
        requires absent { is_queued self.old f.0 ≡ false }
        ensures queues { self.new ≡ added f.0 self.old }
        ensures pages { GainsPage f.0 self.old self.new }
    {
        put_active(&mut self.lists, f);
    }

    /// Marks a page as referenced.
    pub fn touch(&mut self, f: FrameNo)
        requires { is_queued self.old f.0 ≡ true }
        ensures queues { self.new ≡ with_reference f.0 self.old }
        ensures pages { KeepsPages self.old self.new }
    {
        self.lists.marks[f.0 as usize] = true;
    }

    /// Takes a page off its list.
    pub fn remove(&mut self, f: FrameNo)
        requires { is_queued self.old f.0 ≡ true }
        ensures queues { self.new ≡ queues_except f.0 self.old }
        ensures pages { LosesPage f.0 self.old self.new }
    {
        take_off(&mut self.lists, f);
    }

    /// Moves active fronts to the inactive back, as long as fewer than a third of the pages are
    /// inactive.
    pub fn balance(&mut self)
        ensures queues { self.new ≡ balanced self.old }
        ensures pages { KeepsPages self.old self.new }
    {
        balance(&mut self.lists);
    }

    /// The page to be reclaimed next, which stays on its list; None exactly where all are skipped.
    ///
    /// Referenced pages at the inactive front first get a second chance at the active back.
    pub fn victim(&mut self, skip: &[FrameNo]) -> Option<FrameNo>
        ensures queues { self.new ≡ spared (balanced self.old) }
        ensures pages { KeepsPages self.old self.new }
        ensures victim { result ≡ victim_frame skip.now self.new }
        ensures none { MatchOption result (AllSkipped skip.now self.old)
            (λ f. (is_queued self.old f.0 ≡ true) × (is_skipped skip.now f.0 ≡ false)) }
    {
        balance(&mut self.lists);
        spare(&mut self.lists);
        choose(&self.lists, &Listed { skip })
    }

    /// The same, where other frames are spared.
    pub fn victim_but<S: Spares>(&mut self, spared: &S) -> Option<FrameNo>
        ensures queues { self.new ≡ spared_queues (balanced self.old) }
        ensures pages { KeepsPages self.old self.new }
        ensures victim { (skip : List FrameNo) → SkipsSame skip (S.spares spared.now) self.old → result ≡ victim_frame skip self.new }
        ensures none { MatchOption result (AllSpared (S.spares spared.now) self.old)
            (λ f. (is_queued self.old f.0 ≡ true) × (S.spares spared.now f.0 ≡ false)) }
    {
        balance(&mut self.lists);
        spare(&mut self.lists);
        choose(&self.lists, spared)
    }

    /// How many pages are on the lists.
    pub fn count(&self) -> usize
        ensures { result ≡ length self.now.active + length self.now.inactive }
    {
        self.lists.active.count + self.lists.inactive.count
    }

    /// A law of the lists, which does nothing: each page stands there once.
    pub fn stand_once(&self)
        ensures { EachOnce (self.now.inactive ++ self.now.active) }
    {
        let _ = &self.lists;
    }

    /// The links of the frames, each under the number of its frame. A list begins at the one frame of
    /// it that has none before it, and goes on along `after`.
    pub fn links(&self) -> &[Link]
        ensures count { length result.now ≡ self.now.frames }
        ensures links { (f : ℕ) → link_of result.now f ≡ link_in self.now f }
        ensures active { along (link_of result.now) (length self.now.active) (first_frame (frames_of self.now.active)) ≡ frames_of self.now.active }
        ensures inactive { along (link_of result.now) (length self.now.inactive) (first_frame (frames_of self.now.inactive)) ≡ frames_of self.now.inactive }
    {
        &self.lists.links
    }
}
