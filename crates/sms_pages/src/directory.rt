// The directory of one page.
ghost use Rattle.std.specs.Prelude.{◌≡◌, ◌+◌, ◌<◌, ◌≤◌, [], replicate, length, true, false, IsOk, OnOk, OnErr, IfOk};
ghost use Rattle.vm_base.specs.Limits.{most_hosts};
ghost use Rattle.sms_pages.specs.Desk.{AllLong, DeskServes, HasRoom};
ghost use Rattle.sms_pages.specs.Directory.{wanted_access, requested, unlock_heard, saved, finished, left_by, ended, IsServedDirectory, IsSame, IsNewDirectory};
ghost use Rattle.sms_pages.specs.Directory.{is_idle, most_replies};

use crate::Replies;
use crate::desk::{Desk, HOSTS, make_pages, overwrite};
use crate::holding::{Holding, Recall, Wish};
use std::alloc::Global;
use std::collections::VecDeque;
use std::marker::Model;
use std::mem;
use vm_base::{Access, HostId, Listing, NoMemory, PageBytes, PageSize};

// The longest line behind which a call can still number its replies.
const MOST: usize = 0xffff_fff0;

/// What the shared memory server knows of one page, for up to eight hosts.
///
/// Contracts see what each host holds, whether it is awaited, the line of those who want the page
/// (the first in front), the server's bytes of it, and whether the next call has its memory at hand.
#[derive(Drop)]
pub struct PageDirectory {
    desk: Desk,
    ready: Replies,
    alloc: Global,
}

impl Model for PageDirectory {
    ghost use Rattle.std.specs.Prelude.{◌≡◌, ◌&&◌, ◌+◌, [], nat_le, nat_lt, length};
    ghost use Rattle.std.specs.VecDeque.{deque_capacity};
    ghost use Rattle.sms_pages.specs.Directory.{Directory};
    ghost use Rattle.sms_pages.specs.Desk.{AllLong, is_prepared};

    ghost Value = { Directory };

    ghost view = { λ s. record {
      holds = s.desk.holds;
      awaits = s.desk.awaits;
      line = s.desk.line.items;
      bytes = s.desk.bytes;
      prepared = is_prepared (length s.desk.line.items) (deque_capacity s.desk.line) (length s.desk.spare.items) s.ready.room;
    } };

    ghost invariant = { λ s. AllLong (length s.desk.bytes) s.desk.spare.items × (s.ready.items ≡ []) };
}

impl PageDirectory {
    /// The directory of a page of zeros that nobody holds; it fails for want of memory alone.
    pub fn new(alloc: Global, size: PageSize) -> Result<PageDirectory, NoMemory>
        ensures { IfOk result (λ directory. IsNewDirectory size directory) }
    {
        let desk = Desk {
            holds: [Holding::NOTHING; HOSTS],
            awaits: [Recall::NONE; HOSTS],
            line: VecDeque::new(alloc),
            bytes: PageBytes::zero(alloc, size)?,
            spare: Listing::new(alloc),
        };
        Ok(PageDirectory {
            desk,
            ready: Listing::new(alloc),
            alloc,
        })
    }

    /// Takes the memory of the next call, which then cannot want any; answers the most replies that
    /// that call gives. It fails for want of memory alone.
    pub fn reserve(&mut self) -> Result<u32, NoMemory>
        ensures same { IsSame self.old self.new }
        ensures most { IfOk result (λ most. most ≡ most_replies self.old) }
        ensures prepared { OnOk result (self.new.prepared ≡ true) }
        ensures succeeds { self.old.prepared ≡ true → IsOk result }
    {
        let waiting = self.desk.line.len();
        if waiting > MOST {
            return Err(NoMemory);
        }
        let most = waiting as u32 + 9;
        self.desk.line.reserve(1)?;
        self.ready.reserve(most)?;
        make_pages(&mut self.desk.spare, waiting as u32 + 1, &self.desk.bytes)?;
        Ok(most)
    }

    /// How many stand in line.
    pub fn waiting(&self) -> usize
        ensures { result ≡ length self.now.line }
    {
        self.desk.line.len()
    }

    /// Whether the end of the host's control changes nothing: it holds nothing and isn't awaited,
    /// and nobody stands in line.
    pub fn is_idle(&self, host: HostId) -> bool
        requires { host.0 < most_hosts }
        ensures { result ≡ is_idle host.0 self.now }
    {
        self.desk.line.is_empty()
            && self.desk.holds[host.0 as usize] == Holding::NOTHING
            && self.desk.awaits[host.0 as usize] == Recall::NONE
    }

    /// A data request of the host was taken: it holds nothing now, and joins the line. It fails for
    /// want of memory alone.
    pub fn request(&mut self, host: HostId, access: Access) -> Result<Replies, NoMemory>
        requires { host.0 < most_hosts }
        ensures exact { IfOk result (λ replies. IsServedDirectory (requested host.0 (wanted_access access) self.old) self.new replies.items) }
        ensures few { IfOk result (λ replies. length replies.items ≤ most_replies self.old) }
        ensures err { OnErr result (IsSame self.old self.new) }
        ensures succeeds { self.old.prepared ≡ true → IsOk result }
    {
        self.reserve()?;
        self.desk.line.push_back(Wish::request(host, access))?;
        self.desk.holds[host.0 as usize] = Holding::NOTHING;
        answer(&mut self.desk, &mut self.ready, self.alloc)
    }

    /// A data unlock of the host was taken: if it holds Read and isn't awaited it joins the line.
    /// It fails for want of memory alone.
    pub fn unlock(&mut self, host: HostId) -> Result<Replies, NoMemory>
        requires { host.0 < most_hosts }
        ensures exact { IfOk result (λ replies. IsServedDirectory (unlock_heard host.0 self.old) self.new replies.items) }
        ensures few { IfOk result (λ replies. length replies.items ≤ most_replies self.old) }
        ensures err { OnErr result (IsSame self.old self.new) }
        ensures succeeds { self.old.prepared ≡ true → IsOk result }
    {
        self.reserve()?;
        if self.desk.holds[host.0 as usize] == Holding::READ
            && self.desk.awaits[host.0 as usize] == Recall::NONE
        {
            self.desk.line.push_back(Wish::upgrade(host))?;
        }
        answer(&mut self.desk, &mut self.ready, self.alloc)
    }

    /// A data return of the host was taken: the server's bytes are these now, and if the kernel kept
    /// no copy the host holds nothing. It fails for want of memory alone.
    pub fn returned(
        &mut self,
        host: HostId,
        keep: bool,
        bytes: &PageBytes,
    ) -> Result<Replies, NoMemory>
        requires host { host.0 < most_hosts }
        requires size { length bytes.now ≡ length self.old.bytes }
        ensures exact { IfOk result (λ replies. IsServedDirectory (saved host.0 keep bytes.now self.old) self.new replies.items) }
        ensures few { IfOk result (λ replies. length replies.items ≤ most_replies self.old) }
        ensures err { OnErr result (IsSame self.old self.new) }
        ensures succeeds { self.old.prepared ≡ true → IsOk result }
    {
        self.reserve()?;
        overwrite(&mut self.desk.bytes, bytes);
        if !keep {
            self.desk.holds[host.0 as usize] = Holding::NOTHING;
        }
        answer(&mut self.desk, &mut self.ready, self.alloc)
    }

    /// A lock_completed of the host was taken: it is awaited no more, and where it was, it holds
    /// nothing after a flush and no more than Read after a clean lock. It fails for want of memory
    /// alone.
    pub fn completed(&mut self, host: HostId) -> Result<Replies, NoMemory>
        requires { host.0 < most_hosts }
        ensures exact { IfOk result (λ replies. IsServedDirectory (finished host.0 self.old) self.new replies.items) }
        ensures few { IfOk result (λ replies. length replies.items ≤ most_replies self.old) }
        ensures err { OnErr result (IsSame self.old self.new) }
        ensures succeeds { self.old.prepared ≡ true → IsOk result }
    {
        self.reserve()?;
        let index = host.0 as usize;
        self.desk.holds[index] = left_by(self.desk.awaits[index], self.desk.holds[index]);
        self.desk.awaits[index] = Recall::NONE;
        answer(&mut self.desk, &mut self.ready, self.alloc)
    }

    /// A terminate of the host's control was taken: it holds nothing and is awaited no more. It fails
    /// for want of memory alone.
    pub fn gone(&mut self, host: HostId) -> Result<Replies, NoMemory>
        requires { host.0 < most_hosts }
        ensures exact { IfOk result (λ replies. IsServedDirectory (ended host.0 self.old) self.new replies.items) }
        ensures few { IfOk result (λ replies. length replies.items ≤ most_replies self.old) }
        ensures err { OnErr result (IsSame self.old self.new) }
        ensures succeeds { self.old.prepared ≡ true → IsOk result }
    {
        self.reserve()?;
        self.desk.holds[host.0 as usize] = Holding::NOTHING;
        self.desk.awaits[host.0 as usize] = Recall::NONE;
        answer(&mut self.desk, &mut self.ready, self.alloc)
    }
}

// What a host holds once the lock is done for which it was awaited.
fn left_by(awaited: Recall, holds: Holding) -> Holding
    ensures { result ≡ left_by awaited holds }
{
    if awaited == Recall::NONE {
        return holds;
    }
    if awaited == Recall::CLEAN {
        if holds == Holding::WRITE {
            return Holding::READ;
        }
        return holds;
    }
    Holding::NOTHING
}

// Serves the line, and hands out the replies.
#[tactic(auto, using(crate::proofs::Serving::served_few))]
fn answer(desk: &mut Desk, ready: &mut Replies, alloc: Global) -> Result<Replies, NoMemory>
    requires long { AllLong (length desk.old.bytes) desk.old.spare.items }
    requires empty { ready.old.items ≡ [] }
    requires room { HasRoom desk.old ready.old.room }
    ensures ok { IsOk result }
    ensures exact { IfOk result (λ replies. DeskServes false desk.old [] desk.new replies.items) }
    ensures few { IfOk result (λ replies. length replies.items ≤ length desk.old.line.items + most_hosts) }
    ensures bytes { desk.new.bytes ≡ desk.old.bytes }
    ensures long { AllLong (length desk.new.bytes) desk.new.spare.items }
    ensures ready { ready.new.items ≡ [] }
{
    let mut replies = mem::replace(ready, Listing::new(alloc));
    desk.serve(&mut replies)?;
    Ok(replies)
}
