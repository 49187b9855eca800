// The state of a directory, and how its line is served.
ghost use Rattle.std.specs.List.{list_all};
ghost use Rattle.vm_base.specs.Limits.{most_hosts};
ghost use Rattle.std.specs.Prelude.{◌≡◌, ◌==◌, ◌+◌, ◌-◌, ◌<◌, ◌≤◌, ◌∷◌, [], ◌++◌, List, ℕ, length, slice_index, slice_get, slice_set, Some, true, false, not};
ghost use Rattle.std.specs.Prelude.{IsOk, OnOk, IfOk, Ok};
ghost use Rattle.vm_base.specs.Listing.{Listed};
ghost use Rattle.sms_pages.specs.Directory.{is_recalled, recall, recall_kind, recalls, recalled, grant, granted, served, turn, any_recalled};
ghost use Rattle.sms_pages.specs.Desk.{AllLong, IsElsewhereSame, awaits_with, replies_with, DeskServes, HasRoom};

use crate::holding::{Holding, Recall, Turn, Wish};
use crate::{Replies, Reply};
use std::collections::VecDeque;
use vm_base::limits::MOST_HOSTS;
use vm_base::{HostId, Listing, Lock, NoMemory, PageBytes};

/// The hosts of a page.
pub const HOSTS: usize = MOST_HOSTS as usize;

/// What a directory notes, and pages for the supplies to come.
#[derive(Drop)]
pub struct Desk {
    pub holds: [Holding; HOSTS],
    pub awaits: [Recall; HOSTS],
    pub line: VecDeque<Wish>,
    pub bytes: PageBytes,
    pub spare: Listing<PageBytes>,
}

/// Makes pages until there are so many, each as long as `like`.
pub fn make_pages(
    pages: &mut Listing<PageBytes>,
    count: u32,
    like: &PageBytes,
) -> Result<(), NoMemory>
    ensures long { AllLong (length like.now) pages.old.items → AllLong (length like.now) pages.new.items }
    ensures enough { OnOk result (count ≤ length pages.new.items) }
    ensures more { length pages.old.items ≤ length pages.new.items }
    ensures succeeds { count ≤ length pages.old.items → IsOk result }
{
    while pages.len() < count {
        pages.push(like.copy()?)?;
    }
    Ok(())
}

/// Makes a page a copy of another of the same length.
#[tactic(auto, using(crate::proofs::Pages::filled))]
pub fn overwrite(page: &mut PageBytes, with: &PageBytes)
    requires { length page.old ≡ length with.now }
    ensures { page.new ≡ with.now }
{
    page.fill(with.as_slice());
}

impl Desk {
    // Whether the host is recalled for the one in front.
    fn is_recalled(&self, front: &Wish, host: u32) -> bool
        requires { host < most_hosts }
        ensures { result
            ≡ is_recalled front.now host (slice_index self.now.holds host) (slice_index self.now.awaits host) }
    {
        if host == front.host().0 || self.awaits[host as usize] != Recall::NONE {
            return false;
        }
        if front.writes() {
            self.holds[host as usize] != Holding::NOTHING
        } else {
            self.holds[host as usize] == Holding::WRITE
        }
    }

    // Recalls the page from the host, if the one in front wants that.
    fn recall_host(
        &mut self,
        front: &Wish,
        host: u32,
        replies: &mut Replies,
    ) -> Result<(), NoMemory>
        requires { host < most_hosts }
        ensures awaits { OnOk result (self.new.awaits
            ≡ awaits_with front.now host self.old.holds self.old.awaits self.old.awaits) }
        ensures sent { OnOk result (replies.new.items
            ≡ replies_with front.now host self.old.holds self.old.awaits replies.old.items) }
        ensures rest { IsElsewhereSame self.old self.new }
        ensures succeeds { 0 < replies.old.room → IsOk result }
        ensures room { replies.old.room ≤ replies.new.room + 1 }
    {
        if self.is_recalled(front, host) {
            replies.push(recall_of(front, HostId(host)))?;
            self.awaits[host as usize] = recall_kind(front);
        }
        Ok(())
    }

    // Recalls the page for the one in front, by rising host.
    #[tactic(auto, using(crate::proofs::Recalls::awaits_more, crate::proofs::Recalls::replies_more))]
    fn recall(&mut self, front: &Wish, replies: &mut Replies) -> Result<(), NoMemory>
        ensures awaits { OnOk result (self.new.awaits ≡ recalled front.now self.old.holds self.old.awaits most_hosts) }
        ensures sent { OnOk result (replies.new.items
            ≡ recalls front.now self.old.holds self.old.awaits most_hosts ++ replies.old.items) }
        ensures rest { IsElsewhereSame self.old self.new }
        ensures succeeds { most_hosts ≤ replies.old.room → IsOk result }
        ensures room { replies.old.room ≤ replies.new.room + most_hosts }
    {
        for host in 0..MOST_HOSTS {
            self.recall_host(front, host, replies)?;
        }
        Ok(())
    }

    // Whether no host is awaited.
    fn is_nobody_awaited(&self) -> bool
        ensures { result ≡ list_all (λ kind. kind == 0) self.now.awaits }
    {
        self.awaits.iter().all(|kind| *kind == Recall::NONE)
    }

    // A page with the bytes of this one.
    #[tactic(auto, using(crate::proofs::Pages::long_rest, crate::proofs::Pages::long_last))]
    fn take_page(&mut self) -> Result<PageBytes, NoMemory>
        requires long { AllLong (length self.old.bytes) self.old.spare.items }
        ensures page { IfOk result (λ page. page ≡ self.old.bytes) }
        ensures holds { self.new.holds ≡ self.old.holds }
        ensures awaits { self.new.awaits ≡ self.old.awaits }
        ensures line { self.new.line.items ≡ self.old.line.items }
        ensures bytes { self.new.bytes ≡ self.old.bytes }
        ensures long { AllLong (length self.new.bytes) self.new.spare.items }
        ensures fewer { length self.old.spare.items ≤ length self.new.spare.items + 1 }
        ensures succeeds { 0 < length self.old.spare.items → IsOk result }
    {
        match self.spare.take_first() {
            Some(mut page) => {
                overwrite(&mut page, &self.bytes);
                Ok(page)
            }
            None => self.bytes.copy(),
        }
    }

    // Gives the one in front what it wants.
    fn grant(&mut self, front: &Wish, replies: &mut Replies) -> Result<(), NoMemory>
        requires long { AllLong (length self.old.bytes) self.old.spare.items }
        ensures holds { OnOk result (self.new.holds ≡ slice_set self.old.holds front.now.host (granted front.now)) }
        ensures awaits { self.new.awaits ≡ self.old.awaits }
        ensures line { self.new.line.items ≡ self.old.line.items }
        ensures bytes { self.new.bytes ≡ self.old.bytes }
        ensures sent { OnOk result (replies.new.items ≡ grant front.now self.old.bytes ∷ replies.old.items) }
        ensures long { AllLong (length self.new.bytes) self.new.spare.items }
        ensures fewer { length self.old.spare.items ≤ length self.new.spare.items + 1 }
        ensures room { replies.old.room ≤ replies.new.room + 1 }
        ensures succeeds { 0 < length self.old.spare.items → 0 < replies.old.room → IsOk result }
    {
        let host = front.host();
        let reply = if front.is_upgrade() {
            Reply::Unlock { host }
        } else {
            supply_of(front, self.take_page()?)
        };
        replies.push(reply)?;
        self.holds[host.0 as usize] = granted_to(front);
        Ok(())
    }

    // Whether the one in front wants any host's page recalled.
    #[tactic(auto, using(crate::proofs::Recalls::any_more))]
    fn is_any_recalled(&self, front: &Wish) -> bool
        ensures { result ≡ any_recalled front.now self.now.holds self.now.awaits most_hosts }
    {
        let mut any = false;
        for host in 0..MOST_HOSTS {
            any = any || self.is_recalled(front, host);
        }
        any
    }

    // What the turn of the one in front comes to.
    fn turn(&self, front: &Wish) -> Turn
        ensures { result ≡ turn front.now self.now.holds self.now.awaits }
    {
        if front.is_upgrade() && self.holds[front.host().0 as usize] != Holding::READ {
            return Turn::Leaves;
        }
        if self.is_any_recalled(front) {
            return Turn::Recalls;
        }
        if self.is_nobody_awaited() {
            Turn::Grants
        } else {
            Turn::Waits
        }
    }

    // Serves the one in front; answers whether it left and the next one is to be served.
    #[tactic(auto, using(crate::proofs::Serving::ends_waiting, crate::proofs::Serving::ends_recalling))]
    fn serve_front(&mut self, front: &Wish, replies: &mut Replies) -> Result<bool, NoMemory>
        requires long { AllLong (length self.old.bytes) self.old.spare.items }
        requires front { slice_get self.old.line.items 0 ≡ Some front.now }
        ensures exact { IfOk result (λ goes_on. DeskServes goes_on self.old replies.old.items self.new replies.new.items) }
        ensures bytes { self.new.bytes ≡ self.old.bytes }
        ensures long { AllLong (length self.new.bytes) self.new.spare.items }
        ensures shorter { IfOk result (λ goes_on. goes_on ≡ true
            → length self.new.line.items < length self.old.line.items) }
        ensures room { IfOk result (λ goes_on. goes_on ≡ true → HasRoom self.old replies.old.room
            → HasRoom self.new replies.new.room) }
        ensures succeeds { HasRoom self.old replies.old.room → IsOk result }
    {
        match self.turn(front) {
            Turn::Leaves => {
                self.line.pop_front();
                Ok(true)
            }
            Turn::Recalls => {
                self.recall(front, replies)?;
                Ok(false)
            }
            Turn::Waits => Ok(false),
            Turn::Grants => {
                self.grant(front, replies)?;
                self.line.pop_front();
                Ok(true)
            }
        }
    }

    /// Serves the line as far as it goes.
    pub fn serve(&mut self, replies: &mut Replies) -> Result<(), NoMemory>
        requires long { AllLong (length self.old.bytes) self.old.spare.items }
        ensures exact { OnOk result (DeskServes false self.old replies.old.items self.new replies.new.items) }
        ensures bytes { self.new.bytes ≡ self.old.bytes }
        ensures long { AllLong (length self.new.bytes) self.new.spare.items }
        ensures succeeds { HasRoom self.old replies.old.room → IsOk result }
    {
        'line: while let Some(front) = self.line.front() {
            let front = *front;
            if !self.serve_front(&front, replies)? {
                return Ok(());
            }
        }
        Ok(())
    }
}

// The message that recalls the page from the host.
fn recall_of(front: &Wish, host: HostId) -> Reply
    ensures { result ≡ recall front.now host.0 }
{
    if front.writes() {
        Reply::Flush { host }
    } else {
        Reply::CleanLock { host }
    }
}

// The lock for which a recalled host is awaited.
fn recall_kind(front: &Wish) -> Recall
    ensures { result ≡ recall_kind front.now }
{
    if front.writes() {
        Recall::FLUSH
    } else {
        Recall::CLEAN
    }
}

// The supply for a request.
fn supply_of(front: &Wish, bytes: PageBytes) -> Reply
    requires { front.now.upgrade ≡ false }
    ensures { result ≡ grant front.now bytes }
{
    let lock = Lock {
        read: false,
        write: !front.writes(),
    };
    Reply::Supply {
        host: front.host(),
        lock,
        bytes,
    }
}

// What a host holds that got what it wanted.
fn granted_to(front: &Wish) -> Holding
    ensures { result ≡ granted front.now }
{
    if front.writes() {
        Holding::WRITE
    } else {
        Holding::READ
    }
}
