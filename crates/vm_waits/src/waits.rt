// The waiting accesses of a host, and the queue for its frames.
ghost use Rattle.std.specs.Prelude.{ℕ, ◌≡◌, ◌+◌, ◌<◌, ◌≤◌, ◌++◌, ◌∷◌, [], true, false, length, map, nat_lt, IfSome, IsOk, IsSome, IsSomeAnd, MatchOption, None};
ghost use Rattle.std.specs.Prelude.{OnErr, OnOk, Some};
ghost use Rattle.vm_waits.specs.Waits.{EachOnce, PutsEntry, Waked, count_again, count_copies, count_rows, entry, first_in_queue, is_again, is_frame, is_listed};
ghost use Rattle.vm_waits.specs.Waits.{oldest_row, one, one_again, one_frame, queue_without, queued, rewanted, rows_without, turned, waits_for_frame, with_on};
ghost use Rattle.vm_waits.specs.Waits.{with_want, woken, waits_page, woken_page, woken_ready};
ghost use Rattle.vm_waits.specs.Kept.{AreQueued};
ghost use Rattle.vm_waits.specs.Wants.{is_copying};
ghost use Rattle.vm_waits.specs.declared.waiting.On.TheVariants.{Again, Frame};

use crate::scan::{oldest_again, oldest_on, take_off, wake_for_page, wake_for_ready};
use crate::table::take_out;
use crate::{Destination, On, Waiting, Want};
use indexmap::IndexMap;
use std::alloc::Global;
use std::marker::Model;
use vm_base::{NoMemory, ObjectId, PageKey, TaskId};

/// The accesses that wait on one host, and the queue for its frames.
///
/// Contracts see the rows in the order in which the accesses began, the queue in the order in which
/// it was joined, and how many more accesses begin without memory. A row stands still in its place
/// until it is removed, whatever it waits for, so what is run again goes in the order of beginning
/// (this profile). Only `reserve` takes memory.
#[derive(Drop)]
pub struct Waits {
    // In the order in which they began.
    rows: IndexMap<TaskId, Waiting>,
    // Empty: the rows move there where a removal would leave too little room.
    second: IndexMap<TaskId, Waiting>,
    // In the order of joining.
    queue: Vec<TaskId>,
    room: u32,
    // So many of the rows are slow copies.
    copies: u32,
}

impl Model for Waits {
    ghost use Rattle.std.specs.Prelude.{◌≡◌, length, vec_capacity};
    ghost use Rattle.indexmap.specs.IndexMap.{spare, values, IsEmpty};
    ghost use Rattle.vm_waits.specs.Kept.{AreKept, AreQueued, HasRoom};
    ghost use Rattle.vm_waits.specs.Waits.{WaitTable, count_copies};

    ghost Value = { WaitTable };

    ghost view = { λ s. record { rows = values s.rows; queue = s.queue.items; room = s.room } };

    ghost invariant = { λ s. AreKept s.rows.entries × IsEmpty s.second × AreQueued (values s.rows) s.queue.items
        × HasRoom s.room (length (values s.rows)) (spare s.rows) (spare s.second) (vec_capacity s.queue) × (s.copies ≡ count_copies (values s.rows)) };
}

// 1 for a slow copy, and 0 for another access.
fn copy_count(want: Want) -> u32
    ensures { result ≡ one (is_copying want) }
{
    match want {
        Want::Load { .. } | Want::Store { .. } => 0,
        Want::CopyTo { .. } => 1,
    }
}

impl Waits {
    /// No access waits.
    pub fn new(alloc: Global) -> Waits
        ensures { result ≡ record { rows = []; queue = []; room = 0 } }
    {
        Waits {
            rows: IndexMap::new(alloc),
            second: IndexMap::new(alloc),
            queue: Vec::new(alloc),
            room: 0,
            copies: 0,
        }
    }

    /// Makes room for so many further accesses; it fails for want of memory alone.
    pub fn reserve(&mut self, n: u32) -> Result<(), NoMemory>
        ensures rows { self.new.rows ≡ self.old.rows }
        ensures queue { self.new.queue ≡ self.old.queue }
        ensures room { OnOk result (n ≤ self.new.room) }
        ensures kept { self.old.room ≤ self.new.room }
        ensures succeeds { n ≤ self.old.room → IsOk result }
        ensures err { OnErr result (self.new ≡ self.old) }
    {
        if n <= self.room {
            return Ok(());
        }
        let len = self.rows().len();
        if n as usize > u32::MAX as usize - len {
            return Err(NoMemory);
        }
        // More room than is told, so that the rows seldom move.
        self.rows.reserve(len + 2 * n as usize)?;
        self.second.reserve(len + n as usize)?;
        self.queue.reserve(len + n as usize)?;
        self.room = n;
        Ok(())
    }

    /// An access of a task begins: it stands behind all others, and is to be run. A slow copy has a
    /// destination.
    pub fn begin(&mut self, task: TaskId, want: Want, destination: Option<Destination>)
        requires absent { entry self.old.rows task.0 ≡ None }
        requires room { 0 < self.old.room }
        ensures rows { self.new.rows ≡ self.old.rows ++ (record { task = task; want = want; on = Again; destination = destination }) ∷ [] }
        ensures entry { PutsEntry task.0 (Some (record { task = task; want = want; on = Again; destination = destination })) self.old.rows self.new.rows }
        ensures again { count_again self.new.rows ≡ count_again self.old.rows + 1 }
        ensures queued { queued self.new.rows ≡ queued self.old.rows }
        ensures queue { self.new.queue ≡ self.old.queue }
        ensures room { self.old.room ≡ self.new.room + 1 }
    {
        let row = Waiting {
            task,
            want,
            on: On::Again,
            destination,
        };
        self.rows.insert(task, row).unwrap();
        self.room -= 1;
        self.copies += copy_count(want);
    }

    /// The waiting access of a task; None exactly where it has none. The rows aren't searched for it.
    pub fn get(&self, task: TaskId) -> Option<Waiting>
        ensures { result ≡ entry self.now.rows task.0 }
    {
        self.rows.get(&task).copied()
    }

    /// The waiting accesses, in the order in which they began.
    pub fn rows(&self) -> &[Waiting]
        ensures rows { result.now ≡ self.now.rows }
        ensures once { EachOnce self.now.rows }
    {
        self.rows.values().as_slice()
    }

    /// The oldest access that is to be run again; None exactly where none is.
    pub fn next_again(&self) -> Option<Waiting>
        ensures oldest { result ≡ oldest_row is_again self.now.rows }
        ensures row { MatchOption result (count_again self.now.rows ≡ 0)
            (λ w. (entry self.now.rows w.task.0 ≡ Some w) × (is_again w.on ≡ true)) }
        ensures line { AreQueued self.now.rows self.now.queue }
    {
        oldest_again(self.rows.values().as_slice())
    }

    /// The access that is first in the queue for frames; None exactly where the queue is empty.
    pub fn front(&self) -> Option<Waiting>
        ensures first { MatchOption result (self.now.queue ≡ []) (λ w. first_in_queue self.now.queue ≡ Some w.task) }
        ensures row { MatchOption result (queued self.now.rows ≡ 0)
            (λ w. (entry self.now.rows w.task.0 ≡ Some w) × (is_frame w.on ≡ true)) }
        ensures line { AreQueued self.now.rows self.now.queue }
    {
        let task = *self.queue.first()?;
        self.get(task)
    }

    /// Whether an access waits for a frame.
    pub fn has_queue(&self) -> bool
        ensures queued { result ≡ nat_lt 0 (queued self.now.rows) }
        ensures even { length self.now.queue ≡ queued self.now.rows }
    {
        !self.queue.is_empty()
    }

    /// The oldest access that waits for a page to be its own; None exactly where none does.
    pub fn next_on(&self, key: PageKey) -> Option<Waiting>
        ensures oldest { result ≡ oldest_row (waits_page key) self.now.rows }
        ensures row { MatchOption result
            ((t : ℕ) → IfSome (entry self.now.rows t) (λ w. waits_page key w.on ≡ false))
            (λ w. (entry self.now.rows w.task.0 ≡ Some w) × (waits_page key w.on ≡ true)) }
        ensures line { AreQueued self.now.rows self.now.queue }
    {
        oldest_on(self.rows.values().as_slice(), key)
    }

    /// What a task's access is to do becomes something else: a slow copy goes on by some pages.
    pub fn set_want(&mut self, task: TaskId, want: Want)
        requires { IsSome (entry self.old.rows task.0) }
        ensures rows { self.new.rows ≡ map (rewanted task.0 want) self.old.rows }
        ensures entry { IfSome (entry self.old.rows task.0) (λ was.
            PutsEntry task.0 (Some (with_want was want)) self.old.rows self.new.rows) }
        ensures again { count_again self.new.rows ≡ count_again self.old.rows }
        ensures queued { queued self.new.rows ≡ queued self.old.rows }
        ensures queue { self.new.queue ≡ self.old.queue }
        ensures room { self.new.room ≡ self.old.room }
    {
        let row = self.rows.get_mut(&task).unwrap();
        self.copies = self.copies - copy_count(row.want) + copy_count(want);
        row.want = want;
    }

    /// A task's access waits for something else, but not for a frame; it leaves the queue if it was
    /// there.
    pub fn set_on(&mut self, task: TaskId, on: On)
        requires there { IsSome (entry self.old.rows task.0) }
        requires other { is_frame on ≡ false }
        ensures rows { self.new.rows ≡ map (turned task.0 on) self.old.rows }
        ensures entry { IfSome (entry self.old.rows task.0) (λ was.
            PutsEntry task.0 (Some (with_on was on)) self.old.rows self.new.rows) }
        ensures again { IfSome (entry self.old.rows task.0) (λ was.
            count_again self.new.rows + one_again was.on ≡ count_again self.old.rows + one_again on) }
        ensures queued { IfSome (entry self.old.rows task.0) (λ was.
            queued self.new.rows + one_frame was.on ≡ queued self.old.rows) }
        ensures queue { self.new.queue ≡ queue_without task.0 self.old.queue }
        ensures room { self.new.room ≡ self.old.room }
    {
        self.rows.get_mut(&task).unwrap().on = on;
        take_off(&mut self.queue, task);
    }

    /// A task's access waits for a frame, behind all others of the queue.
    pub fn join_queue(&mut self, task: TaskId)
        requires { IsSomeAnd (entry self.old.rows task.0) (λ was. is_frame was.on ≡ false) }
        ensures rows { self.new.rows ≡ map (turned task.0 Frame) self.old.rows }
        ensures entry { IfSome (entry self.old.rows task.0) (λ was.
            PutsEntry task.0 (Some (with_on was Frame)) self.old.rows self.new.rows) }
        ensures again { IfSome (entry self.old.rows task.0) (λ was.
            count_again self.new.rows + one_again was.on ≡ count_again self.old.rows) }
        ensures queued { queued self.new.rows ≡ queued self.old.rows + 1 }
        ensures queue { self.new.queue ≡ self.old.queue ++ task ∷ [] }
        ensures room { self.new.room ≡ self.old.room }
    {
        self.rows.get_mut(&task).unwrap().on = On::Frame;
        let _ = self.queue.push(task);
    }

    /// A task's access waits no more; it leaves the queue if it was there.
    pub fn remove(&mut self, task: TaskId)
        requires { IsSome (entry self.old.rows task.0) }
        ensures rows { self.new.rows ≡ rows_without task.0 self.old.rows }
        ensures entry { PutsEntry task.0 None self.old.rows self.new.rows }
        ensures again { IfSome (entry self.old.rows task.0) (λ was.
            count_again self.new.rows + one_again was.on ≡ count_again self.old.rows) }
        ensures queued { IfSome (entry self.old.rows task.0) (λ was.
            queued self.new.rows + one_frame was.on ≡ queued self.old.rows) }
        ensures length { length self.new.rows + 1 ≡ length self.old.rows }
        ensures queue { self.new.queue ≡ queue_without task.0 self.old.queue }
        ensures room { self.new.room ≡ self.old.room + 1 }
    {
        self.copies -= self.copies_of(task);
        take_out(&mut self.rows, &mut self.second, task, self.room as usize);
        take_off(&mut self.queue, task);
        self.room += 1;
    }

    // 1 where a task's access is a slow copy, and 0 else; it is looked for where there are any.
    fn copies_of(&self, task: TaskId) -> u32
        requires { IsSome (entry self.now.rows task.0) }
        ensures { IfSome (entry self.now.rows task.0) (λ was. result ≡ one (is_copying was.want)) }
    {
        if self.copies == 0 {
            return 0;
        }
        copy_count(self.get(task).unwrap().want)
    }

    /// The accesses that wait for a page are to be run again, and the stores that wait to push theirs there.
    pub fn wake_page(&mut self, key: PageKey)
        ensures rows { self.new.rows ≡ map (woken (woken_page key)) self.old.rows }
        ensures entry { (t : ℕ) → Waked (woken_page key) (entry self.old.rows t) (entry self.new.rows t) }
        ensures again { count_again self.new.rows ≡ count_again self.old.rows + count_rows (woken_page key) self.old.rows }
        ensures queued { queued self.new.rows ≡ queued self.old.rows }
        ensures queue { self.new.queue ≡ self.old.queue }
        ensures room { self.new.room ≡ self.old.room }
    {
        wake_for_page(&mut self.rows, key);
    }

    /// The accesses that wait for the pager of an object are to be run again.
    pub fn wake_ready(&mut self, object: ObjectId)
        ensures rows { self.new.rows ≡ map (woken (woken_ready object.0)) self.old.rows }
        ensures entry { (t : ℕ) → Waked (woken_ready object.0) (entry self.old.rows t) (entry self.new.rows t) }
        ensures again { count_again self.new.rows ≡ count_again self.old.rows + count_rows (woken_ready object.0) self.old.rows }
        ensures queued { queued self.new.rows ≡ queued self.old.rows }
        ensures queue { self.new.queue ≡ self.old.queue }
        ensures room { self.new.room ≡ self.old.room }
    {
        wake_for_ready(&mut self.rows, object);
    }

    /// The number of waiting accesses.
    pub fn count(&self) -> u32
        ensures count { result ≡ length self.now.rows }
        ensures once { EachOnce self.now.rows }
        ensures queue { (t : ℕ) → is_listed t self.now.queue ≡ waits_for_frame (entry self.now.rows t) }
    {
        self.rows.len() as u32
    }

    /// The number of waiting accesses that are slow copies.
    pub fn copies(&self) -> u32
        ensures { result ≡ count_copies self.now.rows }
    {
        self.copies
    }
}
