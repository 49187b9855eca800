// Why a command is refused.
ghost use Rattle.std.specs.Prelude.{◌≡◌, ◌==◌, ◌&&◌, ◌≤◌, ◌+◌, ◌<◌, ◌^◌, true, IsSome, length, nat_lt, not, None};
ghost use Rattle.vm_base.specs.declared.code.Code.TheVariants as code;
ghost use Rattle.vm_base.specs.Entries.{by_address, entry_at, is_range};
ghost use Rattle.vm_legal.specs.Refusal.{code_where};
ghost use Rattle.vm_maps.specs.Judge.{judged};
ghost use Rattle.vm_model.specs.Tasks.{is_copied};
ghost use Rattle.vm_kernel.specs.Changes.{inheritance as inheritance_of};
ghost use Rattle.vm_frames.specs.Frames.{free};
ghost use Rattle.vm_maps.specs.Maps.{entries_in, rows_in};
ghost use Rattle.vm_kernel.specs.Begun.{Given, acts_on};
ghost use Rattle.vm_state.specs.Stands.{HasTasks};
ghost use Rattle.vm_kernel.specs.Refusing.{IsForHere, access_code, acting_in, change_code, changing_code, code_of, copy_code, copy_cost, fork_code};
ghost use Rattle.vm_kernel.specs.Refusing.{is_copy_full, is_uncopied, makes_too_many, map_code, meets_uncopied, object_total, range_code, source_code};

use crate::changes::{enter, inheritance, protection, removal};
use crate::copying::{
    copies, copies_below, is_paged, kind_of, meets_uncopied, new_marks, takes_no_mark,
};
use crate::parts::Parts;
use vm_base::limits::{MOST_OBJECTS, MOST_PAGES, MOST_REGIONS};
use vm_base::{Access, Code, Entries, Entry, Inherit, ObjectId, ObjectKind, RegionId, TaskId};
use vm_maps::MapChange;
use vm_model::{Command, Declarations};
use vm_shadow::{Chains, Ids};

// The objects that there are, and those that marked regions may still get.
fn object_total(ids: &Ids) -> u64
    ensures value { result ≡ object_total ids.now }
    ensures few { result < 2 ^ 33 }
{
    u64::from(ids.next_object) + u64::from(ids.marks)
}

// What a copy of the region takes of the objects.
fn copy_cost(declared: &Declarations, chains: &Chains, source: RegionId) -> u64
    ensures cost { result ≡ copy_cost declared.now.items chains.now source.0 }
    ensures few { result ≤ 2 }
{
    if kind_of(declared, source) == ObjectKind::File {
        return 2;
    }
    if takes_no_mark(declared.len(), chains, source) {
        1
    } else {
        2
    }
}

// Whether a copy of the region is one too many.
fn is_copy_full(declared: &Declarations, chains: &Chains, ids: &Ids, source: RegionId) -> bool
    ensures { result ≡ is_copy_full declared.now.items chains.now ids.now source.0 }
{
    ids.next_region >= MOST_REGIONS
        || object_total(ids) + copy_cost(declared, chains, source) > u64::from(MOST_OBJECTS)
}

// Whether a fork of these entries makes too many regions, or leaves too few objects: for delayed copies
// of so many declared objects, and for those that are marked. No more of both are made than entries are
// copied: how many is counted near the limit alone.
#[tactic(auto, using(crate::proofs::space::CopiesCounted::marks_few))]
fn makes_too_many(entries: &Entries, declared: u32, chains: &Chains, ids: &Ids) -> bool
    ensures { result ≡ makes_too_many declared chains.now (by_address entries.now) ids.now }
{
    let copied = u64::from(copies(entries));
    if u64::from(ids.next_region) + copied > u64::from(MOST_REGIONS) {
        return true;
    }
    let objects = object_total(ids) + copied;
    if objects + copied <= u64::from(MOST_OBJECTS) {
        return false;
    }
    let marks = u64::from(new_marks(entries, declared, chains));
    objects + marks + u64::from(copies_below(entries, declared)) > u64::from(MOST_OBJECTS)
}

// Whether so many bytes from an address of the entry on end behind it.
fn ends_behind(entry: Entry, address: u64, bytes: u64) -> bool
    requires from { entry.address ≤ address }
    requires to { address < entry.address + entry.bytes }
    ensures { result ≡ nat_lt (entry.address + entry.bytes) (address + bytes) }
{
    bytes > entry.bytes - (address - entry.address)
}

impl Parts {
    // Why the command is refused now, if it is.
    pub fn refusal(&self, command: &Command, ids: &Ids, elsewhere: bool) -> Option<Code>
        requires sized { self.now.maps.size ≡ self.now.size }
        requires here { IsForHere self.now.maps (length self.now.declared.items) command.now }
        ensures { result ≡ code_of self.now ids.now elsewhere command.now }
    {
        match command {
            Command::Fork { task, .. } => self.fork_refusal(*task, ids),
            Command::Exit { task } => self.acting_refusal(*task),
            Command::Allocate {
                task,
                address,
                bytes,
            } => self.allocate_refusal(*task, *address, *bytes, ids),
            Command::Map {
                task,
                address,
                bytes,
                object,
                offset,
            } => self.map_refusal(*task, *address, *bytes, *object, *offset, elsewhere),
            Command::Load {
                task,
                address,
                size,
            } => self.access_refusal(*task, *address, *size, Access::Load),
            Command::Store {
                task,
                address,
                size,
                ..
            } => self.access_refusal(*task, *address, *size, Access::Store),
            Command::Copy {
                task,
                address,
                bytes,
                target,
                to,
            } => self.copy_refusal(*task, *address, *bytes, *target, *to, ids),
            Command::Wire { count, .. } => self.wire_refusal(*count),
            Command::Unwire { count, .. } => self.unwire_refusal(*count),
            _ => self.changing_refusal(command),
        }
    }

    // Of the commands that change the range of a task.
    fn changing_refusal(&self, command: &Command) -> Option<Code>
        requires { IsForHere self.now.maps (length self.now.declared.items) command.now }
        ensures { result ≡ changing_code self.now command.now }
    {
        match command {
            Command::Deallocate {
                task,
                address,
                bytes,
            } => self.change_refusal(*task, &removal(*address, *bytes)),
            Command::Protect {
                task,
                address,
                bytes,
                prot,
            } => self.change_refusal(*task, &protection(*address, *bytes, *prot)),
            Command::Inherit {
                task,
                address,
                bytes,
                inherit,
            } => self.inherit_refusal(*task, *address, *bytes, *inherit),
            _ => None,
        }
    }

    // Why the task can't act: an access of it waits.
    fn acting_refusal(&self, task: TaskId) -> Option<Code>
        ensures { result ≡ acting_in self.now task.0 None }
    {
        match self.waits.get(task) {
            Some(_) => Some(Code::Blocked),
            None => None,
        }
    }

    fn allocate_refusal(&self, task: TaskId, address: u64, bytes: u64, ids: &Ids) -> Option<Code>
        requires sized { self.now.maps.size ≡ self.now.size }
        requires here { IsSome (entries_in task.0 self.now.maps) }
        ensures { result ≡ acting_in self.now task.0 (range_code self.now.size (rows_in task.0 self.now.maps) ids.now address bytes) }
    {
        if let Some(code) = self.acting_refusal(task) {
            return Some(code);
        }
        if bytes / u64::from(self.size.bytes()) > u64::from(MOST_PAGES) {
            return Some(Code::InvalidArgument);
        }
        if let Some(code) = self.maps.judge(task, &enter(address, bytes)) {
            return Some(code);
        }
        if ids.next_region >= MOST_REGIONS || object_total(ids) >= u64::from(MOST_OBJECTS) {
            return Some(Code::TableFull);
        }
        None
    }

    // The tests of a mapping, in their order: the task can act, the range is one of whole pages within
    // the object, the object doesn't belong to another host, and the range is free, as one entry more.
    fn map_refusal(
        &self,
        task: TaskId,
        address: u64,
        bytes: u64,
        object: ObjectId,
        offset: u32,
        elsewhere: bool,
    ) -> Option<Code>
        requires sized { self.now.maps.size ≡ self.now.size }
        requires here { IsSome (entries_in task.0 self.now.maps) }
        requires declared { object.0 < length self.now.declared.items }
        ensures { result ≡ acting_in self.now task.0 (map_code self.now elsewhere task.0 address bytes object.0 offset) }
    {
        if let Some(code) = self.acting_refusal(task) {
            return Some(code);
        }
        let pages = bytes / u64::from(self.size.bytes());
        let within = u64::from(self.declared.at(object.0).pages);
        if !self.is_range(task, address, bytes) || u64::from(offset) + pages > within {
            return Some(Code::InvalidArgument);
        }
        if elsewhere {
            return Some(Code::WrongHost);
        }
        self.maps.judge(task, &enter(address, bytes))
    }

    fn access_refusal(&self, task: TaskId, address: u64, size: u32, need: Access) -> Option<Code>
        requires here { IsSome (entries_in task.0 self.now.maps) }
        requires some { 0 < size }
        ensures { result ≡ acting_in self.now task.0 (access_code (rows_in task.0 self.now.maps) address size need) }
    {
        if let Some(code) = self.acting_refusal(task) {
            return Some(code);
        }
        if address % u64::from(size) != 0 {
            return Some(Code::InvalidArgument);
        }
        self.maps.lookup(task, address, need).err()
    }

    fn change_refusal(&self, task: TaskId, change: &MapChange) -> Option<Code>
        requires { IsSome (entries_in task.0 self.now.maps) }
        ensures { result ≡ change_code self.now task.0 change.now }
    {
        if let Some(code) = self.acting_refusal(task) {
            return Some(code);
        }
        self.maps.judge(task, change)
    }

    // No fork copies from a shared or wild object.
    fn inherit_refusal(
        &self,
        task: TaskId,
        address: u64,
        bytes: u64,
        inherit: Inherit,
    ) -> Option<Code>
        requires { IsSome (entries_in task.0 self.now.maps) }
        ensures { result ≡ acting_in self.now task.0
            (code_where (is_copied inherit && meets_uncopied self.now.declared.items address bytes (rows_in task.0 self.now.maps)) code.InvalidArgument
            (judged self.now.maps.size (inheritance_of address bytes inherit) (rows_in task.0 self.now.maps))) }
    {
        if let Some(code) = self.acting_refusal(task) {
            return Some(code);
        }
        let entries = self.maps.entries(task);
        if inherit == Inherit::Copy && meets_uncopied(entries, &self.declared, address, bytes) {
            return Some(Code::InvalidArgument);
        }
        self.maps.judge(task, &inheritance(address, bytes, inherit))
    }

    fn fork_refusal(&self, task: TaskId, ids: &Ids) -> Option<Code>
        requires { IsSome (entries_in task.0 self.now.maps) }
        ensures { result ≡ acting_in self.now task.0 (fork_code (length self.now.declared.items) self.now.chains (rows_in task.0 self.now.maps) ids.now) }
    {
        if let Some(code) = self.acting_refusal(task) {
            return Some(code);
        }
        let declared = self.declared.len();
        if makes_too_many(self.maps.entries(task), declared, &self.chains, ids) {
            return Some(Code::TableFull);
        }
        None
    }

    // The tests of a copy, in their order: both tasks can act, both ranges are ranges of whole pages
    // and not too long, and one is to be had from the other.
    fn copy_refusal(
        &self,
        task: TaskId,
        address: u64,
        bytes: u64,
        target: TaskId,
        to: u64,
        ids: &Ids,
    ) -> Option<Code>
        requires sized { self.now.maps.size ≡ self.now.size }
        requires here { IsSome (entries_in task.0 self.now.maps) }
        requires there { IsSome (entries_in target.0 self.now.maps) }
        ensures { result ≡ acting_in self.now task.0 (acting_in self.now target.0 (copy_code self.now ids.now task.0 target.0 address bytes to)) }
    {
        if let Some(code) = self.acting_refusal(task) {
            return Some(code);
        }
        if let Some(code) = self.acting_refusal(target) {
            return Some(code);
        }
        if !self.is_range(task, address, bytes) || !self.is_range(target, to, bytes) {
            return Some(Code::InvalidArgument);
        }
        if bytes / u64::from(self.size.bytes()) > u64::from(MOST_PAGES) {
            return Some(Code::InvalidArgument);
        }
        self.source_refusal(task, address, bytes, target, to, ids)
    }

    // Whether the range is one of whole pages below the end of addresses, by the map of a task.
    fn is_range(&self, task: TaskId, address: u64, bytes: u64) -> bool
        requires { IsSome (entries_in task.0 self.now.maps) }
        ensures { result ≡ is_range self.now.maps.size address bytes }
    {
        match self.maps.judge(task, &enter(address, bytes)) {
            Some(Code::InvalidArgument) => false,
            _ => true,
        }
    }

    // The range is to be copied from an entry that can be read and that it doesn't leave, to a range
    // that is free, as one entry and one region more.
    fn source_refusal(
        &self,
        task: TaskId,
        address: u64,
        bytes: u64,
        target: TaskId,
        to: u64,
        ids: &Ids,
    ) -> Option<Code>
        requires here { IsSome (entries_in task.0 self.now.maps) }
        requires there { IsSome (entries_in target.0 self.now.maps) }
        requires range { is_range self.now.maps.size to bytes ≡ true }
        ensures { result ≡ source_code self.now ids.now (task.0 == target.0) (rows_in target.0 self.now.maps) address bytes to
            (entry_at address (rows_in task.0 self.now.maps)) }
    {
        let Some(entry) = self.maps.entry(task, address) else {
            return Some(Code::InvalidAddress);
        };
        if self.is_uncopied(entry.region, task == target) {
            return Some(Code::InvalidArgument);
        }
        if ends_behind(entry, address, bytes) {
            return Some(Code::InvalidAddress);
        }
        if !entry.prot.read {
            return Some(Code::ProtectionFailure);
        }
        if let Some(code) = self.maps.judge(target, &enter(to, bytes)) {
            return Some(code);
        }
        if is_copy_full(&self.declared, &self.chains, ids, entry.region) {
            return Some(Code::TableFull);
        }
        None
    }

    // Whether nothing is copied from entries on the region: to the same task, or to another.
    fn is_uncopied(&self, region: RegionId, own: bool) -> bool
        ensures { result ≡ is_uncopied self.now.declared.items own region.0 }
    {
        kind_of(&self.declared, region) == ObjectKind::Wild
            || !(own || is_paged(&self.declared, region))
    }

    fn wire_refusal(&self, count: u32) -> Option<Code>
        ensures { result ≡ code_where (nat_lt (free self.now.memory.frames) count) code.ResourceShortage None }
    {
        if self.memory.frames.free() < count {
            Some(Code::ResourceShortage)
        } else {
            None
        }
    }

    fn unwire_refusal(&self, count: u32) -> Option<Code>
        ensures { result ≡ code_where (nat_lt self.now.memory.frames.wired count) code.InvalidArgument None }
    {
        if self.memory.frames.wired() < count {
            Some(Code::InvalidArgument)
        } else {
            None
        }
    }
}
