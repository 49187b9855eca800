// The maps of all tasks.
ghost use Rattle.std.specs.Prelude.{◌≡◌, ◌≤◌, ◌⊎◌, [], Some, None, IfOk, IfSome, IsOk, IsSome, IsSomeAnd, IsTrue, OnErr, OnOk, is_some, length, reverse};
ghost use Rattle.std.specs.Option.{option_map};
ghost use Rattle.vm_base.specs.Entries.{AreEntries, by_address, entered, entry_at, inherited, is_range, mapping, most_entries, parts_in, protected, removed};
ghost use Rattle.vm_base.specs.Entries.{rewritten};
ghost use Rattle.vm_maps.specs.Judge.{judged, looked_up};
ghost use Rattle.vm_maps.specs.Maps.{ChangesOnly, IsNewEntry, Remaps, entries_in, parts_for, rows_in, with_inherit, with_prot};
ghost use Rattle.vm_maps.specs.Rows.{becomes, changed_by};
ghost use Rattle.vm_maps.specs.declared.change.MapKind.TheVariants as kind;

use crate::judge::{judge_change, look_up};
use crate::rewrite::{put_entry, rewrite};
use crate::search::entry_at;
use crate::setting::set;
use crate::{MapChange, Place};
use indexmap::IndexMap;
use std::alloc::Global;
use std::marker::Model;
use vm_base::limits::MOST_ENTRIES;
use vm_base::{Access, Code, Entries, Entry, NoMemory, PageSize, TaskId};

/// The address maps of tasks: what `vm_allocate`, `vm_map`, `vm_deallocate`, `vm_protect` and
/// `vm_inherit` of the Mach 3 kernel interfaces do to a task's entries.
///
/// Contracts see the page size, and each task with its entries by rising address. The entries of a
/// task don't meet, are of whole pages, and are at most 256, which is this profile's limit. They
/// are cut at the ends of a range and never joined. A change first passes `judge`; the calls that
/// make it then fail for want of memory alone, and leave all as it was.
#[derive(Drop)]
pub struct Maps {
    alloc: Global,
    size: PageSize,
    tables: IndexMap<TaskId, Entries>,
}

impl Model for Maps {
    ghost use Rattle.vm_maps.specs.Maps.{Mapped};

    ghost Value = { Mapped };

    ghost use Rattle.vm_maps.specs.Tables.{AreTables, task_rows};

    ghost view = { λ m. record { size = m.size; tasks = task_rows m.tables.entries } };

    ghost invariant = { λ m. AreTables m.size m.tables.entries };
}

impl Maps {
    /// No task has a map.
    pub fn new(alloc: Global, size: PageSize) -> Maps
        ensures { result ≡ record { size = size; tasks = [] } }
    {
        Maps {
            alloc,
            size,
            tables: IndexMap::new(alloc),
        }
    }

    /// Makes room for `n` further entries in each task.
    ///
    /// There is nothing to do: `add_task` takes a task's whole table, of 256 entries, so that
    /// `enter` never wants memory.
    pub fn reserve(&mut self, n: u32) -> Result<(), NoMemory>
        ensures same { self.new ≡ self.old }
        ensures succeeds { IsOk result }
    {
        let _ = n;
        Ok(())
    }

    /// Makes the map of a task, without entries; it fails for want of memory alone.
    pub fn add_task(&mut self, task: TaskId) -> Result<(), NoMemory>
        requires { entries_in task.0 self.old ≡ None }
        ensures ok { OnOk result (ChangesOnly self.old self.new task.0 (Some [])) }
        ensures err { OnErr result (self.new ≡ self.old) }
    {
        let mut entries = Entries::new(self.alloc);
        entries.reserve(MOST_ENTRIES)?;
        self.tables.insert(task, entries)?;
        Ok(())
    }

    /// Ends the map of a task, and gives its entries by rising address.
    pub fn end_task(&mut self, task: TaskId) -> Entries
        requires { IsSome (entries_in task.0 self.old) }
        ensures entries { entries_in task.0 self.old ≡ Some (by_address result) }
        ensures ended { ChangesOnly self.old self.new task.0 None }
    {
        self.tables.swap_remove(&task).unwrap()
    }

    /// Whether a task has a map.
    pub fn has(&self, task: TaskId) -> bool
        ensures { result ≡ is_some (entries_in task.0 self.now) }
    {
        self.tables.contains_key(&task)
    }

    /// The entries of a task, by rising address.
    pub fn entries(&self, task: TaskId) -> &Entries
        requires { IsSome (entries_in task.0 self.now) }
        ensures value { entries_in task.0 self.now ≡ Some (by_address result.now) }
        ensures sound { AreEntries self.now.size (by_address result.now) }
    {
        &self.tables[&task]
    }

    /// The first of four tests that the change meets, if it meets one.
    ///
    /// In their order: `InvalidArgument` where the range isn't one of whole pages below 2^32,
    /// `InvalidAddress` where a page that is to be protected or inherited is in no entry, `NoSpace`
    /// where the range of a new entry isn't free, `TableFull` where the task would have more than
    /// 256 entries.
    pub fn judge(&self, task: TaskId, change: &MapChange) -> Option<Code>
        requires { IsSome (entries_in task.0 self.now) }
        ensures { result ≡ judged self.now.size change.now (rows_in task.0 self.now) }
    {
        judge_change(self.size, self.entries(task), change)
    }

    /// Makes the entry of an Enter. No entries are taken away, and it doesn't fail, since the
    /// task's table has room.
    pub fn enter(&mut self, task: TaskId, change: &MapChange) -> Result<Entries, NoMemory>
        requires there { IsSome (entries_in task.0 self.old) }
        requires kind { change.now.kind ≡ kind.Enter }
        requires judged { judged self.old.size change.now (rows_in task.0 self.old) ≡ None }
        requires entry { IsSomeAnd change.now.entry (IsNewEntry self.old.size change.now) }
        ensures succeeds { IsOk result }
        ensures taken { IfOk result (λ taken. taken.items ≡ []) }
        ensures changes { IfSome change.now.entry (λ row. ChangesOnly self.old self.new task.0
            (Some (entered row (rows_in task.0 self.old)))) }
        ensures mapped { IfSome change.now.entry (λ row. Remaps
            (λ at was. Some (mapping self.old.size at row)) self.old self.new task.0 change.now) }
    {
        let Some(entry) = change.entry else {
            unreachable!()
        };
        let table = self.tables.get_mut(&task).unwrap();
        put_entry(table, entry)?;
        Ok(Entries::new(self.alloc))
    }

    /// Takes the range out of the task's entries, which are cut at its ends.
    ///
    /// The entries taken away are the parts in the range, by rising address.
    pub fn remove(&mut self, task: TaskId, change: &MapChange) -> Result<Entries, NoMemory>
        requires there { IsSome (entries_in task.0 self.old) }
        requires kind { change.now.kind ≡ kind.Remove }
        requires judged { judged self.old.size change.now (rows_in task.0 self.old) ≡ None }
        ensures changes { OnOk result (ChangesOnly self.old self.new task.0 (Some
            (removed self.old.size change.now.address change.now.bytes (rows_in task.0 self.old)))) }
        ensures mapped { OnOk result (Remaps (λ at was. None)
            self.old self.new task.0 change.now) }
        ensures taken { IfOk result (λ taken.
            by_address taken ≡ parts_for self.old task.0 change.now) }
        ensures err { OnErr result (self.new ≡ self.old) }
    {
        self.rewrite(task, change)
    }

    /// Gives the range a protection; the entries are cut at its ends.
    ///
    /// The entries taken away are the parts in the range as they were, by rising address.
    pub fn protect(&mut self, task: TaskId, change: &MapChange) -> Result<Entries, NoMemory>
        requires there { IsSome (entries_in task.0 self.old) }
        requires kind { change.now.kind ≡ kind.Protect }
        requires judged { judged self.old.size change.now (rows_in task.0 self.old) ≡ None }
        ensures changes { OnOk result (ChangesOnly self.old self.new task.0 (Some
            (protected self.old.size
            change.now.address change.now.bytes change.now.prot (rows_in task.0 self.old)))) }
        ensures mapped { OnOk result (Remaps (λ at. option_map (with_prot change.now.prot))
            self.old self.new task.0 change.now) }
        ensures taken { IfOk result (λ taken.
            by_address taken ≡ parts_for self.old task.0 change.now) }
        ensures err { OnErr result (self.new ≡ self.old) }
    {
        self.rewrite(task, change)
    }

    /// Gives the range a protection as `protect` does, but in place: the task's table has room for
    /// its entries, so it doesn't fail.
    pub fn set_prot(&mut self, task: TaskId, change: &MapChange)
        requires there { IsSome (entries_in task.0 self.old) }
        requires kind { change.now.kind ≡ kind.Protect }
        requires judged { judged self.old.size change.now (rows_in task.0 self.old) ≡ None }
        ensures changes { ChangesOnly self.old self.new task.0 (Some
            (protected self.old.size
            change.now.address change.now.bytes change.now.prot (rows_in task.0 self.old))) }
        ensures mapped { Remaps (λ at. option_map (with_prot change.now.prot))
            self.old self.new task.0 change.now }
    {
        self.set(task, change);
    }

    /// Gives the range an inheritance; the entries are cut at its ends.
    ///
    /// The entries taken away are the parts in the range as they were, by rising address.
    pub fn inherit(&mut self, task: TaskId, change: &MapChange) -> Result<Entries, NoMemory>
        requires there { IsSome (entries_in task.0 self.old) }
        requires kind { change.now.kind ≡ kind.Inherit }
        requires judged { judged self.old.size change.now (rows_in task.0 self.old) ≡ None }
        ensures changes { OnOk result (ChangesOnly self.old self.new task.0 (Some
            (inherited self.old.size
            change.now.address change.now.bytes change.now.inherit (rows_in task.0 self.old)))) }
        ensures mapped { OnOk result (Remaps (λ at. option_map (with_inherit change.now.inherit))
            self.old self.new task.0 change.now) }
        ensures taken { IfOk result (λ taken.
            by_address taken ≡ parts_for self.old task.0 change.now) }
        ensures err { OnErr result (self.new ≡ self.old) }
    {
        self.rewrite(task, change)
    }

    /// Gives the range an inheritance as `inherit` does, but in place: the task's table has room for
    /// its entries, so it doesn't fail.
    pub fn set_inherit(&mut self, task: TaskId, change: &MapChange)
        requires there { IsSome (entries_in task.0 self.old) }
        requires kind { change.now.kind ≡ kind.Inherit }
        requires judged { judged self.old.size change.now (rows_in task.0 self.old) ≡ None }
        ensures changes { ChangesOnly self.old self.new task.0 (Some
            (inherited self.old.size
            change.now.address change.now.bytes change.now.inherit (rows_in task.0 self.old))) }
        ensures mapped { Remaps (λ at. option_map (with_inherit change.now.inherit))
            self.old self.new task.0 change.now }
    {
        self.set(task, change);
    }

    /// Where an access of an address leads in its region.
    ///
    /// `InvalidAddress` where no entry holds the address, and else `ProtectionFailure` where the
    /// entry doesn't allow the access: a store needs write, a load read.
    pub fn lookup(&self, task: TaskId, address: u64, need: Access) -> Result<Place, Code>
        requires { IsSome (entries_in task.0 self.now) }
        ensures { result ≡ looked_up self.now.size address need (rows_in task.0 self.now) }
    {
        look_up(self.size, self.entries(task), address, need)
    }

    /// The entry of a task that holds an address; None where none does.
    pub fn entry(&self, task: TaskId, address: u64) -> Option<Entry>
        requires { IsSome (entries_in task.0 self.now) }
        ensures { result ≡ entry_at address (rows_in task.0 self.now) }
    {
        entry_at(self.entries(task), address)
    }

    // Cuts a task's entries at the ends of the range, and changes what lies in it.
    fn rewrite(&mut self, task: TaskId, change: &MapChange) -> Result<Entries, NoMemory>
        requires there { IsSome (entries_in task.0 self.old) }
        requires range { IsTrue (is_range self.old.size change.now.address change.now.bytes) }
        requires few { length (rewritten (becomes change.now) self.old.size
            change.now.address change.now.bytes (rows_in task.0 self.old)) ≤ most_entries }
        ensures changes { OnOk result (ChangesOnly self.old self.new task.0 (Some
            (rewritten (becomes change.now) self.old.size
            change.now.address change.now.bytes (rows_in task.0 self.old)))) }
        ensures mapped { OnOk result (Remaps (λ at. changed_by change.now.kind change.now)
            self.old self.new task.0 change.now) }
        ensures taken { IfOk result (λ taken.
            by_address taken ≡ parts_for self.old task.0 change.now) }
        ensures err { OnErr result (self.new ≡ self.old) }
    {
        let made = rewrite(self.alloc, self.size, self.entries(task), change)?;
        let table = self.tables.get_mut(&task).unwrap();
        table.replace(made.from, made.to, made.kept)?;
        Ok(made.taken)
    }

    // Gives the range of a task's entries what a Protect or an Inherit says, in place.
    fn set(&mut self, task: TaskId, change: &MapChange)
        requires there { IsSome (entries_in task.0 self.old) }
        requires kind { (change.now.kind ≡ kind.Protect) ⊎ (change.now.kind ≡ kind.Inherit) }
        requires range { IsTrue (is_range self.old.size change.now.address change.now.bytes) }
        requires few { length (rewritten (becomes change.now) self.old.size
            change.now.address change.now.bytes (rows_in task.0 self.old)) ≤ most_entries }
        ensures changes { ChangesOnly self.old self.new task.0 (Some
            (rewritten (becomes change.now) self.old.size
            change.now.address change.now.bytes (rows_in task.0 self.old))) }
        ensures mapped { Remaps (λ at. changed_by change.now.kind change.now)
            self.old self.new task.0 change.now }
    {
        let table = self.tables.get_mut(&task).unwrap();
        set(self.size, table, change);
    }
}
