// Which pages of each object are in, and which of them are marked, by groups of 64 pages.
ghost use Rattle.std.specs.Prelude.{ℕ, ◌≡◌, ◌+◌, ◌*◌, ◌≤◌, ◌<◌, ◌/◌, ◌%◌, ◌^◌, Bool, false, true, MatchOption, OnOk, if◌then◌else◌};
ghost use Rattle.vm_sets.specs.Bits.{WritesBit};
ghost use Rattle.vm_sets.specs.Groups.{IsFirstAmong, IsFirstIn, IsFirstMarked, NoneAmong, NoneFrom, NoneMarkedFrom, PutsIn, PutsMark, bits_in, group_in};
ghost use Rattle.vm_sets.specs.Groups.{is_in, is_marked};

use crate::group_key::{GroupKey, group_of};
use indexmap::IndexMap;
use std::alloc::Global;
use std::marker::Model;
use vm_base::{NoMemory, ObjectId, PageKey, PageNo};

/// The pages of a group that are in, a bit for each, and those of them that are marked.
#[derive(Clone, Copy)]
pub struct Group {
    pub pages: u64,
    pub marked: u64,
}

const NO_PAGES: Group = Group {
    pages: 0,
    marked: 0,
};

/// A set of pages, some of them marked, which finds the first of an object from a page on, and the
/// first that is marked. Only `reserve` takes memory.
#[derive(Drop)]
pub struct PageGroups {
    // A group with no page is not kept.
    groups: IndexMap<GroupKey, Group>,
    // Each group that was ever kept is below.
    end: u32,
}

impl Model for PageGroups {
    ghost use Rattle.indexmap.specs.IndexMap.{spare};
    ghost use Rattle.vm_sets.specs.Groups.{AreBelow, PageSet};

    ghost Value = { PageSet };

    ghost view = { λ s. record { groups = s.groups.entries; spare = spare s.groups } };

    ghost invariant = { λ s. AreBelow s.end s.groups.entries };
}

impl PageGroups {
    /// No page is in.
    pub fn new(alloc: Global) -> PageGroups
        ensures pages { (object page : ℕ) → is_in result object page ≡ false }
        ensures marks { (object page : ℕ) → is_marked result object page ≡ false }
    {
        PageGroups {
            groups: IndexMap::new(alloc),
            end: 0,
        }
    }

    /// Makes room for so many further pages; it fails for want of memory alone.
    pub fn reserve(&mut self, n: u32) -> Result<(), NoMemory>
        ensures same { self.new.groups ≡ self.old.groups }
        ensures room { OnOk result (n ≤ self.new.spare) }
        ensures kept { self.old.spare ≤ self.new.spare }
    {
        self.groups.reserve(n as usize)?;
        Ok(())
    }

    // A group; one with no page where it is not kept.
    fn group(&self, key: GroupKey) -> Group
        ensures { result ≡ group_in self.now key.object.0 key.group }
    {
        self.groups.get(&key).copied().unwrap_or(NO_PAGES)
    }

    /// Puts in a page, marked or not, where there is room.
    pub fn insert(&mut self, key: PageKey, marked: bool)
        requires { 0 < self.old.spare }
        ensures pages { PutsIn key.object.0 key.page.0 true self.old self.new }
        ensures marks { PutsMark key.object.0 key.page.0 marked self.old self.new }
        ensures room { self.old.spare ≤ self.new.spare + 1 }
    {
        let at = group_of(key);
        if let Some(kept) = self.groups.get_mut(&at) {
            *kept = with_page(*kept, key.page, true, marked);
            return;
        }
        let group = with_page(NO_PAGES, key.page, true, marked);
        let _ = self.groups.insert(at, group);
        self.end = self.end.max(at.group + 1);
    }

    /// Marks a page that is in, or takes its mark away.
    pub fn mark(&mut self, key: PageKey, marked: bool)
        requires { is_in self.old key.object.0 key.page.0 ≡ true }
        ensures pages { (object page : ℕ) → is_in self.new object page ≡ is_in self.old object page }
        ensures marks { PutsMark key.object.0 key.page.0 marked self.old self.new }
        ensures room { self.new.spare ≡ self.old.spare }
    {
        let group = self.groups.get_mut(&group_of(key)).unwrap();
        *group = with_page(*group, key.page, true, marked);
    }

    /// Takes out a page.
    pub fn remove(&mut self, key: PageKey)
        ensures pages { PutsIn key.object.0 key.page.0 false self.old self.new }
        ensures marks { PutsMark key.object.0 key.page.0 false self.old self.new }
        ensures room { self.old.spare ≤ self.new.spare }
    {
        let at = group_of(key);
        let Some(kept) = self.groups.get_mut(&at) else {
            return;
        };
        let group = with_page(*kept, key.page, false, false);
        if group.pages == 0 && group.marked == 0 {
            let _ = self.groups.swap_remove(&at);
            return;
        }
        *kept = group;
    }

    /// The first page of an object that is in, from a page on.
    pub fn next(&self, object: ObjectId, from: PageNo) -> Option<PageNo>
        ensures { MatchOption result (NoneFrom self.now object.0 from.0)
            (λ page. IsFirstIn self.now object.0 from.0 page.0) }
    {
        self.first(object, from, false)
    }

    /// The first marked page of an object, from a page on.
    pub fn next_marked(&self, object: ObjectId, from: PageNo) -> Option<PageNo>
        ensures { MatchOption result (NoneMarkedFrom self.now object.0 from.0)
            (λ page. IsFirstMarked self.now object.0 from.0 page.0) }
    {
        self.first(object, from, true)
    }

    // The first page of an object from a page on, among the marked ones or among all.
    fn first(&self, object: ObjectId, from: PageNo, marked: bool) -> Option<PageNo>
        ensures { MatchOption result (NoneAmong marked self.now object.0 from.0)
            (λ page. IsFirstAmong marked self.now object.0 from.0 page.0) }
    {
        let mut group = from.0 / 64;
        let mut bits = self.bits(object, group, marked) & (u64::MAX << (from.0 % 64));
        'groups: while bits == 0 {
            group += 1;
            if group >= self.end {
                return None;
            }
            bits = self.bits(object, group, marked);
        }
        Some(PageNo(group * 64 + bits.trailing_zeros()))
    }

    // The bits of a group's marked pages, or of all that are in.
    fn bits(&self, object: ObjectId, group: u32, marked: bool) -> u64
        ensures { result ≡ bits_in marked (group_in self.now object.0 group) }
    {
        let group = self.group(GroupKey { object, group });
        if marked { group.marked } else { group.pages }
    }
}

// A group where a page is in or not, and marked or not.
fn with_page(group: Group, page: PageNo, now_in: bool, now_marked: bool) -> Group
    ensures { (marked : Bool) → WritesBit (page.0 % 64) (if marked then now_marked else now_in) (bits_in marked group) (bits_in marked result) }
{
    Group {
        pages: with_bit(group.pages, page, now_in),
        marked: with_bit(group.marked, page, now_marked),
    }
}

// Bits with that of a page set, or not.
fn with_bit(bits: u64, page: PageNo, set: bool) -> u64
    ensures { WritesBit (page.0 % 64) set bits result }
{
    let bit = 1 << (page.0 % 64);
    if set { bits | bit } else { bits & !bit }
}
