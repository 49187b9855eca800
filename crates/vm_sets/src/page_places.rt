// Where pages of each object stand in a list, with marks of them, by groups of 64 pages.
ghost use Rattle.std.specs.Prelude.{ℕ, ◌≡◌, ◌+◌, ◌-◌, ◌≤◌, ◌<◌, ◌^◌, None, true, false, IsOk, IsSome, MatchOption, OnOk, bit_and, slice_index};
ghost use Rattle.vm_sets.specs.Bits.{WritesBit};
ghost use Rattle.vm_sets.specs.Places.{IsLowest, IsNextPlace, IsWalk, Marks, NoMarkFrom, PutsPlace, Touches, all_marks, end_of, from_of, object_of, pages_in, place_in, word_in};

use crate::group_key::{GroupKey, group_of};
use indexmap::IndexMap;
use std::alloc::Global;
use std::marker::Model;
use vm_base::{NoMemory, ObjectId, PageKey, PageNo};

/// How many marks a page can have besides: the numbers of these are below it, and it is itself that
/// of the mark which each page has that stands in the list.
pub const ALL: u32 = 9;

const WORDS: usize = ALL as usize + 1;

/// What is known of a group of pages.
#[derive(Clone, Copy)]
pub struct Group {
    // For each mark, a bit for each page that has it.
    words: [u64; WORDS],
    // Where the pages stand.
    places: [u32; 64],
}

impl Group {
    // No page of it stands in the list.
    const NONE: Group = Group {
        words: [0; WORDS],
        places: [0; 64],
    };

    // Sets all marks of a page.
    fn touch(&mut self, slot: u32)
        requires { slot < 64 }
        ensures words { (k : ℕ) → k ≤ all_marks → WritesBit slot true (slice_index self.old.words k) (slice_index self.new.words k) }
        ensures places { self.new.places ≡ self.old.places }
    {
        for word in self.words.iter_mut() {
            *word |= 1 << slot;
        }
    }

    // Puts a page at a place, with all marks.
    fn put(&mut self, slot: u32, at: u32)
        requires { slot < 64 }
        ensures words { (k : ℕ) → k ≤ all_marks → WritesBit slot true (slice_index self.old.words k) (slice_index self.new.words k) }
        ensures there { slice_index self.new.places slot ≡ at }
        ensures others { (i : ℕ) → (i ≡ slot → ⊥) → slice_index self.new.places i ≡ slice_index self.old.places i }
    {
        self.touch(slot);
        self.places[slot as usize] = at;
    }

    // Takes a mark off a page.
    fn unmark(&mut self, mark: u32, slot: u32)
        requires mark { mark ≤ all_marks }
        requires slot { slot < 64 }
        ensures word { WritesBit slot false (slice_index self.old.words mark) (slice_index self.new.words mark) }
        ensures others { (k : ℕ) → (k ≡ mark → ⊥) → slice_index self.new.words k ≡ slice_index self.old.words k }
        ensures places { self.new.places ≡ self.old.places }
    {
        self.words[mark as usize] &= !(1 << slot);
    }
}

/// What is known of an object: how many of its pages stand in the list, and a number above those of
/// their groups.
#[derive(Clone, Copy)]
pub struct ObjectPages {
    pages: u32,
    end: u32,
}

/// A page, and where it stands.
#[derive(Clone, Copy)]
pub struct Place {
    pub key: PageKey,
    pub at: u32,
}

/// How far a walk over the pages of an object has come.
#[derive(Clone, Copy)]
pub struct Walk {
    object: ObjectId,
    // The object's groups are below.
    end: u32,
    // The page that comes next, if it is one.
    from: u64,
}

/// The place of each of some pages in a list, with marks of them: of an object, the pages that have
/// a mark are found by rising number, a word for each 64. Only `reserve` takes memory.
#[derive(Drop)]
pub struct PagePlaces {
    groups: IndexMap<GroupKey, Group>,
    objects: IndexMap<ObjectId, ObjectPages>,
}

impl Model for PagePlaces {
    ghost use Rattle.std.specs.Prelude.{min};
    ghost use Rattle.indexmap.specs.IndexMap.{spare};
    ghost use Rattle.vm_sets.specs.Places.{AreGrouped, PlaceTable};

    ghost Value = { PlaceTable };

    ghost view = { λ s. record {
      groups = s.groups.entries;
      objects = s.objects.entries;
      spare = min (spare s.groups) (spare s.objects);
    } };

    ghost invariant = { λ s. AreGrouped s.groups.entries s.objects.entries };
}

impl PagePlaces {
    /// No page stands in the list.
    pub fn new(alloc: Global) -> PagePlaces
        ensures places { (object page : ℕ) → place_in result object page ≡ None }
        ensures pages { (object : ℕ) → pages_in result object ≡ 0 }
    {
        PagePlaces {
            groups: IndexMap::new(alloc),
            objects: IndexMap::new(alloc),
        }
    }

    /// Makes room for a further page; it fails for want of memory alone.
    pub fn reserve(&mut self) -> Result<(), NoMemory>
        ensures groups { self.new.groups ≡ self.old.groups }
        ensures objects { self.new.objects ≡ self.old.objects }
        ensures room { OnOk result (0 < self.new.spare) }
        ensures succeeds { 0 < self.old.spare → IsOk result }
    {
        self.groups.reserve(1)?;
        self.objects.reserve(1)?;
        Ok(())
    }

    /// The place of a page.
    pub fn get(&self, key: PageKey) -> Option<u32>
        ensures { result ≡ place_in self.now key.object.0 key.page.0 }
    {
        let group = self.groups.get(&group_of(key))?;
        let slot = key.page.0 % 64;
        if (group.words[ALL as usize] >> slot) % 2 == 0 {
            return None;
        }
        Some(group.places[slot as usize])
    }

    /// Puts a page that didn't stand in the list at a place, with all marks, where there is room.
    pub fn put(&mut self, key: PageKey, at: u32)
        requires room { 0 < self.old.spare }
        requires absent { place_in self.old key.object.0 key.page.0 ≡ None }
        requires few { pages_in self.old key.object.0 < 2 ^ 32 - 1 }
        ensures { PutsPlace key at self.old self.new }
    {
        let was = self.object(key.object);
        let group_key = group_of(key);
        let slot = key.page.0 % 64;
        let mut group = self.groups.get(&group_key).copied().unwrap_or(Group::NONE);
        group.put(slot, at);
        let _ = self.groups.insert(group_key, group);
        let now = ObjectPages {
            pages: was.pages + 1,
            end: was.end.max(group_key.group + 1),
        };
        let _ = self.objects.insert(key.object, now);
    }

    /// Sets all marks of a page that stands in the list.
    pub fn touch(&mut self, key: PageKey)
        requires { IsSome (place_in self.old key.object.0 key.page.0) }
        ensures { Touches key self.old self.new }
    {
        let group = self.groups.get_mut(&group_of(key)).unwrap();
        group.touch(key.page.0 % 64);
    }

    /// Takes a mark off a page that stands in the list.
    pub fn unmark(&mut self, mark: u32, key: PageKey)
        requires mark { mark < all_marks }
        requires placed { IsSome (place_in self.old key.object.0 key.page.0) }
        ensures { Marks mark key false self.old self.new }
    {
        let group = self.groups.get_mut(&group_of(key)).unwrap();
        group.unmark(mark, key.page.0 % 64);
    }

    // What is known of an object.
    fn object(&self, object: ObjectId) -> ObjectPages
        ensures pages { result.pages ≡ pages_in self.now object.0 }
        ensures end { result.end ≡ end_of object.0 self.now.objects }
    {
        match self.objects.get(&object) {
            Some(known) => *known,
            None => ObjectPages { pages: 0, end: 0 },
        }
    }

    /// How many pages of an object stand in the list.
    pub fn count(&self, object: ObjectId) -> u32
        ensures { result ≡ pages_in self.now object.0 }
    {
        self.object(object).pages
    }

    // The first page of a group with a mark, of those whose bits are set in the mask.
    fn first_in(&self, mark: u32, key: GroupKey, mask: u64) -> Option<Place>
        requires mark { mark ≤ all_marks }
        requires low { key.group < 2 ^ 26 }
        ensures { MatchOption result (bit_and (word_in self.now mark key.object.0 key.group) mask ≡ 0)
            (λ place. IsLowest self.now key (bit_and (word_in self.now mark key.object.0 key.group) mask) place) }
    {
        let group = self.groups.get(&key)?;
        let bits = group.words[mark as usize] & mask;
        if bits == 0 {
            return None;
        }
        let slot = bits.trailing_zeros();
        let page = PageKey {
            object: key.object,
            page: PageNo(key.group * 64 + slot),
        };
        Some(Place {
            key: page,
            at: group.places[slot as usize],
        })
    }

    /// The beginning of a walk over the pages of an object.
    pub fn walk(&self, object: ObjectId) -> Walk
        ensures object { object_of result ≡ object }
        ensures from { from_of result ≡ 0 }
        ensures end { IsWalk self.now result }
    {
        let end = self.object(object).end;
        Walk {
            object,
            end,
            from: 0,
        }
    }

    /// The next page with a mark to which a walk comes.
    pub fn next(&self, mark: u32, walk: &mut Walk) -> Option<Place>
        requires mark { mark ≤ all_marks }
        requires walk { IsWalk self.now walk.old }
        ensures object { object_of walk.new ≡ object_of walk.old }
        ensures walk { IsWalk self.now walk.new }
        ensures place { MatchOption result (NoMarkFrom self.now mark (object_of walk.old).0 (from_of walk.old))
            (λ place. IsNextPlace self.now mark (object_of walk.old) (from_of walk.old) place × (from_of walk.new ≡ place.key.page.0 + 1)) }
    {
        let place = self.seek(mark, walk)?;
        walk.from = u64::from(place.key.page.0) + 1;
        Some(place)
    }

    // The next page with a mark to which a walk comes; it stays where it is.
    fn seek(&self, mark: u32, walk: &Walk) -> Option<Place>
        requires mark { mark ≤ all_marks }
        requires walk { IsWalk self.now walk.now }
        ensures { MatchOption result (NoMarkFrom self.now mark (object_of walk.now).0 (from_of walk.now))
            (λ place. IsNextPlace self.now mark (object_of walk.now) (from_of walk.now) place) }
    {
        let _ = &self.groups;
        if walk.from / 64 >= u64::from(walk.end) {
            return None;
        }
        let object = walk.object;
        let mut group = (walk.from / 64) as u32;
        let mut mask = u64::MAX << (walk.from % 64);
        'groups: loop {
            if let Some(place) = self.first_in(mark, GroupKey { object, group }, mask) {
                return Some(place);
            }
            group += 1;
            if group >= walk.end {
                return None;
            }
            mask = u64::MAX;
        }
    }
}
