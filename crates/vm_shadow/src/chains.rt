// The regions of a host, and the shadows under them.
ghost use Rattle.std.specs.List.{count_by};
ghost use Rattle.std.specs.Option.{option_map};
ghost use Rattle.std.specs.Prelude.{ℕ, ◌≡◌, ◌≢◌, ◌+◌, ◌-◌, ◌==◌, ◌<◌, ◌≤◌, ◌^◌, min, Some, None, false, true, if◌then◌else◌, IfNone, IfOk, IfSome, IsOk};
ghost use Rattle.std.specs.Prelude.{IsSome, IsSomeAnd};
ghost use Rattle.std.specs.Prelude.{OnErr, OnOk};
ghost use Rattle.vm_shadow.specs.Chains.{BacksNone, CopiesRegion, DropsShadow, IsDeep, IsOnlyShadow, IsOnlyTop, IsRanked, ObjectsBelow, PutsRegion};
ghost use Rattle.vm_shadow.specs.Chains.{Rebases, RegionsBelow, SameChains, ShadowsRegion, StandsAlone};
ghost use Rattle.vm_shadow.specs.Chains.{MergesShadow, height, place_under, references_in, region_at, shadow_at};

use crate::{Ids, RegionRow, ShadowRow, Tallies};
use indexmap::IndexMap;
use std::alloc::Global;
use std::marker::Model;
use vm_base::{NoMemory, ObjectId, PageKey, PageNo, RegionId};

// Where more regions are marked, a copy, which marks two at most, could make too many to be counted.
const MOST_MARKED: u32 = u32::MAX - 2;

/// The regions of a host, and the shadows of their chains. Contracts see each region with its row,
/// what stands under each object that is a shadow, the number of regions that are marked, and the
/// number of further regions and shadows together that are made without memory.
///
/// Only `reserve`, `make_region`, `symmetric` and `shadow_over` take memory. A region stays until it
/// is dropped, and only one to which no entry leads can be dropped; what stands under an object stays
/// until the object is dropped. Each chain ends: a rank falls along it.
#[derive(Drop)]
pub struct Chains {
    regions: IndexMap<RegionId, RegionRow>,
    // What stands under each object that is a shadow.
    shadows: IndexMap<ObjectId, ShadowRow>,
    // How many shadows stand on each object.
    overs: Tallies,
    // So many regions are marked.
    marked: u32,
}

impl Model for Chains {
    ghost use Rattle.std.specs.Prelude.{◌-◌, ◌/◌, ◌^◌, min};
    ghost use Rattle.indexmap.specs.IndexMap.{spare};
    ghost use Rattle.vm_shadow.specs.Chains.{ChainTable};
    ghost use Rattle.vm_shadow.specs.Kept.{AreKept};
    ghost use Rattle.vm_shadow.specs.Standing.{tally_at};

    ghost Value = { ChainTable };

    ghost view = { λ s. record {
      regions = s.regions.entries;
      shadows = s.shadows.entries;
      marked = s.marked;
      spare = min (min (min (spare s.regions) (spare s.shadows)) s.overs.spare) ((2 ^ 32 - 1 - s.marked) / 2);
    } };

    ghost invariant = { λ s. AreKept (tally_at s.overs) (record {
      regions = s.regions.entries;
      shadows = s.shadows.entries;
      marked = s.marked;
      spare = min (min (min (spare s.regions) (spare s.shadows)) s.overs.spare) ((2 ^ 32 - 1 - s.marked) / 2);
    }) };
}

impl Chains {
    /// No region and no shadow is there yet.
    pub fn new(alloc: Global) -> Chains
        ensures regions { (r : ℕ) → region_at result r ≡ None }
        ensures shadows { (o : ℕ) → shadow_at result o ≡ None }
        ensures marked { result.marked ≡ 0 }
    {
        Chains {
            regions: IndexMap::new(alloc),
            shadows: IndexMap::new(alloc),
            overs: Tallies::new(alloc),
            marked: 0,
        }
    }

    /// Makes room for so many further regions and shadows together; it fails for want of memory
    /// alone.
    pub fn reserve(&mut self, rows: u32) -> Result<(), NoMemory>
        ensures same { (region_at self.new ≡ region_at self.old) × (shadow_at self.new ≡ shadow_at self.old) }
        ensures lists { (self.new.regions ≡ self.old.regions) × (self.new.shadows ≡ self.old.shadows) }
        ensures marked { self.new.marked ≡ self.old.marked }
        ensures room { OnOk result (rows ≤ self.new.spare) }
        ensures kept { self.old.spare ≤ self.new.spare }
        ensures succeeds { rows ≤ self.old.spare → IsOk result }
    {
        if (u32::MAX - self.marked) / 2 < rows {
            return Err(NoMemory);
        }
        self.regions.reserve(rows as usize)?;
        self.shadows.reserve(rows as usize)?;
        self.overs.reserve(rows)?;
        Ok(())
    }

    /// How many regions are marked.
    pub fn marked(&self) -> u32
        ensures { result ≡ self.now.marked }
    {
        self.marked
    }

    /// Makes a region that isn't there; it fails for want of memory alone.
    pub fn make_region(&mut self, region: RegionId, row: RegionRow) -> Result<(), NoMemory>
        requires { region_at self.old region.0 ≡ None }
        ensures ok { OnOk result (PutsRegion region.0 (Some row) self.old self.new) }
        ensures marked { OnOk result (self.new.marked ≡ self.old.marked + (if row.marked then 1 else 0)) }
        ensures err { OnErr result (SameChains self.old self.new) }
        ensures succeeds { 0 < self.old.spare → IsOk result }
        ensures spare { self.old.spare ≤ self.new.spare + 1 }
    {
        if self.marked > MOST_MARKED {
            return Err(NoMemory);
        }
        self.regions.insert(region, row)?;
        self.marked += if row.marked { 1 } else { 0 };
        Ok(())
    }

    /// The row of a region; None where the region isn't there.
    pub fn region(&self, region: RegionId) -> Option<RegionRow>
        ensures row { result ≡ region_at self.now region.0 }
        ensures marked { IfSome result (λ row. row.marked ≡ true → 0 < self.now.marked) }
    {
        self.regions.get(&region).copied()
    }

    /// Sets the number of entries that lead to a region.
    pub fn set_entries(&mut self, region: RegionId, entries: u32)
        requires { IsSome (region_at self.old region.0) }
        ensures row { IfSome (region_at self.old region.0) (λ row.
            PutsRegion region.0 (Some (record row { entries = entries })) self.old self.new) }
        ensures marked { self.new.marked ≡ self.old.marked }
        ensures spare { self.new.spare ≡ self.old.spare }
    {
        let row = self.regions.get_mut(&region).unwrap();
        row.entries = entries;
    }

    /// What stands under an object; None where it is no shadow.
    pub fn backing(&self, object: ObjectId) -> Option<ShadowRow>
        ensures value { result ≡ shadow_at self.now object.0 }
        ensures ranked { IsRanked self.now }
        ensures falls { IfSome result (λ row. height self.now row.under.0 + 1 ≡ height self.now object.0) }
        ensures few { (o : ℕ) → height self.now o + 1 < 2 ^ 32 }
    {
        self.shadows.get(&object).copied()
    }

    /// The page under a page of a shadow, one step down the chain; None where its object is no shadow.
    pub fn below(&self, key: PageKey) -> Option<PageKey>
        requires { IfSome (shadow_at self.now key.object.0) (λ row. key.page.0 + row.shift < 2 ^ 32) }
        ensures value { result ≡ place_under (shadow_at self.now key.object.0) key.page.0 }
        ensures falls { IfSome result (λ under. height self.now under.object.0 + 1 ≡ height self.now key.object.0) }
    {
        let row = self.backing(key.object)?;
        Some(PageKey {
            object: row.under,
            page: PageNo(key.page.0 + row.shift),
        })
    }

    /// Makes a symmetric copy of so many pages of a region, from one of its pages on: a new region
    /// over the same object, to which no entry leads yet. Both are marked, so whoever writes to one of
    /// them shadows it first. It fails for want of memory alone.
    pub fn symmetric(
        &mut self,
        source: RegionId,
        offset: u32,
        pages: u32,
        ids: &mut Ids,
    ) -> Result<RegionId, NoMemory>
        requires there { IsSomeAnd (region_at self.old source.0) (λ row. offset + pages ≤ row.pages) }
        requires shift { IfSome (region_at self.old source.0) (λ row. row.shift + offset < 2 ^ 32) }
        requires below { RegionsBelow ids.old.next_region self.old }
        requires regions { ids.old.next_region + 1 < 2 ^ 32 }
        requires marks { ids.old.marks + 2 < 2 ^ 32 }

        ensures copy { IfOk result (λ copy. copy.0 ≡ ids.old.next_region) }
        ensures ok { OnOk result (IfSome (region_at self.old source.0) (λ row.
            CopiesRegion source.0 ids.old.next_region offset pages row self.old self.new)) }
        ensures marked { OnOk result (IfSome (region_at self.old source.0) (λ row.
            self.new.marked ≡ self.old.marked + (if row.marked then 1 else 2))) }
        ensures ids { OnOk result (IfSome (region_at self.old source.0) (λ row. ids.new ≡ record ids.old {
          next_region = ids.old.next_region + 1;
          marks = ids.old.marks + (if row.marked then 1 else 2);
        })) }

        ensures err { OnErr result (SameChains self.old self.new) }
        ensures same_ids { OnErr result (ids.new ≡ ids.old) }
        ensures succeeds { 0 < self.old.spare → IsOk result }
        ensures spare { self.old.spare ≤ self.new.spare + 1 }
    {
        let row = self.regions[&source];
        let copy = RegionId(ids.next_region);
        let shared = RegionRow {
            shift: row.shift + offset,
            pages,
            marked: true,
            entries: 0,
            ..row
        };
        if self.marked > MOST_MARKED {
            return Err(NoMemory);
        }
        self.regions.insert(copy, shared)?;
        let copied = self.regions.get_mut(&source).unwrap();
        copied.marked = true;
        self.marked += if row.marked { 1 } else { 2 };
        ids.next_region += 1;
        ids.marks += if row.marked { 1 } else { 2 };
        Ok(copy)
    }

    /// Gives a marked region a new object of its own, a shadow over its old top. It fails for want of
    /// memory alone.
    pub fn shadow_over(&mut self, region: RegionId, ids: &mut Ids) -> Result<ObjectId, NoMemory>
        requires marked { IsSomeAnd (region_at self.old region.0) (λ row. row.marked ≡ true) }
        requires below { ObjectsBelow ids.old.next_object self.old }
        requires objects { ids.old.next_object + 1 < 2 ^ 32 }
        requires marks { 0 < ids.old.marks }

        ensures object { IfOk result (λ object. object.0 ≡ ids.old.next_object) }
        ensures ok { IfOk result (λ object. IfSome (region_at self.old region.0) (λ row.
            ShadowsRegion region.0 object row self.old self.new)) }
        ensures marked { OnOk result (self.new.marked + 1 ≡ self.old.marked) }
        ensures ids { OnOk result (ids.new ≡ record ids.old {
          next_object = ids.old.next_object + 1;
          marks = ids.old.marks - 1;
        }) }

        ensures err { OnErr result (SameChains self.old self.new) }
        ensures same_ids { OnErr result (ids.new ≡ ids.old) }
        ensures succeeds { 0 < self.old.spare → IsOk result }
        ensures spare { self.old.spare ≤ self.new.spare + 1 }
    {
        let row = self.regions[&region];
        let object = ObjectId(ids.next_object);
        let under = ShadowRow {
            under: row.top,
            shift: row.shift,
        };
        self.overs.reserve(1)?;
        self.shadows.insert(object, under)?;
        self.overs.add(object, row.top);
        let shadowed = self.regions.get_mut(&region).unwrap();
        shadowed.top = object;
        shadowed.shift = 0;
        shadowed.marked = false;
        self.marked -= 1;
        ids.next_object += 1;
        ids.marks -= 1;
        Ok(object)
    }

    /// Lets an object stand on another, without a shift. It fails for want of memory alone. A copy object
    /// is made so over the file that it is a copy of.
    pub fn stand(&mut self, object: ObjectId, under: ObjectId) -> Result<(), NoMemory>
        requires bottom { shadow_at self.old object.0 ≡ None }
        requires bare { BacksNone object.0 self.old }
        requires apart { object.0 ≢ under.0 }
        requires low { (object.0 + 1 < 2 ^ 32) × (under.0 + 1 < 2 ^ 32) }
        ensures ok { OnOk result (Rebases object.0 under self.old self.new) }
        ensures marked { OnOk result (self.new.marked ≡ self.old.marked) }
        ensures ranked { IsRanked self.new }
        ensures err { OnErr result (SameChains self.old self.new) }
        ensures succeeds { 0 < self.old.spare → IsOk result }
        ensures spare { self.old.spare ≤ self.new.spare + 1 }
    {
        self.overs.reserve(1)?;
        self.shadows.insert(object, ShadowRow { under, shift: 0 })?;
        self.overs.add(object, under);
        Ok(())
    }

    /// Lets an object stand on a newer one that stands on the same object, both without a shift. It
    /// takes no memory.
    pub fn rebase(&mut self, older: ObjectId, newer: ObjectId)
        requires apart { older.0 ≢ newer.0 }
        requires same { shadow_at self.old older.0 ≡ shadow_at self.old newer.0 }
        requires over { IsSomeAnd (shadow_at self.old newer.0) (λ row. row.shift ≡ 0) }
        requires bare { BacksNone newer.0 self.old }
        ensures rebases { Rebases older.0 newer self.old self.new }
        ensures marked { self.new.marked ≡ self.old.marked }
        ensures ranked { IsRanked self.new }
        ensures spare { self.old.spare ≤ self.new.spare }
    {
        let base = self.shadows[&newer].under;
        self.overs.remove(older, base);
        self.overs.add(older, newer);
        let moved = self.shadows.get_mut(&older).unwrap();
        moved.under = newer;
    }

    /// Takes the mark off a region whose top object nothing else refers to: whoever writes to it writes
    /// into the object itself. It takes no memory.
    pub fn unmark(&mut self, region: RegionId, ids: &mut Ids)
        requires marked { IsSomeAnd (region_at self.old region.0) (λ row. row.marked ≡ true) }
        requires alone { IfSome (region_at self.old region.0) (λ row. IsOnlyTop region.0 row.top.0 self.old) }
        requires marks { 0 < ids.old.marks }
        ensures unmarks { IfSome (region_at self.old region.0) (λ row.
            PutsRegion region.0 (Some (record row { marked = false })) self.old self.new) }
        ensures marked { self.new.marked + 1 ≡ self.old.marked }
        ensures ids { ids.new ≡ record ids.old { marks = ids.old.marks - 1 } }
        ensures spare { self.old.spare ≤ self.new.spare }
    {
        let unmarked = self.regions.get_mut(&region).unwrap();
        unmarked.marked = false;
        ids.marks -= 1;
        self.marked -= 1;
    }

    /// Merges an object into the shadow that is its one reference: what stood under it stands under the
    /// shadow now, by the sum of both shifts, and nothing stands under it any more. It takes no memory.
    pub fn merge(&mut self, upper: ObjectId, lower: ObjectId)
        requires over { IsSomeAnd (shadow_at self.old upper.0) (λ row. row.under ≡ lower) }
        requires alone { IsOnlyShadow upper.0 lower.0 self.old }
        requires shift { IfSome (shadow_at self.old upper.0) (λ up. IfSome (shadow_at self.old lower.0) (λ low. up.shift + low.shift < 2 ^ 32)) }
        ensures merges { IfSome (shadow_at self.old upper.0) (λ up. MergesShadow upper.0 lower.0 up self.old self.new) }
        ensures marked { self.new.marked ≡ self.old.marked }
        ensures spare { self.old.spare ≤ self.new.spare }
    {
        self.overs.remove(upper, lower);
        let Some(low) = self.shadows.swap_remove(&lower) else {
            let _ = self.shadows.swap_remove(&upper);
            return;
        };
        self.overs.replace(lower, upper, low.under);
        let up = self.shadows.get_mut(&upper).unwrap();
        up.under = low.under;
        up.shift += low.shift;
    }

    /// How many regions have an object as their top, and how many objects it backs, in all; the greatest
    /// number of 32 bits where they are more. It looks at all regions and shadows of the host.
    pub fn references(&self, object: ObjectId) -> u32
        ensures { result ≡ min (references_in self.now object.0) (2 ^ 32 - 1) }
    {
        let tops = tops_at(self.regions.values().as_slice(), object);
        let backed = unders_at(self.shadows.values().as_slice(), object);
        u32::try_from(tops + backed).unwrap_or(u32::MAX)
    }

    /// The one shadow that stands on an object; None where none does, or several do. It looks at no other
    /// shadow.
    pub fn sole_shadow(&self, object: ObjectId) -> Option<ObjectId>
        ensures alone { IfSome result (λ upper. StandsAlone upper.0 object.0 self.now) }
        ensures none { IfNone result ((upper : ℕ) → StandsAlone upper object.0 self.now → ⊥) }
    {
        self.overs.sole(object)
    }

    /// Drops a region to which no entry leads, and gives its top object.
    pub fn drop_region(&mut self, region: RegionId) -> ObjectId
        requires { IsSomeAnd (region_at self.old region.0) (λ row. row.entries ≡ 0) }
        ensures top { IfSome (region_at self.old region.0) (λ row. result ≡ row.top) }
        ensures dropped { PutsRegion region.0 None self.old self.new }
        ensures marked { IfSome (region_at self.old region.0) (λ row.
            self.new.marked + (if row.marked then 1 else 0) ≡ self.old.marked) }
        ensures spare { self.old.spare ≤ self.new.spare }
    {
        let row = self.regions.swap_remove(&region).unwrap();
        self.marked -= if row.marked { 1 } else { 0 };
        row.top
    }

    /// Forgets what stands under an object that goes, and gives the object under it; None where it is no
    /// shadow. Whoever drops an object sees to it that no region and no other object is over it.
    pub fn drop_object(&mut self, object: ObjectId) -> Option<ObjectId>
        ensures under { result ≡ option_map (λ row. row.under) (shadow_at self.old object.0) }
        ensures dropped { DropsShadow object.0 self.old self.new }
        ensures marked { self.new.marked ≡ self.old.marked }
        ensures spare { self.old.spare ≤ self.new.spare }
    {
        let row = self.shadows.swap_remove(&object)?;
        self.overs.remove(object, row.under);
        Some(row.under)
    }

    /// The number of objects in the chain of a region, from its top down.
    pub fn depth(&self, region: RegionId) -> u32
        requires { IsSome (region_at self.now region.0) }
        ensures { IfSome (region_at self.now region.0) (λ row. IsDeep self.now row.top.0 result) }
    {
        let mut object = self.regions[&region].top;
        let mut depth = 1;
        'down: while let Some(row) = self.backing(object) {
            object = row.under;
            depth += 1;
        }
        depth
    }
}

// How many regions have the object as their top.
fn tops_at(rows: &[RegionRow], object: ObjectId) -> usize
    ensures { result ≡ count_by (λ row. row.top.0 == object.0) rows.now }
{
    rows.iter().filter(|row| row.top == object).count()
}

// How many shadows stand on the object.
fn unders_at(rows: &[ShadowRow], object: ObjectId) -> usize
    ensures { result ≡ count_by (λ row. row.under.0 == object.0) rows.now }
{
    rows.iter().filter(|row| row.under == object).count()
}
