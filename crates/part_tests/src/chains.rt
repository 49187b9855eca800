// Each call once. Of a chain of two the values are worked out by hand.
ghost use Rattle.std.specs.Prelude.{◌≡◌, ◌<◌, IfOk, OnOk};
ghost use Rattle.part_tests.specs.Numbering.{AreNumbered};

use crate::shows::shows;
use std::alloc::Global;
use std::test::Fail;
use vm_base::{NoMemory, ObjectId, PageKey, PageNo, RegionId};
use vm_shadow::{Chains, Ids, RegionRow, ShadowRow};

const FIRST: RegionId = RegionId(5);

const FOUR_PAGES: RegionRow = RegionRow {
    top: ObjectId(9),
    shift: 2,
    pages: 4,
    marked: false,
    entries: 0,
};

// A host on which one region is: four pages of object 9, from its page 2 on.
fn first(alloc: Global, ids: Ids) -> Result<Chains, NoMemory>
    requires region { 5 < ids.next_region }
    requires object { 9 < ids.next_object }
    ensures { IfOk result (AreNumbered ids) }
{
    let mut chains = Chains::new(alloc);
    chains.make_region(FIRST, FOUR_PAGES)?;
    Ok(chains)
}

#[test]
fn regions(rt: HostRuntime) -> Result<(), Fail> {
    let mut chains = Chains::new(rt.alloc());
    chains.make_region(FIRST, FOUR_PAGES)?;
    chains.set_entries(FIRST, 0);
    shows(&rt, chains.region(FIRST) == Some(FOUR_PAGES));
    shows(&rt, chains.drop_region(FIRST) == ObjectId(9));
    chains.reserve(1)?;
    shows(&rt, chains.region(FIRST).is_none());
    Ok(())
}

// Pages 1 and 2 of the first region are copied.
fn copy(chains: &mut Chains, ids: &mut Ids) -> Result<RegionId, Fail>
    requires { AreNumbered ids.old chains.old }
    ensures { OnOk result (AreNumbered ids.new chains.new) }
{
    let Some(row) = chains.region(FIRST) else {
        return Err(Fail::from("no region"));
    };
    if row.pages != 4 || row.shift > 100 || ids.next_region > 100 || ids.marks > 100 {
        return Err(Fail::from("another region"));
    }
    let copy = chains.symmetric(FIRST, 1, 2, ids)?;
    Ok(copy)
}

// A marked region gets an object of its own.
fn shadow(chains: &mut Chains, ids: &mut Ids, region: RegionId) -> Result<ObjectId, Fail>
    requires { AreNumbered ids.old chains.old }
    ensures { OnOk result (AreNumbered ids.new chains.new) }
{
    let Some(row) = chains.region(region) else {
        return Err(Fail::from("no region"));
    };
    if !row.marked || ids.marks == 0 || ids.next_object > 100 {
        return Err(Fail::from("not marked"));
    }
    let object = chains.shadow_over(region, ids)?;
    Ok(object)
}

fn depth(chains: &Chains, region: RegionId) -> u32 {
    match chains.region(region) {
        Some(_) => chains.depth(region),
        None => 0,
    }
}

// The page one step down from page 3 of an object.
fn below(chains: &Chains, object: ObjectId) -> Option<PageKey> {
    match chains.backing(object) {
        Some(row) if row.shift < 100 => chains.below(PageKey {
            object,
            page: PageNo(3),
        }),
        _ => None,
    }
}

#[test]
fn shadowed(rt: HostRuntime) -> Result<(), Fail> {
    let mut ids = Ids {
        next_object: 10,
        next_region: 6,
        marks: 0,
    };
    let mut chains = first(rt.alloc(), ids)?;
    // Region 6 is of object 9 from its page 3 on. Object 10 is over object 9 from page 2 on, where region 5 began.
    shows(&rt, copy(&mut chains, &mut ids)? == RegionId(6));
    shows(&rt, shadow(&mut chains, &mut ids, FIRST)? == ObjectId(10));
    shows(&rt, chains.sole_shadow(ObjectId(9)) == Some(ObjectId(10)));
    shows(
        &rt,
        depth(&chains, FIRST) == 2 && depth(&chains, RegionId(6)) == 1 && chains.marked() == 1,
    );
    let place = PageKey {
        object: ObjectId(9),
        page: PageNo(5),
    };
    shows(&rt, below(&chains, ObjectId(10)) == Some(place));
    // Object 11 is over object 9 too.
    shows(
        &rt,
        shadow(&mut chains, &mut ids, RegionId(6))? == ObjectId(11),
    );
    shows(&rt, chains.sole_shadow(ObjectId(9)).is_none());
    shows(&rt, chains.drop_object(ObjectId(10)) == Some(ObjectId(9)));
    shows(&rt, chains.sole_shadow(ObjectId(9)) == Some(ObjectId(11)));
    Ok(())
}

// A region to which no entry leads is dropped.
fn drop_region(chains: &mut Chains, region: RegionId) -> Result<(), Fail> {
    match chains.region(region) {
        Some(row) if row.entries == 0 => {
            let _ = chains.drop_region(region);
            Ok(())
        }
        _ => Err(Fail::from("no such region")),
    }
}

// An object is merged into the shadow that is its one reference.
fn merge(chains: &mut Chains, upper: ObjectId, lower: ObjectId) -> Result<(), Fail> {
    let Some(up) = chains.backing(upper) else {
        return Err(Fail::from("no shadow"));
    };
    let shift = match chains.backing(lower) {
        Some(low) => low.shift,
        None => 0,
    };
    if up.under != lower || up.shift > 100 || shift > 100 || chains.references(lower) != 1 {
        return Err(Fail::from("not alone"));
    }
    chains.merge(upper, lower);
    Ok(())
}

// The mark is taken off a region whose top nothing else refers to.
fn unmark(chains: &mut Chains, ids: &mut Ids, region: RegionId) -> Result<(), Fail> {
    match chains.region(region) {
        Some(row) if row.marked && ids.marks > 0 && chains.references(row.top) == 1 => {
            chains.unmark(region, ids);
            Ok(())
        }
        _ => Err(Fail::from("shared")),
    }
}

// Regions 5 and 8 over object 11 over object 10 over object 9, from its page 2 on. Regions 6 and 7 are over objects 9 and 10.
fn chain(alloc: Global, ids: &mut Ids) -> Result<Chains, Fail>
    requires region { 5 < ids.old.next_region }
    requires object { 9 < ids.old.next_object }
{
    let mut chains = first(alloc, *ids)?;
    let _ = copy(&mut chains, ids)?;
    let _ = shadow(&mut chains, ids, FIRST)?;
    let _ = copy(&mut chains, ids)?;
    let _ = shadow(&mut chains, ids, FIRST)?;
    let _ = copy(&mut chains, ids)?;
    Ok(chains)
}

#[test]
fn merged(rt: HostRuntime) -> Result<(), Fail> {
    let mut ids = Ids {
        next_object: 10,
        next_region: 6,
        marks: 0,
    };
    let mut chains = chain(rt.alloc(), &mut ids)?;
    for region in 6..9 {
        drop_region(&mut chains, RegionId(region))?;
    }
    unmark(&mut chains, &mut ids, FIRST)?;
    shows(&rt, chains.marked() == 0 && ids.marks == 3);
    shows(&rt, chains.sole_shadow(ObjectId(10)) == Some(ObjectId(11)));
    merge(&mut chains, ObjectId(11), ObjectId(10))?;
    shows(&rt, chains.sole_shadow(ObjectId(9)) == Some(ObjectId(11)));
    let under = ShadowRow {
        under: ObjectId(9),
        shift: 2,
    };
    shows(&rt, chains.backing(ObjectId(11)) == Some(under));
    shows(&rt, chains.references(ObjectId(10)) == 0);
    merge(&mut chains, ObjectId(11), ObjectId(9))?;
    shows(&rt, depth(&chains, FIRST) == 1);
    Ok(())
}

// An object to which nothing refers stands on another.
fn stand(chains: &mut Chains, object: ObjectId, under: ObjectId) -> Result<(), Fail> {
    if object == under || object.0 > 100 || under.0 > 100 {
        return Err(Fail::from("other objects"));
    }
    if chains.backing(object).is_some() || chains.references(object) != 0 {
        return Err(Fail::from("no new object"));
    }
    chains.stand(object, under)?;
    Ok(())
}

// An object stands on a newer one, to which nothing refers, over the same file.
fn rebase(chains: &mut Chains, older: ObjectId, newer: ObjectId) -> Result<(), Fail> {
    let Some(row) = chains.backing(newer) else {
        return Err(Fail::from("no copy object"));
    };
    if row.shift != 0 || chains.backing(older) != Some(row) {
        return Err(Fail::from("over another object"));
    }
    if older == newer || chains.references(newer) != 0 {
        return Err(Fail::from("no newer object"));
    }
    chains.rebase(older, newer);
    Ok(())
}

const FILE: ObjectId = ObjectId(9);

const OLDER: ObjectId = ObjectId(10);

const NEWER: ObjectId = ObjectId(11);

const NEWEST: ObjectId = ObjectId(12);

// Two copy objects stand on the file.
fn two_copies(alloc: Global) -> Result<Chains, Fail> {
    let ids = Ids {
        next_object: 10,
        next_region: 6,
        marks: 0,
    };
    let mut chains = first(alloc, ids)?;
    stand(&mut chains, OLDER, FILE)?;
    stand(&mut chains, NEWER, FILE)?;
    Ok(chains)
}

#[test]
fn stood(rt: HostRuntime) -> Result<(), Fail> {
    let chains = two_copies(rt.alloc())?;
    let row = ShadowRow {
        under: FILE,
        shift: 0,
    };
    shows(&rt, chains.backing(NEWER) == Some(row));
    shows(&rt, chains.sole_shadow(FILE).is_none());
    shows(&rt, chains.references(FILE) == 3);
    Ok(())
}

#[test]
fn rebased(rt: HostRuntime) -> Result<(), Fail> {
    let mut chains = two_copies(rt.alloc())?;
    rebase(&mut chains, OLDER, NEWER)?;
    let row = ShadowRow {
        under: NEWER,
        shift: 0,
    };
    shows(&rt, chains.backing(OLDER) == Some(row));
    shows(&rt, chains.sole_shadow(NEWER) == Some(OLDER));
    shows(&rt, chains.sole_shadow(FILE) == Some(NEWER));
    shows(&rt, chains.references(FILE) == 2);
    Ok(())
}

#[test]
fn rebased_again(rt: HostRuntime) -> Result<(), Fail> {
    let mut chains = two_copies(rt.alloc())?;
    rebase(&mut chains, OLDER, NEWER)?;
    // A third one comes under both.
    stand(&mut chains, NEWEST, FILE)?;
    rebase(&mut chains, NEWER, NEWEST)?;
    shows(&rt, chains.sole_shadow(NEWER) == Some(OLDER));
    shows(&rt, chains.sole_shadow(NEWEST) == Some(NEWER));
    shows(&rt, chains.sole_shadow(FILE) == Some(NEWEST));
    Ok(())
}
