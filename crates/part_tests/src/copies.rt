// Copy objects of one file that begin, have pages and end, worked out by hand.
use crate::shows::shows;
use std::test::Fail;
use vm_base::{ObjectId, PageKey, PageNo};
use vm_copies::Copies;

const FILE: ObjectId = ObjectId(9);

const OLDER: ObjectId = ObjectId(10);

const NEWER: ObjectId = ObjectId(11);

const LAST: PageKey = PageKey {
    object: OLDER,
    page: PageNo(69),
};

#[test]
fn newest(rt: HostRuntime) -> Result<(), Fail> {
    let mut copies = Copies::new(rt.alloc());
    shows(&rt, copies.begin(FILE, OLDER, 70)?.is_none());
    shows(&rt, copies.begin(FILE, NEWER, 3)? == Some(OLDER));
    shows(&rt, copies.newest(FILE) == Some(NEWER));
    copies.end(NEWER);
    shows(&rt, copies.newest(FILE).is_none());
    shows(&rt, copies.is_copy(OLDER) && !copies.is_copy(NEWER));
    Ok(())
}

#[test]
fn noted(rt: HostRuntime) -> Result<(), Fail> {
    let mut copies = Copies::new(rt.alloc());
    let _ = copies.begin(FILE, OLDER, 70)?;
    shows(&rt, !copies.had(LAST));
    copies.note(LAST);
    shows(&rt, copies.had(LAST));
    Ok(())
}

#[test]
fn reserved(rt: HostRuntime) -> Result<(), Fail> {
    let mut copies = Copies::new(rt.alloc());
    copies.reserve(2)?;
    shows(&rt, copies.begin(FILE, OLDER, 70)?.is_none());
    shows(&rt, copies.begin(FILE, NEWER, 4096)? == Some(OLDER));
    Ok(())
}
