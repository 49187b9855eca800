// Each call once.
use crate::shows::shows;
use std::alloc::Global;
use std::test::Fail;
use vm_base::{FrameNo, Lock, NoMemory, ObjectId, PageKey, PageNo};
use vm_resident::{PageRow, Resident};

const fn page(object: u32, page: u32) -> PageKey {
    PageKey {
        object: ObjectId(object),
        page: PageNo(page),
    }
}

const fn row(frame: u32) -> PageRow {
    PageRow {
        frame: FrameNo(frame),
        lock: Lock {
            read: false,
            write: true,
        },
        dirty: false,
        precious: false,
        here: true,
        unlock_sent: false,
    }
}

// Puts in the row of a page that has none.
fn put(table: &mut Resident, key: PageKey, row: PageRow) -> Result<(), NoMemory> {
    table.reserve(1)?;
    if table.get(key).is_none() {
        table.insert(key, row);
    }
    Ok(())
}

// Page 4 of object 1 in frame 5, and page 0 of object 2 in frame 7.
fn two(alloc: Global) -> Result<Resident, Fail> {
    let mut table = Resident::new(alloc);
    put(&mut table, page(2, 0), row(7))?;
    put(&mut table, page(1, 4), row(5))?;
    Ok(table)
}

#[test]
fn found(rt: HostRuntime) -> Result<(), Fail> {
    let table = two(rt.alloc())?;
    shows(
        &rt,
        table.get(page(1, 4)) == Some(row(5)) && table.get(page(2, 4)).is_none(),
    );
    shows(
        &rt,
        table.next_page(ObjectId(1), PageNo(0)) == Some(PageNo(4)),
    );
    shows(&rt, table.page_of(FrameNo(7)) == Some(page(2, 0)));
    shows(&rt, table.table().len() == 2);
    Ok(())
}

#[test]
fn changed(rt: HostRuntime) -> Result<(), Fail> {
    let mut table = two(rt.alloc())?;
    let key = page(1, 4);
    if let Some(was) = table.get(key) {
        table.set(key, PageRow { dirty: true, ..was });
    }
    shows(&rt, table.remove(key).is_some_and(|row| row.dirty));
    shows(
        &rt,
        table.remove(key).is_none() && table.page_of(FrameNo(5)).is_none(),
    );
    Ok(())
}
