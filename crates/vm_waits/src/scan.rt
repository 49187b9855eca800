// Walks along the rows, and along the queue.
ghost use Rattle.std.specs.Prelude.{◌≡◌, ◌==◌, ◌&&◌, map};
ghost use Rattle.std.specs.Vec.{vec_capacity};
ghost use Rattle.indexmap.specs.IndexMap.{spare};
ghost use Rattle.vm_waits.specs.Kept.{on_value};
ghost use Rattle.vm_waits.specs.Waits.{is_again, oldest_row, queue_without, waits_page, woken, woken_page, woken_ready};

use crate::{On, Waiting};
use indexmap::IndexMap;
use vm_base::{ObjectId, PageKey, TaskId};

/// Whether an access is to be run again.
pub fn is_on_again(on: On) -> bool
    ensures { result ≡ is_again on }
{
    match on {
        On::Again => true,
        On::Ready { object: _ } | On::Page { key: _ } | On::Push { key: _ } | On::Frame => false,
    }
}

/// Whether an access waits for the page to be its own.
pub fn is_on_page(on: On, key: PageKey) -> bool
    ensures { result ≡ waits_page key on }
{
    match on {
        On::Page { key: other } => is_same(other, key),
        On::Again | On::Ready { object: _ } | On::Push { key: _ } | On::Frame => false,
    }
}

// Whether an access waits for an answer about the page.
fn is_woken_by(on: On, key: PageKey) -> bool
    ensures { result ≡ woken_page key on }
{
    match on {
        On::Page { key: other } | On::Push { key: other } => is_same(other, key),
        On::Again | On::Ready { object: _ } | On::Frame => false,
    }
}

fn is_same(one: PageKey, other: PageKey) -> bool
    ensures { result ≡ (one.object.0 == other.object.0 && one.page.0 == other.page.0) }
{
    one.object.0 == other.object.0 && one.page.0 == other.page.0
}

/// Whether an access waits for the pager of the object.
pub fn is_on_ready(on: On, object: ObjectId) -> bool
    ensures { result ≡ woken_ready object.0 on }
{
    match on {
        On::Ready { object: other } => other.0 == object.0,
        On::Again | On::Page { key: _ } | On::Push { key: _ } | On::Frame => false,
    }
}

/// The oldest row that is to be run again.
pub fn oldest_again(rows: &[Waiting]) -> Option<Waiting>
    ensures { result ≡ oldest_row is_again rows.now }
{
    'all: for row in rows {
        if is_on_again(row.on) {
            return Some(*row);
        }
    }
    None
}

/// The oldest row that waits for a page.
pub fn oldest_on(rows: &[Waiting], key: PageKey) -> Option<Waiting>
    ensures { result ≡ oldest_row (waits_page key) rows.now }
{
    'all: for row in rows {
        if is_on_page(row.on, key) {
            return Some(*row);
        }
    }
    None
}

// What becomes of a row where those that wait for a page are woken.
fn after_page(row: Waiting, key: PageKey) -> Waiting
    ensures { result ≡ woken (woken_page key) row }
{
    if is_woken_by(row.on, key) {
        Waiting {
            on: On::Again,
            ..row
        }
    } else {
        row
    }
}

/// Rows that wait for the page are to be run again; each stays in its place.
pub fn wake_for_page(rows: &mut IndexMap<TaskId, Waiting>, key: PageKey)
    ensures entries { rows.new.entries ≡ map (on_value (woken (woken_page key))) rows.old.entries }
    ensures spare { spare rows.new ≡ spare rows.old }
{
    'all: for at in 0..rows.len() {
        rows[at] = after_page(rows[at], key);
    }
}

// What becomes of a row where those that wait for the pager of an object are woken.
fn after_ready(row: Waiting, object: ObjectId) -> Waiting
    ensures { result ≡ woken (woken_ready object.0) row }
{
    if is_on_ready(row.on, object) {
        Waiting {
            on: On::Again,
            ..row
        }
    } else {
        row
    }
}

/// Rows that wait for the pager of the object are to be run again; each stays in its place.
pub fn wake_for_ready(rows: &mut IndexMap<TaskId, Waiting>, object: ObjectId)
    ensures entries { rows.new.entries ≡ map (on_value (woken (woken_ready object.0))) rows.old.entries }
    ensures spare { spare rows.new ≡ spare rows.old }
{
    'all: for at in 0..rows.len() {
        rows[at] = after_ready(rows[at], object);
    }
}

/// Takes a task out of the queue, if it stands there.
pub fn take_off(queue: &mut Vec<TaskId>, task: TaskId)
    ensures tasks { queue.new.items ≡ queue_without task.0 queue.old.items }
    ensures capacity { vec_capacity queue.new ≡ vec_capacity queue.old }
{
    queue.retain(|other| other.0 != task.0);
}
