// A row is taken out of the table.
ghost use Rattle.std.specs.Prelude.{◌≡◌, ◌+◌, ◌≤◌, length, map, IsSome};
ghost use Rattle.indexmap.specs.IndexMap.{index_map_len, spare, values, IsEmpty};
ghost use Rattle.vm_waits.specs.Kept.{AreKept, by_task};
ghost use Rattle.vm_waits.specs.Waits.{EachOnce, entry, rows_without};

use crate::Waiting;
use indexmap::IndexMap;
use std::mem::swap;
use vm_base::TaskId;

// Puts all rows but a task's into an empty table that has room for them.
fn put_others(rows: &[Waiting], task: TaskId, others: &mut IndexMap<TaskId, Waiting>)
    requires once { EachOnce rows.now }
    requires empty { IsEmpty others.old }
    requires room { length rows.now ≤ spare others.old }
    ensures rows { others.new.entries ≡ map by_task (rows_without task.0 rows.now) }
    ensures room { spare others.old ≤ index_map_len others.new + spare others.new }
{
    'all: for row in rows {
        if row.task.0 != task.0 {
            others.insert(row.task, *row).unwrap();
        }
    }
}

/// Takes out the row of a task. A removal may leave a place that can't be used again, so where none is
/// to spare the others move to the second table.
pub fn take_out(
    rows: &mut IndexMap<TaskId, Waiting>,
    second: &mut IndexMap<TaskId, Waiting>,
    task: TaskId,
    room: usize,
)
    requires kept { AreKept rows.old.entries }
    requires there { IsSome (entry (values rows.old) task.0) }
    requires room { room ≤ spare rows.old }
    requires empty { IsEmpty second.old }
    requires second { length (values rows.old) + room ≤ spare second.old }
    ensures rows { rows.new.entries ≡ map by_task (rows_without task.0 (values rows.old)) }
    ensures room { room + 1 ≤ spare rows.new }
    ensures empty { IsEmpty second.new }
    ensures second { length (values rows.old) + room ≤ spare second.new }
{
    if rows.capacity() - rows.len() > room {
        rows.shift_remove(&task);
        return;
    }
    put_others(rows.values().as_slice(), task, second);
    rows.clear();
    swap(rows, second);
}
