// The rows of a table that have a case.
ghost use Rattle.std.specs.Prelude.{◌≡◌};
ghost use Rattle.vm_tables.specs.Counting.{act_in, both_return, is_case, is_once, once_each, once_kind, once_marked};

use crate::{LockAct, LockCase, LockRow, Returns};

fn return_same(one: Returns, other: Returns) -> bool
    ensures { result ≡ both_return one other }
{
    match one {
        Returns::Nothing => matches!(&other, Returns::Nothing),
        Returns::Dirty => matches!(&other, Returns::Dirty),
        Returns::All => matches!(&other, Returns::All),
    }
}

fn are_same(one: LockCase, other: LockCase) -> bool
    ensures { result ≡ is_case one other }
{
    return_same(one.returns, other.returns)
        && (one.flush == other.flush
            && (one.dirty == other.dirty && one.precious == other.precious))
}

/// What the first row of a case says.
pub fn find(rows: &[LockRow], case: LockCase) -> Option<LockAct>
    ensures { result ≡ act_in case rows.now }
{
    'all: for row in rows {
        if are_same(row.case, case) {
            return Some(row.act);
        }
    }
    None
}

// Whether a case stands in one row and in no other.
fn stands_once(rows: &[LockRow], case: LockCase) -> bool
    ensures { result ≡ is_once rows.now case }
{
    let mut count: usize = 0;
    'all: for row in rows {
        if are_same(row.case, case) {
            count += 1;
        }
    }
    count == 1
}

// Whether the cases with these marks do, precious or not.
fn marked_once(rows: &[LockRow], returns: Returns, flush: bool, dirty: bool) -> bool
    ensures { result ≡ once_marked rows.now returns flush dirty }
{
    let plain = LockCase {
        returns,
        flush,
        dirty,
        precious: false,
    };
    let precious = LockCase {
        precious: true,
        ..plain
    };
    stands_once(rows, plain) && stands_once(rows, precious)
}

// Whether the cases of a return kind do.
fn kind_once(rows: &[LockRow], returns: Returns) -> bool
    ensures { result ≡ once_kind rows.now returns }
{
    (marked_once(rows, returns, false, false) && marked_once(rows, returns, false, true))
        && (marked_once(rows, returns, true, false) && marked_once(rows, returns, true, true))
}

/// Whether each case stands in one row and in no other.
pub fn each_once(rows: &[LockRow]) -> bool
    ensures { result ≡ once_each rows.now }
{
    kind_once(rows, Returns::Nothing)
        && kind_once(rows, Returns::Dirty)
        && kind_once(rows, Returns::All)
}
