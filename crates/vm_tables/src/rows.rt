// The table of the cases of a lock request.
ghost use Rattle.std.specs.Prelude.{ℕ, ◌≡◌, ◌↔◌, IsTrue, Some, slice_get};
ghost use Rattle.vm_tables.specs.Cases.{Covers, act_of};
ghost use Rattle.vm_tables.specs.declared.cases.LockRow.{LockRow};

use crate::counting::{each_once, find};
use crate::{LockAct, LockCase, LockRow, Returns};

// A row of the table: the case, and whether the page is given back. It is removed where that is asked.
macro_rules! row {
    ($returns:ident, $flush:literal, $dirty:literal, $precious:literal, $give_back:literal) => {
        LockRow {
            case: LockCase {
                returns: Returns::$returns,
                flush: $flush,
                dirty: $dirty,
                precious: $precious,
            },
            act: LockAct {
                give_back: $give_back,
                remove: $flush,
            },
        }
    };
}

/// The shipped table of what becomes of a page at a lock request. The rows are ordered by the return kind,
/// then by `flush`, `dirty` and `precious`, false in front of true.
pub const LOCK_ROWS: [LockRow; 24] = [
    row!(Nothing, false, false, false, false),
    row!(Nothing, false, false, true, false),
    row!(Nothing, false, true, false, false),
    row!(Nothing, false, true, true, false),
    row!(Nothing, true, false, false, false),
    row!(Nothing, true, false, true, false),
    row!(Nothing, true, true, false, false),
    row!(Nothing, true, true, true, false),
    row!(Dirty, false, false, false, false),
    row!(Dirty, false, false, true, false),
    row!(Dirty, false, true, false, true),
    row!(Dirty, false, true, true, true),
    row!(Dirty, true, false, false, false),
    row!(Dirty, true, false, true, false),
    row!(Dirty, true, true, false, true),
    row!(Dirty, true, true, true, true),
    row!(All, false, false, false, false),
    row!(All, false, false, true, true),
    row!(All, false, true, false, true),
    row!(All, false, true, true, true),
    row!(All, true, false, false, false),
    row!(All, true, false, true, true),
    row!(All, true, true, false, true),
    row!(All, true, true, true, true),
];

#[tactic(auto, using(crate::proofs::Once::once_covers, crate::proofs::Once::covers_once))]
/// Whether each of the 24 cases of a lock request stands in one row, and in no other.
pub fn covers<const N: usize>(rows: &[LockRow; N]) -> bool
    ensures { IsTrue result ↔ Covers rows.now }
{
    each_once(rows)
}

/// What the row of a case says.
#[tactic(auto, using(crate::proofs::Once::picks))]
pub fn pick<const N: usize>(rows: &[LockRow; N], case: LockCase) -> LockAct
    requires { Covers rows.now }
    ensures { (i : ℕ) (row : LockRow) → slice_get rows.now i ≡ Some row → row.case ≡ case → result ≡ row.act }
{
    let Some(act) = find(rows, case) else {
        unreachable!()
    };
    act
}

/// The shipped table has each case in one row, and in no other.
#[tactic(auto, using(crate::proofs::Shipped::shipped_covers))]
pub fn lock_rows_cover()
    ensures { Covers LOCK_ROWS }
{}

/// What becomes of a page at a lock request, by the shipped table: `should_return` and `should_flush`
/// of memory_object_lock_request in "Mach 3 Kernel Interfaces".
pub fn lock_act(case: LockCase) -> LockAct
    ensures { result ≡ act_of case }
{
    pick(&LOCK_ROWS, case)
}
