// Where an answer stands in the table of messages.
ghost use Rattle.std.specs.Prelude.{◌≡◌};
ghost use Rattle.vm_supply.specs.States.{locked_state, page_state, row_state, supply_kind};

use vm_base::{Lock, PageNo};
use vm_objects::ObjectRow;
use vm_resident::PageRow;
use vm_tables::{MessageKind, PageState};

// The state of a page that is here.
fn state_of_lock(lock: Lock) -> PageState
    ensures { result ≡ locked_state lock }
{
    if lock.read {
        PageState::ReadLocked
    } else if lock.write {
        PageState::WriteLocked
    } else {
        PageState::Unlocked
    }
}

// The state of a page of an object.
fn state_of_row(row: Option<PageRow>) -> PageState
    ensures { result ≡ row_state row }
{
    match row {
        None => PageState::Absent,
        Some(row) => {
            if row.here {
                state_of_lock(row.lock)
            } else {
                PageState::Asked
            }
        },
    }
}

/// The state in which an answer for a control finds a page with this row, a column of the table.
pub fn state_of(known: &ObjectRow, control: u32, page: PageNo, row: Option<PageRow>) -> PageState
    ensures { result ≡ page_state known.now control page.0 row }
{
    if !known.live || known.control != control {
        return PageState::Dead;
    }
    if page.0 >= known.pages {
        return PageState::Absent;
    }
    state_of_row(row)
}

/// The kind of a supply with this lock, a row of the table.
pub fn kind_of_supply(lock: Lock) -> MessageKind
    ensures { result ≡ supply_kind lock }
{
    if lock.read {
        MessageKind::SupplyReadLocked
    } else if lock.write {
        MessageKind::SupplyWriteLocked
    } else {
        MessageKind::SupplyUnlocked
    }
}
