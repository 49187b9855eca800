// Each call once, and tables in which a case is missing or stands twice.
use crate::shows::shows;
use vm_tables::{
    Act, LOCK_ROWS, LockAct, LockCase, MESSAGE_ROWS, MessageKind, MessageTable, PageState, Returns,
    covers, lock_act, lock_rows_cover, message_act, pick,
};

// A clean precious page, of which all is asked back, and which is to go.
const PRECIOUS: LockCase = LockCase {
    returns: Returns::All,
    flush: true,
    dirty: false,
    precious: true,
};

// What it does then.
const BACK: LockAct = LockAct {
    give_back: true,
    remove: true,
};

#[test]
fn covered(rt: HostRuntime) {
    shows(&rt, covers(&LOCK_ROWS));
    let mut fewer = [LOCK_ROWS[0]; 23];
    fewer.copy_from_slice(&LOCK_ROWS[..23]);
    shows(&rt, !covers(&fewer));
}

#[test]
fn doubled(rt: HostRuntime) {
    let mut twice = LOCK_ROWS;
    twice[21] = LOCK_ROWS[20];
    shows(&rt, !covers(&twice));
}

#[test]
fn picked(rt: HostRuntime) {
    lock_rows_cover();
    shows(&rt, lock_act(PRECIOUS) == BACK);
    shows(&rt, pick(&LOCK_ROWS, PRECIOUS) == BACK);
}

#[test]
fn acted(rt: HostRuntime) {
    let kind = MessageKind::SupplyWriteLocked.number();
    shows(
        &rt,
        MESSAGE_ROWS.act(kind, PageState::Asked.number()) == Act::PutLocked,
    );
    shows(
        &rt,
        message_act(MessageKind::Ready, PageState::Dead) == Act::Discard,
    );
    shows(
        &rt,
        message_act(MessageKind::ChangeAttributes, PageState::Dead) == Act::Discard,
    );
    shows(
        &rt,
        message_act(MessageKind::ChangeAttributes, PageState::Absent) == Act::SetAttributes,
    );
    shows(
        &rt,
        message_act(MessageKind::Destroy, PageState::Unlocked) == Act::EndObject,
    );
    let table = MessageTable::new([[Act::Fail, Act::Nothing]]);
    shows(&rt, table.act(0, 1) == Act::Nothing);
}
