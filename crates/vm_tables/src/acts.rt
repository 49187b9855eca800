// The table of messages.
ghost use Rattle.std.specs.Prelude.{◌≡◌, ◌<◌};
ghost use Rattle.vm_tables.specs.Messages.{act_at, cell, kind_number, state_number};

/// What a message of a pager comes to at a host, or at one page of it.
#[derive(Clone, Copy, Debug, PartialEq, Eq)]
pub enum Act {
    /// The message counts for nothing.
    Discard,
    /// The pager of the object is ready.
    MakeReady,
    /// The page comes, and no access to it is prohibited.
    PutUnlocked,
    /// The page comes, and the accesses that the message names are prohibited.
    PutLocked,
    /// The pager doesn't have the page.
    NoteAbsent,
    /// The pager can't give the page.
    Fail,
    /// The message counts, and leaves the page as it is.
    Nothing,
    /// The page is given back, removed or locked as the message asks.
    LockPage,
    /// The object's attributes are those of the message from now on.
    SetAttributes,
    /// The object ends on the host.
    EndObject,
}

/// A kind of message from a pager, a row of the table. The messages are those of "Mach 3 Kernel
/// Interfaces", from memory_object_ready to memory_object_destroy; a supply is of three kinds, by the
/// accesses that it prohibits.
#[derive(Clone, Copy, Debug, PartialEq, Eq)]
pub enum MessageKind {
    Ready,
    /// It prohibits nothing.
    SupplyUnlocked,
    /// It prohibits writing alone.
    SupplyWriteLocked,
    /// It prohibits reading.
    SupplyReadLocked,
    Unavailable,
    Error,
    LockRequest,
    ChangeAttributes,
    Destroy,
}

impl MessageKind {
    /// The number of the row.
    pub fn number(self) -> usize
        ensures number { result ≡ kind_number self }
        ensures within { result < 9 }
    {
        self as usize
    }
}

/// The state of a page of a host, a column of the table.
#[derive(Clone, Copy, Debug, PartialEq, Eq)]
pub enum PageState {
    /// The message came for a control that isn't live.
    Dead,
    /// The page isn't here, and isn't asked; or there is no such page.
    Absent,
    /// The page was asked of the pager, and hasn't come.
    Asked,
    /// The page is here, and no access is prohibited.
    Unlocked,
    /// The page is here, and writing alone is prohibited.
    WriteLocked,
    /// The page is here, and reading is prohibited.
    ReadLocked,
}

impl PageState {
    /// The number of the column.
    pub fn number(self) -> usize
        ensures number { result ≡ state_number self }
        ensures within { result < 6 }
    {
        self as usize
    }
}

/// What each kind of message comes to, a row, at each state of its page, a column.
#[derive(Drop)]
pub struct MessageTable<const K: usize, const S: usize> {
    rows: [[Act; S]; K],
}

impl<const K: usize, const S: usize> MessageTable<K, S> {
    /// The table with these rows.
    pub const fn new(rows: [[Act; S]; K]) -> MessageTable<K, S>
        ensures { result.rows ≡ rows.entry }
    {
        MessageTable { rows }
    }

    /// What a kind of message comes to at a state of its page.
    pub fn act(&self, kind: usize, state: usize) -> Act
        requires kind { kind < K }
        requires state { state < S }
        ensures { result ≡ cell self.now.rows kind state }
    {
        self.rows[kind][state]
    }
}

// A row of the table: what a message comes to in each state of its page.
macro_rules! row {
    ($dead:ident, $absent:ident, $asked:ident, $unlocked:ident, $write_locked:ident, $read_locked:ident) => {
        [
            Act::$dead,
            Act::$absent,
            Act::$asked,
            Act::$unlocked,
            Act::$write_locked,
            Act::$read_locked,
        ]
    };
}

/// The shipped table.
///
/// An answer of a page counts only where the page is asked, in this profile: what no request is out for
/// is discarded.
pub const MESSAGE_ROWS: MessageTable<9, 6> = MessageTable {
    rows: [
        row!(
            Discard, MakeReady, MakeReady, MakeReady, MakeReady, MakeReady
        ),
        row!(Discard, Discard, PutUnlocked, Discard, Discard, Discard),
        row!(Discard, Discard, PutLocked, Discard, Discard, Discard),
        row!(Discard, Discard, PutLocked, Discard, Discard, Discard),
        row!(Discard, Discard, NoteAbsent, Discard, Discard, Discard),
        row!(Discard, Discard, Fail, Discard, Discard, Discard),
        row!(Discard, Nothing, Nothing, LockPage, LockPage, LockPage),
        row!(
            Discard,
            SetAttributes,
            SetAttributes,
            SetAttributes,
            SetAttributes,
            SetAttributes
        ),
        row!(
            Discard, EndObject, EndObject, EndObject, EndObject, EndObject
        ),
    ],
};

/// What a message comes to, by the shipped table.
pub fn message_act(kind: MessageKind, state: PageState) -> Act
    ensures { result ≡ act_at kind state }
{
    MESSAGE_ROWS.act(kind.number(), state.number())
}
