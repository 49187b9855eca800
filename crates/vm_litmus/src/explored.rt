// What an exploration comes to.
use crate::parts::FreeAccess;
use vm_base::NoMemory;
use vm_explore::Row;
use vm_model::History;

/// Why a script isn't explored.
#[derive(Clone, Copy, Debug, PartialEq, Eq)]
pub enum Hindrance {
    /// The line's command can't be explored; or the set-up that ends on it leaves somebody waiting or
    /// something undelivered.
    Line(u32),
    /// There are so many accesses, more than 12; or so many orders, more than 10,000.
    TooMany(u64),
    /// In one of the orders the access of this line didn't end.
    Waits(u32),
    /// A run met the limit of events.
    EventLimit,
}

/// Why an exploration stops.
#[derive(Clone, Copy, Debug, PartialEq, Eq)]
pub enum Stop {
    Hindered(Hindrance),
    NoMemory,
}

impl From<NoMemory> for Stop {
    fn from(_: NoMemory) -> Stop {
        Stop::NoMemory
    }
}

/// What the loads of all orders gave.
#[derive(Drop)]
pub struct Explored {
    /// How many commands the set-up has.
    pub setup: u32,
    /// What happened in the set-up.
    pub start: History,
    /// The loads and stores behind it, in the order of their lines.
    pub accesses: Vec<FreeAccess>,
    /// How many orders there are.
    pub interleavings: u32,
    /// The outcomes.
    pub rows: Vec<Row>,
    /// Whether there is no other outcome.
    pub whole: bool,
}
