// What a run came to, in numbers.
ghost use Rattle.std.specs.Prelude.{◌≡◌, [], ◌∷◌, ◌++◌, ◌<◌, ◌-◌, ◌+◌, ◌^◌, List, length, IfOk, OnOk};
ghost use Rattle.vm_model.specs.declared.event.Event.{Event};
ghost use Rattle.vm_model.specs.Summary.{is_line, is_refused, is_begun, is_loaded, is_stored, is_copy_ended, is_failed, is_sent, is_taken_event, is_dropped};
ghost use Rattle.vm_model.specs.Summary.{value_of, waiting_of, row, summary_text};
ghost use Rattle.vm_model.specs.Text.{flag};
ghost use Rattle.vm_top.specs.Summary.{IsSummary};

use std::alloc::Global;
use vm_base::NoMemory;
use vm_model::{Event, History};

/// How many events of each kind a history has, and the sum of what its loads loaded, modulo 2^64.
#[derive(Clone, Copy, Debug, PartialEq, Eq)]
pub struct Summary {
    pub lines: u32,
    pub refused: u32,
    pub begun: u32,
    pub loads: u32,
    pub stores: u32,
    pub copies: u32,
    pub failed: u32,
    pub sent: u32,
    pub taken: u32,
    pub dropped: u32,
    pub sum: u64,
}

fn is_begun(event: &Event) -> bool
    ensures { result ≡ is_begun event.now }
{
    matches!(
        event,
        Event::BegunLoad { .. } | Event::BegunStore { .. } | Event::BegunCopy { .. }
    )
}

fn is_line(event: &Event) -> bool
    ensures { result ≡ is_line event.now }
{
    matches!(event, Event::Line { .. })
}

fn is_refused(event: &Event) -> bool
    ensures { result ≡ is_refused event.now }
{
    matches!(event, Event::Refused { .. })
}

fn is_loaded(event: &Event) -> bool
    ensures { result ≡ is_loaded event.now }
{
    matches!(event, Event::Loaded { .. })
}

fn is_stored(event: &Event) -> bool
    ensures { result ≡ is_stored event.now }
{
    matches!(event, Event::Stored { .. })
}

fn is_copy_ended(event: &Event) -> bool
    ensures { result ≡ is_copy_ended event.now }
{
    matches!(event, Event::CopyEnded { .. })
}

fn is_failed(event: &Event) -> bool
    ensures { result ≡ is_failed event.now }
{
    matches!(event, Event::Failed { .. })
}

fn is_sent(event: &Event) -> bool
    ensures { result ≡ is_sent event.now }
{
    matches!(event, Event::Sent { .. })
}

fn is_taken(event: &Event) -> bool
    ensures { result ≡ is_taken_event event.now }
{
    matches!(event, Event::Taken { .. })
}

fn is_dropped(event: &Event) -> bool
    ensures { result ≡ is_dropped event.now }
{
    matches!(event, Event::Dropped { .. })
}

// What the event loaded, 0 where it is no load's end.
fn value_of(event: &Event) -> u64
    ensures { result ≡ value_of event.now }
{
    match event {
        Event::Loaded { value, .. } => *value,
        _ => 0,
    }
}

// The count with one more, where it holds.
fn counted(count: u32, holds: bool) -> u32
    requires { count < 2 ^ 32 - 1 }
    ensures { result ≡ count + flag holds }
{
    if holds { count + 1 } else { count }
}

impl Summary {
    // Nothing happened yet.
    fn new() -> Self
        ensures { IsSummary result [] }
    {
        Summary {
            lines: 0,
            refused: 0,
            begun: 0,
            loads: 0,
            stores: 0,
            copies: 0,
            failed: 0,
            sent: 0,
            taken: 0,
            dropped: 0,
            sum: 0,
        }
    }

    // Counts one event more, of a history that has room for it.
    fn add(&mut self, event: &Event)
        requires few { (past : List Event) × IsSummary self.old past × (length past < 2 ^ 32 - 1) }
        ensures { (past : List Event) → IsSummary self.old past → IsSummary self.new (event.now ∷ past) }
    {
        self.lines = counted(self.lines, is_line(event));
        self.refused = counted(self.refused, is_refused(event));
        self.begun = counted(self.begun, is_begun(event));
        self.loads = counted(self.loads, is_loaded(event));
        self.stores = counted(self.stores, is_stored(event));
        self.copies = counted(self.copies, is_copy_ended(event));
        self.failed = counted(self.failed, is_failed(event));
        self.sent = counted(self.sent, is_sent(event));
        self.taken = counted(self.taken, is_taken(event));
        self.dropped = counted(self.dropped, is_dropped(event));
        self.sum = self.sum.wrapping_add(value_of(event));
    }

    /// The summary of a history.
    pub fn of(history: &History) -> Self
        ensures { IsSummary result history.now.items }
    {
        let mut summary = Summary::new();
        for i in 0..history.len() {
            summary.add(history.at(i));
        }
        summary
    }

    /// The accesses that have begun and not ended.
    pub fn waiting(&self) -> u64
        ensures { (history : List Event) → IsSummary self.now history → result ≡ waiting_of history }
    {
        let ended = u64::from(self.loads)
            + u64::from(self.stores)
            + u64::from(self.copies)
            + u64::from(self.failed);
        u64::from(self.begun).saturating_sub(ended)
    }
}

fn put_row(bytes: &mut Vec<u8>, word: &[u8], number: u64) -> Result<(), NoMemory>
    ensures { OnOk result (bytes.new.items ≡ bytes.old.items ++ row word.now number) }
{
    let mut buffer = itoa::Buffer::new();
    bytes.extend_from_slice(word)?;
    bytes.push(b' ')?;
    bytes.extend_from_slice(buffer.format(number).as_bytes())?;
    bytes.push(b'\n')?;
    Ok(())
}

/// The text of the summary of a history.
pub fn summary_text(alloc: Global, history: &History) -> Result<Vec<u8>, NoMemory>
    ensures { IfOk result (λ bytes. bytes.items ≡ summary_text history.now.items) }
{
    let summary = Summary::of(history);
    let mut bytes = Vec::new(alloc);
    put_row(&mut bytes, b"lines", u64::from(summary.lines))?;
    put_row(&mut bytes, b"refused", u64::from(summary.refused))?;
    put_row(&mut bytes, b"loads", u64::from(summary.loads))?;
    put_row(&mut bytes, b"stores", u64::from(summary.stores))?;
    put_row(&mut bytes, b"copies", u64::from(summary.copies))?;
    put_row(&mut bytes, b"failed", u64::from(summary.failed))?;
    put_row(&mut bytes, b"sent", u64::from(summary.sent))?;
    put_row(&mut bytes, b"taken", u64::from(summary.taken))?;
    put_row(&mut bytes, b"dropped", u64::from(summary.dropped))?;
    put_row(&mut bytes, b"waiting", summary.waiting())?;
    put_row(&mut bytes, b"sum", summary.sum)?;
    Ok(bytes)
}
