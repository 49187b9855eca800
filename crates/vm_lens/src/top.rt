// The call that does all that the program `lens` does.
ghost use Rattle.std.specs.Prelude.{◌≡◌, ◌≤◌, ◌⊎◌, true, false, List, ℕ};
ghost use Rattle.std.specs.declared.option.Option.{Option};
ghost use Rattle.std.specs.Io.KnownBytes.{Appends};
ghost use Rattle.vm_model.specs.declared.fault.ScriptFault.{ScriptFault};
ghost use Rattle.vm_model.specs.declared.script.Script.{Script};
ghost use Rattle.vm_outside.specs.Causes.{CountRises};
ghost use Rattle.vm_text.specs.Script.{DeclaresNoTemporary};
ghost use Rattle.vm_top.specs.Top.{IsBadFrom, IsReadFrom, OfBytes, bad_text};
ghost use Rattle.vm_lens.specs.Exploring.{IsExplored};
ghost use Rattle.vm_lens.specs.Top.{IsDone, asks_explore, usage_text, status_number};
ghost use Rattle.vm_litmus.specs.Text.{explored_text, hindrance_text};
ghost use Rattle.vm_litmus.specs.declared.explored.Hindrance.{Hindrance};

use crate::exploring::explore;
use std::alloc::Global;
use vm_base::WriteStop;
use vm_litmus::{Explored, Hindrance, Stop, explored_text, hindrance_text};
use vm_model::{Script, ScriptFault};
use vm_outside::{Sink, Source};
use vm_text::{ScriptError, read_script};
use vm_top::{ReadStop, bad_text, read_all};

const USAGE: &[u8] = b"usage: lens explore\n";

/// How the call ended.
#[derive(Clone, Copy, Debug, PartialEq, Eq)]
pub enum Status {
    /// The script was explored.
    Done,
    /// The script is outside the grammar: its first line that has a fault, and that line's first fault.
    BadScript { line: u32, kind: ScriptFault },
    /// The words are no command.
    Usage,
    /// The source failed.
    ReadFault,
    /// The sink failed.
    OutputFault,
    /// No memory was there.
    NoMemory,
    /// The script isn't explored: a line says why.
    NotExplored,
}

impl Status {
    /// The exit status of the program.
    pub fn number(self) -> u8
        ensures { result ≡ status_number self }
    {
        match self {
            Status::Done => 0,
            Status::BadScript { .. } => 1,
            Status::Usage => 2,
            Status::ReadFault => 3,
            Status::OutputFault => 4,
            Status::NoMemory => 6,
            Status::NotExplored => 7,
        }
    }
}

/// How the call ended, and what was explored, if something was.
#[derive(Drop)]
pub struct Outcome {
    pub status: Status,
    pub explored: Option<Explored>,
}

fn ended(status: Status) -> Outcome
    ensures { result.status ≡ status }
{
    Outcome {
        status,
        explored: None,
    }
}

fn is_explore(words: &[String]) -> bool
    ensures { result ≡ asks_explore words.now }
{
    match words {
        [word] => word.as_str().as_bytes() == b"explore".as_slice(),
        _ => false,
    }
}

// Writes a text that is told with this status.
fn tell<K: Sink>(text: &[u8], status: Status, out: &mut K) -> Status
    requires { ¬ (status ≡ Status.OutputFault) }
    ensures told { (result ≡ status) × Appends (K.written out.old) (K.written out.new) text.now ⊎ ((result ≡ Status.OutputFault) ⊎ (result ≡ Status.NoMemory)) }
    ensures cause { result ≡ Status.OutputFault → CountRises (K.faults out.old) (K.faults out.new) }
    ensures later { K.faults out.old ≤ K.faults out.new }
{
    match out.write(text) {
        Ok(()) => status,
        Err(WriteStop::Failed) => Status::OutputFault,
        Err(WriteStop::NoMemory) => Status::NoMemory,
    }
}

// Explores a script, and writes what comes of it.
fn explore_read<K: Sink>(alloc: Global, bytes: &[u8], script: &Script, out: &mut K) -> Outcome
    requires { DeclaresNoTemporary script.now.header }
    ensures done { result.status ≡ Status.Done → (found : Explored) × (result.explored ≡ Some found) × IsExplored script.now found
        × Appends (K.written out.old) (K.written out.new) (explored_text found) }
    ensures hindered { result.status ≡ Status.NotExplored → (hindrance : Hindrance)
        × Appends (K.written out.old) (K.written out.new) (hindrance_text hindrance) }
    ensures others { (result.status ≡ Status.Done) ⊎ ((result.status ≡ Status.NotExplored)
        ⊎ ((result.status ≡ Status.OutputFault) ⊎ (result.status ≡ Status.NoMemory))) }
    ensures cause { result.status ≡ Status.OutputFault → CountRises (K.faults out.old) (K.faults out.new) }
    ensures later { K.faults out.old ≤ K.faults out.new }
{
    match explore(alloc, bytes, script) {
        Ok(explored) => tell_explored(alloc, explored, out),
        Err(Stop::NoMemory) => ended(Status::NoMemory),
        Err(Stop::Hindered(hindrance)) => tell_hindrance(alloc, hindrance, out),
    }
}

fn tell_explored<K: Sink>(alloc: Global, explored: Explored, out: &mut K) -> Outcome
    ensures held { result.explored ≡ Some explored }
    ensures done { result.status ≡ Status.Done → Appends (K.written out.old) (K.written out.new) (explored_text explored) }
    ensures others { (result.status ≡ Status.Done) ⊎ ((result.status ≡ Status.OutputFault) ⊎ (result.status ≡ Status.NoMemory)) }
    ensures cause { result.status ≡ Status.OutputFault → CountRises (K.faults out.old) (K.faults out.new) }
    ensures later { K.faults out.old ≤ K.faults out.new }
{
    let status = match explored_text(alloc, &explored) {
        Ok(text) => tell(&text, Status::Done, out),
        Err(_) => Status::NoMemory,
    };
    Outcome {
        status,
        explored: Some(explored),
    }
}

fn tell_hindrance<K: Sink>(alloc: Global, hindrance: Hindrance, out: &mut K) -> Outcome
    ensures told { result.status ≡ Status.NotExplored → Appends (K.written out.old) (K.written out.new) (hindrance_text hindrance) }
    ensures others { (result.status ≡ Status.NotExplored) ⊎ ((result.status ≡ Status.OutputFault) ⊎ (result.status ≡ Status.NoMemory)) }
    ensures cause { result.status ≡ Status.OutputFault → CountRises (K.faults out.old) (K.faults out.new) }
    ensures later { K.faults out.old ≤ K.faults out.new }
{
    match hindrance_text(alloc, hindrance) {
        Ok(text) => ended(tell(&text, Status::NotExplored, out)),
        Err(_) => ended(Status::NoMemory),
    }
}

fn tell_bad<K: Sink>(alloc: Global, line: u32, kind: ScriptFault, out: &mut K) -> Outcome
    ensures told { (result.status ≡ Status.BadScript line kind) × Appends (K.written out.old) (K.written out.new) (bad_text line kind)
        ⊎ ((result.status ≡ Status.OutputFault) ⊎ (result.status ≡ Status.NoMemory)) }
    ensures cause { result.status ≡ Status.OutputFault → CountRises (K.faults out.old) (K.faults out.new) }
    ensures later { K.faults out.old ≤ K.faults out.new }
{
    match bad_text(alloc, line, kind) {
        Ok(text) => ended(tell(&text, Status::BadScript { line, kind }, out)),
        Err(_) => ended(Status::NoMemory),
    }
}

/// Does what the words say: `explore` reads a script from the source, and writes what the loads behind
/// its last `settle` give, in each order of the accesses there that keeps each task's own.
///
/// The script is read to its end, or beyond its 1,048,576th byte by 4,096 bytes at most. Its runs are in
/// memory: its files are empty at the start of each.
pub fn lens_main<S: Source, K: Sink>(
    alloc: Global,
    words: &[String],
    script: &mut S,
    out: &mut K,
) -> Outcome
    // The script of the source was explored, and what was found was written and nothing else: each outcome is that of a legal run of its
    // order, and where `whole` was found, no legal history that goes on from the set-up's with these accesses has another.
    ensures done { result.status ≡ Status.Done → (asks_explore words.now ≡ true)
        × IsDone (S.left script.old) result.explored (K.written out.old) (K.written out.new) }

    // It isn't explored: what hinders that was written.
    ensures not_explored { result.status ≡ Status.NotExplored → (asks_explore words.now ≡ true) × (hindrance : Hindrance)
        × Appends (K.written out.old) (K.written out.new) (hindrance_text hindrance) }

    // The source's bytes are no script: their first fault was written.
    ensures bad { (line : ℕ) → (kind : ScriptFault) → result.status ≡ Status.BadScript line kind → (asks_explore words.now ≡ true)
        × IsBadFrom (S.left script.old) line kind × Appends (K.written out.old) (K.written out.new) (bad_text line kind) }

    // The words are no command, and then nothing else can come of them but a fault of the sink or want of memory.
    ensures usage { result.status ≡ Status.Usage → (asks_explore words.now ≡ false) × Appends (K.written out.old) (K.written out.new) usage_text }
    ensures no_command { asks_explore words.now ≡ false → (result.status ≡ Status.Usage)
        ⊎ ((result.status ≡ Status.OutputFault) ⊎ (result.status ≡ Status.NoMemory)) }

    // The source failed, or the sink. Counts of faults never fall.
    ensures read_cause { result.status ≡ Status.ReadFault → CountRises (S.faults script.old) (S.faults script.new) }
    ensures output_cause { result.status ≡ Status.OutputFault → CountRises (K.faults out.old) (K.faults out.new) }
    ensures source_later { S.faults script.old ≤ S.faults script.new }
    ensures sink_later { K.faults out.old ≤ K.faults out.new }
{
    if !is_explore(words) {
        return ended(tell(USAGE, Status::Usage, out));
    }
    let bytes = match read_all(alloc, script) {
        Ok(bytes) => bytes,
        Err(ReadStop::Failed) => return ended(Status::ReadFault),
        Err(ReadStop::NoMemory) => return ended(Status::NoMemory),
    };
    match read_script(alloc, &bytes) {
        Ok(script) => explore_read(alloc, &bytes, &script, out),
        Err(ScriptError::Bad { line, kind }) => tell_bad(alloc, line, kind, out),
        Err(ScriptError::NoMemory) => ended(Status::NoMemory),
    }
}
