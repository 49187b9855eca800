// The call that does all that the program does.
ghost use Rattle.std.specs.Prelude.{◌≡◌};
ghost use Rattle.made_script.specs.Printing.{Prints, status_after, status_number};
ghost use Rattle.made_script.specs.Words.{asked_by};
ghost use Rattle.vm_outside.specs.Causes.{CountRises};

use crate::words::asked;
use std::alloc::Global;
use vm_base::WriteStop;
use vm_outside::Sink;
use vm_script::made_text;

const USAGE: &[u8] = b"usage: made_script NUMBER LINES\n";

/// How the call ended.
#[derive(Clone, Copy, Debug, PartialEq, Eq)]
pub enum Status {
    /// The text was written.
    Done,
    /// The words ask for no script.
    Usage,
    /// The sink failed.
    OutputFault,
    /// No memory was there.
    NoMemory,
}

impl Status {
    /// The exit status of the program.
    pub fn number(self) -> u8
        ensures { result ≡ status_number self }
    {
        match self {
            Status::Done => 0,
            Status::Usage => 2,
            Status::OutputFault => 4,
            Status::NoMemory => 6,
        }
    }
}

// The status of a write of the whole text, whose end is told by `written`.
fn status_after(outcome: Result<(), WriteStop>, written: Status) -> Status
    ensures { result ≡ status_after outcome written }
{
    match outcome {
        Ok(()) => written,
        Err(WriteStop::Failed) => Status::OutputFault,
        Err(WriteStop::NoMemory) => Status::NoMemory,
    }
}

/// Writes the text of the script that the words ask for, or how to ask, and nothing else.
pub fn print_script<K: Sink>(alloc: Global, words: &[String], out: &mut K) -> Status
    ensures prints { Prints (asked_by words.now) (K.written out.old) (K.written out.new) result }
    ensures cause { result ≡ Status.OutputFault → CountRises (K.faults out.old) (K.faults out.new) }
{
    match asked(words) {
        Some((number, lines)) => match made_text(alloc, number, lines) {
            Ok(made) => status_after(out.write(&made.text), Status::Done),
            Err(_) => Status::NoMemory,
        },
        None => status_after(out.write(USAGE), Status::Usage),
    }
}
