// Writes what a run tells.
ghost use Rattle.std.specs.Prelude.{◌≡◌, ◌++◌, ◌≤◌, ◌<◌, length, IfOk, OnOk, IsErrOf, List, ℕ};
ghost use Rattle.std.specs.Io.KnownBytes.{Appends};
ghost use Rattle.std.specs.declared.option.Option.{Option};
ghost use Rattle.vm_model.specs.Text.{text, field};
ghost use Rattle.vm_outside.specs.Causes.{CountRises};
ghost use Rattle.vm_top.specs.Run.{report_text, text_so_far};
ghost use Rattle.vm_top.specs.Top.{bad_text, fault_name};
ghost use Rattle.vm_top.specs.Writing.{oldest_items, WroteBeyond, WroteStart};

use crate::summary::summary_text;
use crate::words::Report;
use std::alloc::Global;
use vm_base::{NoMemory, WriteStop};
use vm_model::{History, ScriptFault};
use vm_outside::Sink;
use vm_text::{Line, put_event};

// About as many bytes as an event's line has, for the room that a step's text takes at once.
const USUAL_BYTES: usize = 40;

// The text of the events from an index on.
fn step_text(alloc: Global, history: &History, from: u32) -> Result<Line, NoMemory>
    requires { from ≤ length history.now.items }
    ensures { IfOk result (λ lines. text (oldest_items from history.now.items) ++ lines ≡ text history.now.items) }
{
    let events = (history.len() - from) as usize;
    let mut lines = Line::with_room(alloc, USUAL_BYTES * events)?;
    for i in from..history.len() {
        put_event(&mut lines, history.at(i))?;
    }
    Ok(lines)
}

/// Writes the events from an index on, in one piece. Where the text up to there has been written,
/// the whole text has been afterwards.
pub fn write_step<K: Sink>(
    alloc: Global,
    history: &History,
    from: u32,
    out: &mut K,
) -> Result<(), WriteStop>
    requires { from ≤ length history.now.items }
    ensures later { K.faults out.old ≤ K.faults out.new }
    ensures cause { IsErrOf result WriteStop.Failed → CountRises (K.faults out.old) (K.faults out.new) }
    ensures written { (start : Option (List ℕ))
        → Appends start (K.written out.old) (text (oldest_items from history.now.items))
        → OnOk result (Appends start (K.written out.new) (text history.now.items)) }
    ensures failed { (start : Option (List ℕ))
        → Appends start (K.written out.old) (text (oldest_items from history.now.items))
        → IsErrOf result WriteStop.Failed
        → WroteBeyond start (K.written out.new) (text (oldest_items from history.now.items)) (text history.now.items) }
    ensures memory { (start : Option (List ℕ))
        → Appends start (K.written out.old) (text (oldest_items from history.now.items))
        → IsErrOf result WriteStop.NoMemory → Appends start (K.written out.new) (text (oldest_items from history.now.items)) }
{
    let Ok(lines) = step_text(alloc, history, from) else {
        return Err(WriteStop::NoMemory);
    };
    out.write(lines.as_slice())
}

fn number_into(bytes: &mut Vec<u8>, number: u32) -> Result<(), NoMemory>
    ensures { OnOk result (bytes.new.items ≡ bytes.old.items ++ field number) }
{
    let mut buffer = itoa::Buffer::new();
    bytes.push(b' ')?;
    bytes.extend_from_slice(buffer.format(number).as_bytes())?;
    Ok(())
}

fn fault_name(kind: ScriptFault) -> &'static [u8]
    ensures { result.now ≡ fault_name kind }
{
    match kind {
        ScriptFault::TooLong => b"TooLong",
        ScriptFault::UnknownWord => b"UnknownWord",
        ScriptFault::BadNumber => b"BadNumber",
        ScriptFault::WrongCount => b"WrongCount",
        ScriptFault::OutOfRange => b"OutOfRange",
        ScriptFault::HeaderLate => b"HeaderLate",
        ScriptFault::NoHosts => b"NoHosts",
    }
}

/// The line that tells the fault of a script.
pub fn bad_text(alloc: Global, line: u32, kind: ScriptFault) -> Result<Vec<u8>, NoMemory>
    ensures { IfOk result (λ bytes. bytes.items ≡ bad_text line kind) }
{
    let mut bytes = Vec::new(alloc);
    bytes.extend_from_slice(b"bad")?;
    number_into(&mut bytes, line)?;
    number_into(&mut bytes, kind.number())?;
    bytes.push(b' ')?;
    bytes.extend_from_slice(fault_name(kind))?;
    bytes.push(b'\n')?;
    Ok(bytes)
}

/// Writes what is left to be written of a run that has ended.
pub fn write_report<K: Sink>(
    alloc: Global,
    report: Report,
    history: &History,
    out: &mut K,
) -> Result<(), WriteStop>
    ensures later { K.faults out.old ≤ K.faults out.new }
    ensures cause { IsErrOf result WriteStop.Failed → CountRises (K.faults out.old) (K.faults out.new) }
    ensures written { (start : Option (List ℕ)) → Appends start (K.written out.old) (text_so_far report history.now.items)
        → OnOk result (Appends start (K.written out.new) (report_text report history.now.items)) }
    ensures failed { (start : Option (List ℕ)) → Appends start (K.written out.old) (text_so_far report history.now.items)
        → IsErrOf result WriteStop.Failed
        → (report ≡ Report.Summary) × WroteStart start (K.written out.new) (report_text report history.now.items) }
    ensures memory { (start : Option (List ℕ)) → Appends start (K.written out.old) (text_so_far report history.now.items)
        → IsErrOf result WriteStop.NoMemory
        → WroteStart start (K.written out.new) (report_text report history.now.items) }
{
    match report {
        Report::History => Ok(()),
        Report::Summary => {
            let Ok(bytes) = summary_text(alloc, history) else {
                return Err(WriteStop::NoMemory);
            };
            out.write(&bytes)
        }
    }
}
