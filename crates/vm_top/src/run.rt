// Runs a script, and writes each step's events when it has ended.
ghost use Rattle.std.specs.Prelude.{Some, ◌≡◌, ◌≢◌, ◌+◌, ◌⊎◌, ◌<◌, ◌≤◌, [], true, false, List, ℕ, length, IfOk, OnOk, IsErrOf};
ghost use Rattle.std.specs.Io.KnownBytes.{Appends};
ghost use Rattle.std.specs.declared.option.Option.{Option};
ghost use Rattle.vm_model.specs.Limits.{most_events};
ghost use Rattle.vm_model.specs.Ranges.{InRange};
ghost use Rattle.vm_model.specs.Summary.{count_of, is_line};
ghost use Rattle.vm_model.specs.Text.{text};
ghost use Rattle.vm_model.specs.declared.event.Device.TheVariants as device;
ghost use Rattle.vm_legal.specs.Steps.{takings};
ghost use Rattle.vm_legal.specs.Undelivered.{undelivered};
ghost use Rattle.vm_outside.specs.Causes.{CountRises};
ghost use Rattle.vm_system.specs.Backed.{BackingsFit};
ghost use Rattle.vm_system.specs.Keeping.{FilesCarry, PagingKeepsPages};
ghost use Rattle.vm_system.specs.Stands.{SystemStands};
ghost use Rattle.vm_system.specs.Steps.{HasMore, IsBelowLimit};
ghost use Rattle.vm_top.specs.Run.{IsRunnable, RanAs, outside_of, text_so_far};
ghost use Rattle.vm_top.specs.Always.{BackingKept};
ghost use Rattle.vm_top.specs.Running.{IsBetweenCommands, IsNextOf, RunStops, RunTaking, Running, Settles, Turned};
ghost use Rattle.vm_top.specs.Writing.{WroteBeyond, oldest_items};

use crate::render::write_step;
use crate::words::Report;
use std::alloc::Global;
use vm_base::WriteStop;
use vm_model::limits::MOST_EVENTS;
use vm_model::{Command, History, Numbered, Script};
use vm_outside::{Armed, Backing, Sink};
use vm_system::{System, SystemStop};

/// How a run ended.
#[derive(Clone, Copy, Debug, PartialEq, Eq)]
pub enum RunEnd {
    /// All commands were run.
    Done,
    /// A write failed.
    Failed,
    /// No memory was there.
    NoMemory,
    /// A step is left, and the history has 200,000 events or more.
    EventLimit,
}

/// The history of a run, and how the run ended.
#[derive(Drop)]
pub struct Ran {
    pub history: History,
    pub end: RunEnd,
}

fn end_of(stop: SystemStop) -> RunEnd
    ensures full { stop ≡ SystemStop.EventLimit → result ≡ RunEnd.EventLimit }
    ensures none { stop ≡ SystemStop.NoMemory → result ≡ RunEnd.NoMemory }
{
    match stop {
        SystemStop::EventLimit => RunEnd::EventLimit,
        SystemStop::NoMemory => RunEnd::NoMemory,
    }
}

// The text of the events from one on.
fn show<K: Sink>(
    alloc: Global,
    report: Report,
    system: &System,
    from: u32,
    out: &mut K,
) -> Result<(), RunEnd>
    requires { from ≤ length system.now.history.items }
    ensures later { K.faults out.old ≤ K.faults out.new }
    ensures cause { IsErrOf result RunEnd.Failed → CountRises (K.faults out.old) (K.faults out.new) }
    ensures written { (start : Option (List ℕ))
        → Appends start (K.written out.old) (text_so_far report (oldest_items from system.now.history.items))
        → OnOk result (Appends start (K.written out.new) (text_so_far report system.now.history.items)) }
    ensures failed { (start : Option (List ℕ))
        → Appends start (K.written out.old) (text_so_far report (oldest_items from system.now.history.items))
        → IsErrOf result RunEnd.Failed → (report ≡ Report.History)
        × WroteBeyond start (K.written out.new) (text (oldest_items from system.now.history.items)) (text system.now.history.items) }
    ensures memory { (start : Option (List ℕ))
        → Appends start (K.written out.old) (text_so_far report (oldest_items from system.now.history.items))
        → IsErrOf result RunEnd.NoMemory
        → Appends start (K.written out.new) (text_so_far report (oldest_items from system.now.history.items)) }
    ensures ends { (end : RunEnd) → IsErrOf result end → (end ≡ RunEnd.Failed) ⊎ (end ≡ RunEnd.NoMemory) }
{
    match report {
        Report::Summary => Ok(()),
        Report::History => match write_step(alloc, system.history(), from, out) {
            Ok(()) => Ok(()),
            Err(WriteStop::Failed) => Err(RunEnd::Failed),
            Err(WriteStop::NoMemory) => Err(RunEnd::NoMemory),
        },
    }
}

// One command's step, and its text; of a settle its line's.
fn turn<K: Sink, F: Backing, P: Backing>(
    alloc: Global,
    report: Report,
    system: &mut System,
    numbered: &Numbered,
    out: &mut K,
    files: &mut Armed<F>,
    paging: &mut Armed<P>,
) -> Result<(), RunEnd>
    ghost given: { Running F P }
    requires stands { SystemStands given.script.header given.outside system.old }
    requires backings { BackingsFit given.script.header given.outside (F.area given.files.inner) (F.area files.old.inner) (P.area paging.old.inner) system.old }
    requires range { InRange given.script.header numbered.now.command }
    requires below { length system.old.history.items < most_events }
    requires runs { IsBetweenCommands report given system.old.history.items (K.written out.old) files.old paging.old
        (record { files = ⟦<Armed<F> as Backing>⟧.faults files.old; paging = ⟦<Armed<P> as Backing>⟧.faults paging.old }) }
    requires next { IsNextOf given.script numbered.now system.old.history.items }
    ensures stands { OnOk result (SystemStands given.script.header given.outside system.new) }
    ensures backings { BackingsFit given.script.header given.outside (F.area given.files.inner) (F.area files.new.inner) (P.area paging.new.inner) system.new }
    ensures turned { OnOk result (Turned report given numbered.now system.new.history.items (K.written out.new) files.new paging.new
        (record { files = ⟦<Armed<F> as Backing>⟧.faults files.new; paging = ⟦<Armed<P> as Backing>⟧.faults paging.new })) }
    ensures lines { OnOk result (count_of is_line system.new.history.items
        ≡ count_of is_line system.old.history.items + 1) }
    ensures stops { (end : RunEnd) → IsErrOf result end
        → RunStops report given system.new.history.items (K.written out.new) files.new paging.new
        (record { files = ⟦<Armed<F> as Backing>⟧.faults files.new; paging = ⟦<Armed<P> as Backing>⟧.faults paging.new }) end }
    ensures later { K.faults out.old ≤ K.faults out.new }
    ensures cause { IsErrOf result RunEnd.Failed → CountRises (K.faults out.old) (K.faults out.new) }
{
    let from = system.history().len();
    if let Err(stop) = system.step(numbered.line, &numbered.command, files, paging) {
        return Err(end_of(stop));
    }
    show(alloc, report, system, from, out)?;
    Ok(())
}

// One taking of a settle, and its text; false where nothing is there to take.
fn take_one<K: Sink, F: Backing, P: Backing>(
    alloc: Global,
    report: Report,
    system: &mut System,
    out: &mut K,
    files: &mut Armed<F>,
    paging: &mut Armed<P>,
) -> Result<bool, RunEnd>
    ghost given: { RunTaking F P }
    requires stands { SystemStands given.running.script.header given.running.outside system.old }
    requires backings { BackingsFit given.running.script.header given.running.outside (F.area given.running.files.inner) (F.area files.old.inner)
        (P.area paging.old.inner) system.old }
    requires settles { Settles report given system.old.history.items (K.written out.old) files.old paging.old
        (record { files = ⟦<Armed<F> as Backing>⟧.faults files.old; paging = ⟦<Armed<P> as Backing>⟧.faults paging.old }) }
    requires more { HasMore given.command system.old.history.items }
    ensures stands { OnOk result (SystemStands given.running.script.header given.running.outside system.new) }
    ensures backings { BackingsFit given.running.script.header given.running.outside (F.area given.running.files.inner) (F.area files.new.inner)
        (P.area paging.new.inner) system.new }
    ensures settles { OnOk result (Settles report given system.new.history.items (K.written out.new) files.new paging.new
        (record { files = ⟦<Armed<F> as Backing>⟧.faults files.new; paging = ⟦<Armed<P> as Backing>⟧.faults paging.new })) }
    ensures more { IfOk result (λ took. took ≡ true
        → takings system.new.history.items ≡ takings system.old.history.items + 1) }
    ensures quiet { IfOk result (λ took. took ≡ false → undelivered system.new.history.items ≡ []) }
    ensures lines { OnOk result (count_of is_line system.new.history.items
        ≡ count_of is_line system.old.history.items) }
    ensures stops { (end : RunEnd) → IsErrOf result end
        → RunStops report given.running system.new.history.items (K.written out.new) files.new paging.new
        (record { files = ⟦<Armed<F> as Backing>⟧.faults files.new; paging = ⟦<Armed<P> as Backing>⟧.faults paging.new }) end }
    ensures later { K.faults out.old ≤ K.faults out.new }
    ensures cause { IsErrOf result RunEnd.Failed → CountRises (K.faults out.old) (K.faults out.new) }
{
    let from = system.history().len();
    match system.take_oldest(files, paging) {
        Ok(true) => {
            show(alloc, report, system, from, out)?;
            Ok(true)
        }
        Ok(false) => Ok(false),
        Err(stop) => Err(end_of(stop)),
    }
}

// The takings of a settle.
fn settle<K: Sink, F: Backing, P: Backing>(
    alloc: Global,
    report: Report,
    system: &mut System,
    count: u32,
    out: &mut K,
    files: &mut Armed<F>,
    paging: &mut Armed<P>,
) -> Result<(), RunEnd>
    ghost given: { RunTaking F P }
    requires stands { SystemStands given.running.script.header given.running.outside system.old }
    requires backings { BackingsFit given.running.script.header given.running.outside (F.area given.running.files.inner) (F.area files.old.inner)
        (P.area paging.old.inner) system.old }
    requires settles { Settles report given system.old.history.items (K.written out.old) files.old paging.old
        (record { files = ⟦<Armed<F> as Backing>⟧.faults files.old; paging = ⟦<Armed<P> as Backing>⟧.faults paging.old }) }
    requires command { given.command ≡ Command.Settle count }
    requires none { takings system.old.history.items ≡ 0 }
    ensures stands { OnOk result (SystemStands given.running.script.header given.running.outside system.new) }
    ensures backings { BackingsFit given.running.script.header given.running.outside (F.area given.running.files.inner) (F.area files.new.inner)
        (P.area paging.new.inner) system.new }
    ensures runs { OnOk result (IsBetweenCommands report given.running system.new.history.items (K.written out.new) files.new paging.new
        (record { files = ⟦<Armed<F> as Backing>⟧.faults files.new; paging = ⟦<Armed<P> as Backing>⟧.faults paging.new })) }
    ensures lines { OnOk result (count_of is_line system.new.history.items
        ≡ count_of is_line system.old.history.items) }
    ensures stops { (end : RunEnd) → IsErrOf result end
        → RunStops report given.running system.new.history.items (K.written out.new) files.new paging.new
        (record { files = ⟦<Armed<F> as Backing>⟧.faults files.new; paging = ⟦<Armed<P> as Backing>⟧.faults paging.new }) end }
    ensures later { K.faults out.old ≤ K.faults out.new }
    ensures cause { IsErrOf result RunEnd.Failed → CountRises (K.faults out.old) (K.faults out.new) }
{
    'all: for _taken in 0..count {
        if !take_one(alloc, report, system, out, files, paging)? {
            return Ok(());
        }
    }
    Ok(())
}

/// Runs the script to its end, or to a write that fails, or until memory ends, or until the history
/// has 200,000 events where a step is left.
pub fn run_script<K: Sink, F: Backing, P: Backing>(
    alloc: Global,
    report: Report,
    script: &Script,
    out: &mut K,
    files: &mut Armed<F>,
    paging: &mut Armed<P>,
) -> Ran
    requires run { IsRunnable script.now }
    requires files { files.old.left ≡ 0 }
    requires paging { paging.old.left ≡ 0 }
    ensures ran { RanAs report script.now (outside_of (F.area files.old.inner) (P.area paging.old.inner) script.now.header) result.history.items result.end
        (K.written out.old) (K.written out.new) }
    ensures limit { IsBelowLimit result.history.items }
    ensures later { K.faults out.old ≤ K.faults out.new }
    ensures cause { result.end ≡ RunEnd.Failed → CountRises (K.faults out.old) (K.faults out.new) }

    // What the backings keep, and how they are armed.
    ensures kept { (host : ℕ) → host < length script.now.header.frames.items
        → PagingKeepsPages script.now.header host (outside_of (F.area files.old.inner) (P.area paging.old.inner) script.now.header) (P.area paging.new.inner)
        result.history.items }
    ensures carried { FilesCarry script.now.header (F.area files.old.inner) (F.area files.new.inner) result.history.items }
    ensures files { BackingKept device.Files (Some script.now) result.history.items files.old files.new
        (record {
          old = ⟦<Armed<F> as Backing>⟧.faults files.old;
          new = ⟦<Armed<F> as Backing>⟧.faults files.new;
          own_old = F.faults files.old.inner;
          own_new = F.faults files.new.inner;
        }) }
    ensures paging { BackingKept device.Paging (Some script.now) result.history.items paging.old paging.new
        (record {
          old = ⟦<Armed<P> as Backing>⟧.faults paging.old;
          new = ⟦<Armed<P> as Backing>⟧.faults paging.new;
          own_old = P.faults paging.old.inner;
          own_new = P.faults paging.new.inner;
        }) }
{
    let Ok(mut system) = System::new(alloc, &script.header) else {
        return Ran {
            history: History::new(alloc),
            end: RunEnd::NoMemory,
        };
    };
    let end = run_all(alloc, report, script, &mut system, out, files, paging);
    Ran {
        history: system.into_history(),
        end,
    }
}

// The commands, one after another.
fn run_all<K: Sink, F: Backing, P: Backing>(
    alloc: Global,
    report: Report,
    script: &Script,
    system: &mut System,
    out: &mut K,
    files: &mut Armed<F>,
    paging: &mut Armed<P>,
) -> RunEnd
    ghost given: { Running F P }
    requires script { given.script ≡ script.now }
    requires run { IsRunnable script.now }
    requires stands { SystemStands given.script.header given.outside system.old }
    requires backings { BackingsFit given.script.header given.outside (F.area given.files.inner) (F.area files.old.inner) (P.area paging.old.inner) system.old }
    requires runs { IsBetweenCommands report given system.old.history.items (K.written out.old) files.old paging.old
        (record { files = ⟦<Armed<F> as Backing>⟧.faults files.old; paging = ⟦<Armed<P> as Backing>⟧.faults paging.old }) }
    requires none { system.old.history.items ≡ [] }
    ensures backings { BackingsFit given.script.header given.outside (F.area given.files.inner) (F.area files.new.inner) (P.area paging.new.inner) system.new }
    ensures stops { RunStops report given system.new.history.items (K.written out.new) files.new paging.new
        (record { files = ⟦<Armed<F> as Backing>⟧.faults files.new; paging = ⟦<Armed<P> as Backing>⟧.faults paging.new }) result }
    ensures later { K.faults out.old ≤ K.faults out.new }
    ensures cause { result ≡ RunEnd.Failed → CountRises (K.faults out.old) (K.faults out.new) }
{
    'commands: for i in 0..script.commands.len() {
        let numbered = script.commands.at(i);
        if let Err(end) = run_one(alloc, report, system, numbered, out, files, paging) {
            return end;
        }
    }
    RunEnd::Done
}

// One command with all its steps, and their text.
fn run_one<K: Sink, F: Backing, P: Backing>(
    alloc: Global,
    report: Report,
    system: &mut System,
    numbered: &Numbered,
    out: &mut K,
    files: &mut Armed<F>,
    paging: &mut Armed<P>,
) -> Result<(), RunEnd>
    ghost given: { Running F P }
    requires stands { SystemStands given.script.header given.outside system.old }
    requires backings { BackingsFit given.script.header given.outside (F.area given.files.inner) (F.area files.old.inner) (P.area paging.old.inner) system.old }
    requires range { InRange given.script.header numbered.now.command }
    requires runs { IsBetweenCommands report given system.old.history.items (K.written out.old) files.old paging.old
        (record { files = ⟦<Armed<F> as Backing>⟧.faults files.old; paging = ⟦<Armed<P> as Backing>⟧.faults paging.old }) }
    requires next { IsNextOf given.script numbered.now system.old.history.items }
    ensures stands { OnOk result (SystemStands given.script.header given.outside system.new) }
    ensures backings { BackingsFit given.script.header given.outside (F.area given.files.inner) (F.area files.new.inner) (P.area paging.new.inner) system.new }
    ensures runs { OnOk result (IsBetweenCommands report given system.new.history.items (K.written out.new) files.new paging.new
        (record { files = ⟦<Armed<F> as Backing>⟧.faults files.new; paging = ⟦<Armed<P> as Backing>⟧.faults paging.new })) }
    ensures lines { OnOk result (count_of is_line system.new.history.items
        ≡ count_of is_line system.old.history.items + 1) }
    ensures stops { (end : RunEnd) → IsErrOf result end
        → RunStops report given system.new.history.items (K.written out.new) files.new paging.new
        (record { files = ⟦<Armed<F> as Backing>⟧.faults files.new; paging = ⟦<Armed<P> as Backing>⟧.faults paging.new }) end }
    ensures later { K.faults out.old ≤ K.faults out.new }
    ensures cause { IsErrOf result RunEnd.Failed → CountRises (K.faults out.old) (K.faults out.new) }
{
    if system.history().len() >= MOST_EVENTS {
        return Err(RunEnd::EventLimit);
    }
    turn(alloc, report, system, numbered, out, files, paging)?;
    match numbered.command {
        Command::Settle { count } => {
            settle(alloc, report, system, count, out, files, paging)?;
            Ok(())
        }
        _ => Ok(()),
    }
}
