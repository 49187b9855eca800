// The call that does all that the program does.
ghost use Rattle.std.specs.Prelude.{◌≡◌, ◌≢◌, ◌⊎◌, ◌≤◌, IfSome, List, None, Some, ℕ};
ghost use Rattle.std.specs.declared.option.Option.{Option};
ghost use Rattle.std.specs.Io.KnownBytes.{Appends};
ghost use Rattle.vm_model.specs.declared.event.Device.TheVariants as device;
ghost use Rattle.vm_model.specs.declared.fault.ScriptFault.{ScriptFault};
ghost use Rattle.vm_model.specs.declared.script.Script.{Script};
ghost use Rattle.vm_model.specs.Ranges.{IsBetween, KeepsRanges};
ghost use Rattle.vm_outside.specs.Causes.{CountRises};
ghost use Rattle.vm_top.specs.Always.{BackingKept, HoldsAlways, LosesNothingElse};
ghost use Rattle.vm_top.specs.Ending.{EndsAs, RunHasEnded, Tells, status_after};
ghost use Rattle.vm_top.specs.Top.{IsBad, IsRunDone, IsEventLimit, NothingRun, IsOutputFault, IsNoMemory, NothingDone, OfBytes, bad_text, usage_text};
ghost use Rattle.vm_legal.specs.Outside.{Outside};
ghost use Rattle.vm_top.specs.Making.{Generates};
ghost use Rattle.vm_top.specs.Reading.{LeavesBytes, LeavesSource};
ghost use Rattle.vm_top.specs.Run.{IsRunnable, RanAs, outside_of};
ghost use Rattle.vm_top.specs.Status.{status_number};
ghost use Rattle.vm_top.specs.Words.{asked_by};
ghost use Rattle.vm_top.specs.declared.words.Job.TheVariants as jobs;
ghost use Rattle.vm_top.specs.declared.words.Report.{Report};

use crate::reading::{ReadStop, read_all};
use crate::render::{bad_text, write_report};
use crate::run::{Ran, RunEnd, run_script};
use crate::words::{Job, Report, asked};
use std::alloc::Global;
use vm_base::WriteStop;
use vm_gen::make_script;
use vm_model::{History, Script, ScriptFault};
use vm_outside::{Armed, Backing, Sink, Source};
use vm_text::{ScriptError, read_script};

const USAGE: &[u8] = b"usage: pagers run | summary | generate NUMBER LINES\n";

/// How the call ended.
#[derive(Clone, Copy, Debug, PartialEq, Eq)]
pub enum Status {
    /// The whole script was run.
    Done,
    /// The script is outside the grammar: its first line that has a fault, and that line's first fault.
    BadScript { line: u32, kind: ScriptFault },
    /// The words are no command.
    Usage,
    /// The source failed.
    ReadFault,
    /// The sink failed.
    OutputFault,
    /// A step is left, and the history has 200,000 events or more.
    EventLimit,
    /// No memory was there.
    NoMemory,
}

impl Status {
    /// The exit status of the program.
    pub fn number(self) -> u8
        ensures { result ≡ status_number self }
    {
        match self {
            Status::Done => 0,
            Status::BadScript { .. } => 1,
            Status::Usage => 2,
            Status::ReadFault => 3,
            Status::OutputFault => 4,
            Status::EventLimit => 5,
            Status::NoMemory => 6,
        }
    }
}

/// How the call ended, the script that was run, if one was, and the history of the run.
#[derive(Drop)]
pub struct Outcome {
    pub status: Status,
    pub script: Option<Script>,
    pub history: History,
}

// Nothing was run.
fn ended(alloc: Global, status: Status) -> Outcome
    ensures status { result.status ≡ status }
    ensures nothing { NothingRun result.script result.history.items }
{
    Outcome {
        status,
        script: None,
        history: History::new(alloc),
    }
}

// This status, unless the write failed.
fn status_after(wrote: Result<(), WriteStop>, status: Status) -> Status
    ensures { result ≡ status_after wrote status }
{
    match wrote {
        Ok(()) => status,
        Err(WriteStop::Failed) => Status::OutputFault,
        Err(WriteStop::NoMemory) => Status::NoMemory,
    }
}

// Writes a text that is told with this status.
fn tell<K: Sink>(text: &[u8], status: Status, out: &mut K) -> Status
    requires { ¬ (status ≡ Status.OutputFault) }
    ensures told { Tells status text.now (K.written out.old) (K.written out.new) result }
    ensures cause { result ≡ Status.OutputFault → CountRises (K.faults out.old) (K.faults out.new) }
    ensures later { K.faults out.old ≤ K.faults out.new }
{
    status_after(out.write(text), status)
}

// Writes the line that tells the script's fault.
fn tell_bad<K: Sink>(alloc: Global, line: u32, kind: ScriptFault, out: &mut K) -> Status
    ensures told { Tells (Status.BadScript line kind) (bad_text line kind) (K.written out.old) (K.written out.new) result }
    ensures cause { result ≡ Status.OutputFault → CountRises (K.faults out.old) (K.faults out.new) }
    ensures later { K.faults out.old ≤ K.faults out.new }
{
    match bad_text(alloc, line, kind) {
        Ok(text) => tell(&text, Status::BadScript { line, kind }, out),
        Err(_) => Status::NoMemory,
    }
}

// Writes what is left to be written of a run.
fn finish<K: Sink>(alloc: Global, report: Report, ran: &Ran, out: &mut K) -> Status
    ensures ends { (run : Script) → (outside : Outside) → (start : Option (List ℕ))
        → RanAs report run outside ran.now.history.items ran.now.end start (K.written out.old)
        → EndsAs report run outside ran.now.history.items start (K.written out.new) result }
    ensures memory { ran.now.end ≡ RunEnd.NoMemory → result ≡ Status.NoMemory }
    ensures cause { result ≡ Status.OutputFault
        → (ran.now.end ≡ RunEnd.Failed) ⊎ CountRises (K.faults out.old) (K.faults out.new) }
    ensures later { K.faults out.old ≤ K.faults out.new }
{
    match ran.end {
        RunEnd::Done => status_after(write_report(alloc, report, &ran.history, out), Status::Done),
        RunEnd::EventLimit => {
            status_after(
                write_report(alloc, report, &ran.history, out),
                Status::EventLimit,
            )
        }
        RunEnd::Failed => Status::OutputFault,
        RunEnd::NoMemory => Status::NoMemory,
    }
}

// Runs a script.
fn run_read<K: Sink, F: Backing, P: Backing>(
    alloc: Global,
    report: Report,
    script: Script,
    out: &mut K,
    files: &mut Armed<F>,
    paging: &mut Armed<P>,
) -> Outcome
    requires run { IsRunnable script }
    requires files { files.old.left ≡ 0 }
    requires paging { paging.old.left ≡ 0 }
    ensures ended { RunHasEnded report script (outside_of (F.area files.old.inner) (P.area paging.old.inner) script.header) result.script result.history.items
        (K.written out.old) (K.written out.new) result.status }
    ensures cause { result.status ≡ Status.OutputFault → CountRises (K.faults out.old) (K.faults out.new) }
    ensures later { K.faults out.old ≤ K.faults out.new }
    ensures always { HoldsAlways (F.area files.old.inner) (F.area files.new.inner) (P.area paging.old.inner) (P.area paging.new.inner) result.script
        result.history.items }
    ensures files { BackingKept device.Files result.script result.history.items files.old files.new
        (record {
          old = ⟦<Armed<F> as Backing>⟧.faults files.old;
          new = ⟦<Armed<F> as Backing>⟧.faults files.new;
          own_old = F.faults files.old.inner;
          own_new = F.faults files.new.inner;
        }) }
    ensures paging { BackingKept device.Paging result.script result.history.items paging.old paging.new
        (record {
          old = ⟦<Armed<P> as Backing>⟧.faults paging.old;
          new = ⟦<Armed<P> as Backing>⟧.faults paging.new;
          own_old = P.faults paging.old.inner;
          own_new = P.faults paging.new.inner;
        }) }
    ensures losses { LosesNothingElse (record {
      old = ⟦<Armed<F> as Backing>⟧.faults files.old;
      new = ⟦<Armed<F> as Backing>⟧.faults files.new;
      own_old = F.faults files.old.inner;
      own_new = F.faults files.new.inner;
    })
        (record {
          old = ⟦<Armed<P> as Backing>⟧.faults paging.old;
          new = ⟦<Armed<P> as Backing>⟧.faults paging.new;
          own_old = P.faults paging.old.inner;
          own_new = P.faults paging.new.inner;
        }) result.script result.history.items }
{
    let ran = run_script(alloc, report, &script, out, files, paging);
    let status = finish(alloc, report, &ran, out);
    Outcome {
        status,
        script: Some(script),
        history: ran.history,
    }
}

// Reads a script from the source, and runs it.
fn run<S: Source, K: Sink, F: Backing, P: Backing>(
    alloc: Global,
    report: Report,
    source: &mut S,
    out: &mut K,
    files: &mut Armed<F>,
    paging: &mut Armed<P>,
) -> Outcome
    requires files { files.old.left ≡ 0 }
    requires paging { paging.old.left ≡ 0 }
    ensures done { result.status ≡ Status.Done → IsRunDone (S.left source.old) (outside_of (F.area files.old.inner) (P.area paging.old.inner)) report
        result.script result.history.items (K.written out.old) (K.written out.new) }
    ensures bad { (line : ℕ) → (kind : ScriptFault) → result.status ≡ Status.BadScript line kind
        → IsBad (S.left source.old) line kind result.script result.history.items (K.written out.old) (K.written out.new) }
    ensures usage { ¬ (result.status ≡ Status.Usage) }
    ensures read { result.status ≡ Status.ReadFault
        → NothingDone result.script result.history.items (K.written out.old) (K.written out.new) }
    ensures output { result.status ≡ Status.OutputFault
        → IsOutputFault (S.left source.old) (outside_of (F.area files.old.inner) (P.area paging.old.inner)) report result.script result.history.items
        (K.written out.old) (K.written out.new) }
    ensures memory { result.status ≡ Status.NoMemory → IsNoMemory (S.left source.old) (outside_of (F.area files.old.inner) (P.area paging.old.inner)) report
        result.script result.history.items (K.written out.old) (K.written out.new) }
    ensures full { result.status ≡ Status.EventLimit → IsEventLimit (S.left source.old) (outside_of (F.area files.old.inner) (P.area paging.old.inner)) report
        result.script result.history.items (K.written out.old) (K.written out.new) }
    ensures ranges { IfSome result.script KeepsRanges }
    ensures source { OfBytes (S.left source.old) (λ bytes. LeavesBytes result.status result.script bytes (S.left source.new)) }
    ensures read_cause { result.status ≡ Status.ReadFault → CountRises (S.faults source.old) (S.faults source.new) }
    ensures output_cause { result.status ≡ Status.OutputFault → CountRises (K.faults out.old) (K.faults out.new) }
    ensures source_later { S.faults source.old ≤ S.faults source.new }
    ensures sink_later { K.faults out.old ≤ K.faults out.new }
    ensures always { HoldsAlways (F.area files.old.inner) (F.area files.new.inner) (P.area paging.old.inner) (P.area paging.new.inner) result.script
        result.history.items }
    ensures files { BackingKept device.Files result.script result.history.items files.old files.new
        (record {
          old = ⟦<Armed<F> as Backing>⟧.faults files.old;
          new = ⟦<Armed<F> as Backing>⟧.faults files.new;
          own_old = F.faults files.old.inner;
          own_new = F.faults files.new.inner;
        }) }
    ensures paging { BackingKept device.Paging result.script result.history.items paging.old paging.new
        (record {
          old = ⟦<Armed<P> as Backing>⟧.faults paging.old;
          new = ⟦<Armed<P> as Backing>⟧.faults paging.new;
          own_old = P.faults paging.old.inner;
          own_new = P.faults paging.new.inner;
        }) }
    ensures losses { LosesNothingElse (record {
      old = ⟦<Armed<F> as Backing>⟧.faults files.old;
      new = ⟦<Armed<F> as Backing>⟧.faults files.new;
      own_old = F.faults files.old.inner;
      own_new = F.faults files.new.inner;
    })
        (record {
          old = ⟦<Armed<P> as Backing>⟧.faults paging.old;
          new = ⟦<Armed<P> as Backing>⟧.faults paging.new;
          own_old = P.faults paging.old.inner;
          own_new = P.faults paging.new.inner;
        }) result.script result.history.items }
{
    let bytes = match read_all(alloc, source) {
        Ok(bytes) => bytes,
        Err(ReadStop::Failed) => return ended(alloc, Status::ReadFault),
        Err(ReadStop::NoMemory) => return ended(alloc, Status::NoMemory),
    };
    let script = match read_script(alloc, &bytes) {
        Ok(script) => script,
        Err(ScriptError::Bad { line, kind }) => {
            let status = tell_bad(alloc, line, kind, out);
            return ended(alloc, status);
        }
        Err(ScriptError::NoMemory) => return ended(alloc, Status::NoMemory),
    };
    run_read(alloc, report, script, out, files, paging)
}

// Makes a script, and runs it for its summary.
fn generate<K: Sink, F: Backing, P: Backing>(
    alloc: Global,
    number: u64,
    lines: u32,
    out: &mut K,
    files: &mut Armed<F>,
    paging: &mut Armed<P>,
) -> Outcome
    requires lines { IsBetween 1 10000 lines }
    requires files { files.old.left ≡ 0 }
    requires paging { paging.old.left ≡ 0 }
    ensures generates { Generates number lines (outside_of (F.area files.old.inner) (P.area paging.old.inner)) result.script result.history.items
        (K.written out.old) (K.written out.new) result.status }
    ensures bad { (line : ℕ) → (kind : ScriptFault) → ¬ (result.status ≡ Status.BadScript line kind) }
    ensures usage { ¬ (result.status ≡ Status.Usage) }
    ensures read { ¬ (result.status ≡ Status.ReadFault) }
    ensures ranges { IfSome result.script KeepsRanges }
    ensures output_cause { result.status ≡ Status.OutputFault → CountRises (K.faults out.old) (K.faults out.new) }
    ensures sink_later { K.faults out.old ≤ K.faults out.new }
    ensures always { HoldsAlways (F.area files.old.inner) (F.area files.new.inner) (P.area paging.old.inner) (P.area paging.new.inner) result.script
        result.history.items }
    ensures files { BackingKept device.Files result.script result.history.items files.old files.new
        (record {
          old = ⟦<Armed<F> as Backing>⟧.faults files.old;
          new = ⟦<Armed<F> as Backing>⟧.faults files.new;
          own_old = F.faults files.old.inner;
          own_new = F.faults files.new.inner;
        }) }
    ensures paging { BackingKept device.Paging result.script result.history.items paging.old paging.new
        (record {
          old = ⟦<Armed<P> as Backing>⟧.faults paging.old;
          new = ⟦<Armed<P> as Backing>⟧.faults paging.new;
          own_old = P.faults paging.old.inner;
          own_new = P.faults paging.new.inner;
        }) }
    ensures losses { LosesNothingElse (record {
      old = ⟦<Armed<F> as Backing>⟧.faults files.old;
      new = ⟦<Armed<F> as Backing>⟧.faults files.new;
      own_old = F.faults files.old.inner;
      own_new = F.faults files.new.inner;
    })
        (record {
          old = ⟦<Armed<P> as Backing>⟧.faults paging.old;
          new = ⟦<Armed<P> as Backing>⟧.faults paging.new;
          own_old = P.faults paging.old.inner;
          own_new = P.faults paging.new.inner;
        }) result.script result.history.items }
{
    match make_script(alloc, number, lines) {
        Ok(script) => run_read(alloc, Report::Summary, script, out, files, paging),
        Err(_) => ended(alloc, Status::NoMemory),
    }
}

/// Does what the words say: `run` reads a script from the source, runs it, and writes its history;
/// `summary` does the same, and writes eleven numbers in its place; `generate` runs a script that it
/// makes, and writes such numbers of it.
///
/// `words` are without the program's name. The script is read to its end, or beyond its 1,048,576th
/// byte by 4,096 bytes at most, and is a script of the grammar before its first step. Under `run` the
/// events of each step are written, in one piece, when the step has ended. The default pager of host H
/// keeps its pages in the area `pagingH` of `paging`, and the pager of a declared file in the area of the
/// file's name of `files`. An arming that stands in a backing is taken away first.
pub fn pagers_main<S: Source, K: Sink, F: Backing, P: Backing>(
    alloc: Global,
    words: &[String],
    script: &mut S,
    out: &mut K,
    files: &mut Armed<F>,
    paging: &mut Armed<P>,
) -> Outcome
    // The whole script of the source was run: the history is legal for it, and canonical, and its report was written and nothing else.
    ensures done { result.status ≡ Status.Done → (report : Report) → asked_by words.now ≡ Some (jobs.Run report)
        → IsRunDone (S.left script.old) (outside_of (F.area files.old.inner) (P.area paging.old.inner)) report result.script result.history.items
        (K.written out.old) (K.written out.new) }

    // The source's bytes are no script: their first fault was written.
    ensures bad { (line : ℕ) → (kind : ScriptFault) → result.status ≡ Status.BadScript line kind
        → (report : Report) × (asked_by words.now ≡ Some (jobs.Run report))
        × IsBad (S.left script.old) line kind result.script result.history.items (K.written out.old) (K.written out.new) }

    // The words are no command, and then nothing else can come of them but a fault of the sink or want of memory.
    ensures usage { result.status ≡ Status.Usage
        → (asked_by words.now ≡ None) × NothingRun result.script result.history.items
        × Appends (K.written out.old) (K.written out.new) usage_text }
    ensures no_command { asked_by words.now ≡ None
        → NothingRun result.script result.history.items
        × Tells Status.Usage usage_text (K.written out.old) (K.written out.new) result.status }

    // A script was made, and run: the history is legal for it in the same way, and its summary was written and nothing else.
    ensures generate { (number : ℕ) → (lines : ℕ) → asked_by words.now ≡ Some (jobs.Generate number lines)
        → Generates number lines (outside_of (F.area files.old.inner) (P.area paging.old.inner)) result.script result.history.items (K.written out.old)
        (K.written out.new) result.status }

    // The source failed, or the sink.
    ensures read { result.status ≡ Status.ReadFault
        → (report : Report) × (asked_by words.now ≡ Some (jobs.Run report))
        × NothingDone result.script result.history.items (K.written out.old) (K.written out.new) }
    ensures read_cause { result.status ≡ Status.ReadFault → CountRises (S.faults script.old) (S.faults script.new) }
    ensures output { result.status ≡ Status.OutputFault → (report : Report)
        → asked_by words.now ≡ Some (jobs.Run report)
        → IsOutputFault (S.left script.old) (outside_of (F.area files.old.inner) (P.area paging.old.inner)) report result.script result.history.items
        (K.written out.old) (K.written out.new) }
    ensures output_cause { result.status ≡ Status.OutputFault → CountRises (K.faults out.old) (K.faults out.new) }

    // Memory ended.
    ensures memory { result.status ≡ Status.NoMemory → (report : Report) → asked_by words.now ≡ Some (jobs.Run report)
        → IsNoMemory (S.left script.old) (outside_of (F.area files.old.inner) (P.area paging.old.inner)) report result.script result.history.items
        (K.written out.old) (K.written out.new) }

    // The history is full while a step is left.
    ensures full { result.status ≡ Status.EventLimit → (report : Report)
        → asked_by words.now ≡ Some (jobs.Run report)
        → IsEventLimit (S.left script.old) (outside_of (F.area files.old.inner) (P.area paging.old.inner)) report result.script result.history.items
        (K.written out.old) (K.written out.new) }

    // Words that ask for no run leave the source as it was; a run reads it to its end, or beyond what a script may have. Whatever it tells, the script
    // that is held keeps the grammar's ranges. Counts of faults never fall.
    ensures source { LeavesSource S.left (asked_by words.now) result.status result.script script.old script.new }
    ensures ranges { IfSome result.script KeepsRanges }
    ensures source_later { S.faults script.old ≤ S.faults script.new }
    ensures sink_later { K.faults out.old ≤ K.faults out.new }

    // At every status: what holds of the history, and of what files and paging area tell; how each of them is armed, and how often it failed; and what
    // alone is lost.
    ensures always { HoldsAlways (F.area files.old.inner) (F.area files.new.inner) (P.area paging.old.inner) (P.area paging.new.inner) result.script
        result.history.items }
    ensures files { BackingKept device.Files result.script result.history.items files.old files.new
        (record {
          old = ⟦<Armed<F> as Backing>⟧.faults files.old;
          new = ⟦<Armed<F> as Backing>⟧.faults files.new;
          own_old = F.faults files.old.inner;
          own_new = F.faults files.new.inner;
        }) }
    ensures paging { BackingKept device.Paging result.script result.history.items paging.old paging.new
        (record {
          old = ⟦<Armed<P> as Backing>⟧.faults paging.old;
          new = ⟦<Armed<P> as Backing>⟧.faults paging.new;
          own_old = P.faults paging.old.inner;
          own_new = P.faults paging.new.inner;
        }) }
    ensures losses { LosesNothingElse (record {
      old = ⟦<Armed<F> as Backing>⟧.faults files.old;
      new = ⟦<Armed<F> as Backing>⟧.faults files.new;
      own_old = F.faults files.old.inner;
      own_new = F.faults files.new.inner;
    })
        (record {
          old = ⟦<Armed<P> as Backing>⟧.faults paging.old;
          new = ⟦<Armed<P> as Backing>⟧.faults paging.new;
          own_old = P.faults paging.old.inner;
          own_new = P.faults paging.new.inner;
        }) result.script result.history.items }
{
    files.disarm();
    paging.disarm();
    match asked(words) {
        Some(Job::Run(report)) => run(alloc, report, script, out, files, paging),
        Some(Job::Generate { number, lines }) => generate(alloc, number, lines, out, files, paging),
        None => {
            let status = tell(USAGE, Status::Usage, out);
            ended(alloc, status)
        }
    }
}
