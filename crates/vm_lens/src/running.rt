// One run of a script in memory.
ghost use Rattle.std.specs.Prelude.{◌≡◌, IfOk, Some};
ghost use Rattle.vm_top.specs.Words.{asked_by};
ghost use Rattle.vm_top.specs.declared.words.Job.TheVariants as jobs;
ghost use Rattle.vm_top.specs.declared.words.Report.TheVariants.{Summary};
ghost use Rattle.vm_lens.specs.Exploring.{RanWhole};

use std::alloc::Global;
use vm_base::NoMemory;
use vm_outside::{Armed, SureBacking, SureSink, SureSource};
use vm_top::{Outcome, Status, pagers_main};

// The words that ask for a run without its history.
fn summary(alloc: Global) -> Result<Vec<String>, NoMemory>
    ensures { IfOk result (λ words. asked_by words.items ≡ Some (jobs.Run Summary)) }
{
    let mut words = Vec::new(alloc);
    words.push(String::from_str(alloc, "summary")?)?;
    Ok(words)
}

/// Runs a script over backings that hold nothing yet.
pub fn run(alloc: Global, script: Vec<u8>) -> Result<Outcome, NoMemory>
    ensures { IfOk result (λ ran. ran.status ≡ Status.Done → RanWhole ran.script ran.history.items) }
{
    let words = summary(alloc)?;
    let mut source = SureSource::new(script);
    let mut sink = SureSink::new(alloc);
    let mut files = Armed::new(SureBacking::new(alloc));
    let mut paging = Armed::new(SureBacking::new(alloc));
    Ok(pagers_main(
        alloc,
        &words,
        &mut source,
        &mut sink,
        &mut files,
        &mut paging,
    ))
}
