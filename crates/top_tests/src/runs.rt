// A source and a sink that fail.
use crate::shows::{leave, shows};
use std::alloc::Global;
use std::test::Fail;
use vm_outside::{Armed, MemSink, MemSource, SureBacking};
use vm_top::{Status, pagers_main};

const SMALLEST: &str = "page 16\nhosts 1 4\ntask 0 0\nallocate 0 0 16\nload 0 5 1\n";

// The status of the smallest script, and what was written, where these calls fail.
fn with_faults(alloc: Global, read: u64, write: u64) -> Result<(Status, MemSink), Fail> {
    let mut words = Vec::new(alloc);
    words.push(String::from_str(alloc, "run")?)?;
    let mut source = MemSource::new(SMALLEST.as_bytes().to_vec(alloc)?, [read].to_vec(alloc)?);
    let mut sink = MemSink::new(alloc, [write].to_vec(alloc)?);
    let mut files = Armed::new(SureBacking::new(alloc));
    let mut paging = Armed::new(SureBacking::new(alloc));
    let outcome = pagers_main(
        alloc,
        &words,
        &mut source,
        &mut sink,
        &mut files,
        &mut paging,
    );
    let status = outcome.status;
    leave(outcome);
    leave(source);
    leave(files);
    leave(paging);
    Ok((status, sink))
}

#[test]
fn a_fault_of_the_source_is_told(rt: HostRuntime) -> Result<(), Fail> {
    // The second call says that the script has ended.
    for call in 1..3u64 {
        let (status, sink) = with_faults(rt.alloc(), call, 9)?;
        shows(&rt, status == Status::ReadFault && sink.bytes().is_empty());
    }
    Ok(())
}

#[test]
fn a_fault_of_the_sink_is_told(rt: HostRuntime) -> Result<(), Fail> {
    let (status, sink) = with_faults(rt.alloc(), 9, 2)?;
    shows(&rt, status == Status::OutputFault);
    shows(&rt, sink.bytes() == b"line 3\nmade 0 0\n".as_slice());
    Ok(())
}

#[test]
fn no_fault_is_told(rt: HostRuntime) -> Result<(), Fail> {
    let (status, sink) = with_faults(rt.alloc(), 9, 9)?;
    shows(
        &rt,
        status == Status::Done && sink.bytes().starts_with(b"line 3\n"),
    );
    Ok(())
}
