use crate::shows::shows;
use std::alloc::Global;
use std::io;
use std::io::{ErrorKind, Read, Write};
use std::test::Fail;
use vm_base::{Failed, WriteStop};
use vm_outside::{
    Armed, Backing, MemBacking, MemSink, MemSource, Sink, Source, StdSink, StdSource, SureBacking,
    SureSink, SureSource,
};

// Gives or takes three bytes a call, and fails at the call of this number.
#[derive(Drop)]
pub struct Choppy {
    bytes: Vec<u8>,
    calls: u64,
    bad: u64,
    kind: ErrorKind,
}

impl Choppy {
    pub fn next(&mut self) -> io::Result<()> {
        self.calls = self.calls.saturating_add(1);
        if self.calls == self.bad {
            return Err(io::Error::from(self.kind));
        }
        Ok(())
    }
}

impl Read for Choppy {
    fn read(&mut self, buf: &mut [u8]) -> io::Result<usize> {
        self.next()?;
        let count = buf.len().min(3);
        buf[..count].fill(7);
        Ok(count)
    }
}

impl Write for Choppy {
    fn write(&mut self, buf: &[u8]) -> io::Result<usize> {
        self.next()?;
        let count = buf.len().min(3);
        self.bytes.extend_from_slice(&buf[..count])?;
        Ok(count)
    }

    fn flush(&mut self) -> io::Result<()> {
        self.next()
    }
}

pub fn failing_at(alloc: Global, bad: u64, kind: ErrorKind) -> Choppy {
    Choppy {
        bytes: Vec::new(alloc),
        calls: 0,
        bad,
        kind,
    }
}

// The counts that three reads of four bytes give, with 9 for a fault.
fn reads<S: Source>(source: &mut S) -> [usize; 3] {
    let mut counts = [0; 3];
    for i in 0..3 {
        let mut buf = [0; 4];
        counts[i] = source.read(&mut buf).unwrap_or(9);
    }
    counts
}

#[test]
fn sure_streams(rt: HostRuntime) -> Result<(), Fail> {
    let bytes = b"seven c".to_vec(rt.alloc())?;
    shows(&rt, reads(&mut SureSource::new(bytes)) == [4, 3, 0]);
    let mut sink = SureSink::new(rt.alloc());
    shows(&rt, sink.write(b"one") == Ok(()));
    shows(&rt, sink.bytes() == b"one".as_slice());
    Ok(())
}

#[test]
fn planned_reads(rt: HostRuntime) -> Result<(), Fail> {
    let bytes = b"seven c".to_vec(rt.alloc())?;
    let mut source = MemSource::new(bytes, [2].to_vec(rt.alloc())?);
    shows(&rt, reads(&mut source) == [4, 9, 3]);
    Ok(())
}

#[test]
fn planned_writes(rt: HostRuntime) -> Result<(), Fail> {
    let mut sink = MemSink::new(rt.alloc(), [2].to_vec(rt.alloc())?);
    shows(&rt, sink.write(b"one") == Ok(()));
    shows(&rt, sink.write(b"two") == Err(WriteStop::Failed));
    shows(&rt, sink.bytes() == b"one".as_slice());
    Ok(())
}

#[test]
fn reads_of_a_stream(rt: HostRuntime) {
    shows(
        &rt,
        reads(&mut StdSource::new(b"seven c".as_slice())) == [4, 3, 0],
    );
    let mut failing = StdSource::new(failing_at(rt.alloc(), 2, ErrorKind::Other));
    shows(&rt, reads(&mut failing) == [3, 9, 3]);
    let mut interrupted = StdSource::new(failing_at(rt.alloc(), 2, ErrorKind::Interrupted));
    shows(&rt, reads(&mut interrupted) == [3, 3, 3]);
}

#[test]
fn writes_to_a_stream(rt: HostRuntime) {
    let mut bytes: Vec<u8> = Vec::new(rt.alloc());
    shows(&rt, StdSink::new(&mut bytes).write(b"four") == Ok(()));
    shows(&rt, bytes.as_slice() == b"four".as_slice());
    let mut full = [0; 2];
    let wrote = StdSink::new(full.as_mut_slice()).write(b"four");
    shows(&rt, wrote == Err(WriteStop::Failed));
}

#[test]
fn failing_writes_to_a_stream(rt: HostRuntime) {
    // Three bytes, one byte and a flush.
    for bad in 1..5u64 {
        let mut sink = StdSink::new(failing_at(rt.alloc(), bad, ErrorKind::Other));
        shows(&rt, sink.write(b"four").is_ok() == (bad == 4));
    }
}

fn read_area<B: Backing>(backing: &mut B, at: u64) -> Result<[u8; 4], Failed> {
    let mut buf = [1; 4];
    backing.read("a", at, &mut buf)?;
    Ok(buf)
}

fn is(area: Option<&[u8]>, want: &[u8]) -> bool {
    match area {
        Some(bytes) => bytes == want,
        None => false,
    }
}

#[test]
fn areas(rt: HostRuntime) {
    let mut backing = SureBacking::new(rt.alloc());
    shows(&rt, read_area(&mut backing, 0) == Ok([0; 4]));
    shows(&rt, backing.write("a", 2, b"xyz") == Ok(()));
    shows(&rt, backing.length("a") == Ok(Some(5)));
    shows(&rt, read_area(&mut backing, 3) == Ok(*b"yz\0\0"));
    shows(&rt, is(backing.area("a"), b"\0\0xyz"));
}

#[test]
fn areas_put(rt: HostRuntime) {
    let mut backing = SureBacking::new(rt.alloc());
    shows(&rt, backing.put_area("b", b"long") == Ok(()));
    shows(&rt, backing.put_area("b", b"b") == Ok(()));
    shows(
        &rt,
        is(backing.area("b"), b"b") && backing.area("a").is_none(),
    );
}

#[test]
fn arming(rt: HostRuntime) {
    let mut backing = Armed::new(SureBacking::new(rt.alloc()));
    backing.arm(2);
    shows(&rt, backing.write("a", 0, b"x") == Ok(()));
    shows(&rt, backing.write("a", 0, b"y") == Err(WriteStop::Failed));
    shows(&rt, backing.reached() == 1);
    shows(&rt, is(backing.inner().area("a"), b"x"));
}

#[test]
fn disarming(rt: HostRuntime) {
    let mut backing = Armed::new(SureBacking::new(rt.alloc()));
    backing.arm(1);
    backing.disarm();
    shows(&rt, backing.length("a") == Ok(None));
    backing.arm(1);
    shows(&rt, backing.length("a") == Err(Failed));
    backing.arm(1);
    shows(&rt, read_area(&mut backing, 0) == Err(Failed));
}

#[test]
fn planned_areas(rt: HostRuntime) -> Result<(), Fail> {
    let mut backing = MemBacking::new(rt.alloc(), [2].to_vec(rt.alloc())?);
    shows(&rt, backing.put_area("a", b"old") == Ok(()));
    shows(&rt, backing.length("a") == Ok(Some(3)));
    shows(&rt, backing.write("a", 0, b"new") == Err(WriteStop::Failed));
    shows(&rt, is(backing.area("a"), b"old"));
    Ok(())
}
