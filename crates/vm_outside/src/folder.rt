// The files of a folder as a backing.
ghost use Rattle.std.specs.Prelude.{◌≡◌, ◌≤◌, ◌<◌, ℕ, None, false, length, take, IfOk, IsErr, IsErrOf, IsOkUnless, OnOk, OnErr};
ghost use Rattle.std.specs.Io.KnownBytes.{Consumes, IsAtEnd};
ghost use Rattle.std.specs.List.{list_all};
ghost use Rattle.vm_outside.specs.Areas.{LengthTold, ReadTold, WriteTold};
ghost use Rattle.vm_outside.specs.Causes.{next_count, CallHasCause, WriteHasCause};
ghost use Rattle.vm_outside.specs.Folders.{is_small_letter, is_plain, is_file_name};

use crate::Backing;
use std::fs::{OpenFile, OpenOptions};
use std::io::{ErrorKind, Read, Seek, SeekFrom, Write};
use std::marker::Model;
use std::rt::Files;
use std::{fs, io};
use vm_base::{Failed, WriteStop};

/// The files of the folder in which the program was started: a name's area is the file of that name,
/// which each call opens anew. It tells nothing of content, and counts the calls that failed. What is
/// there and is no regular file fails; a symbolic link is followed by the system. A write never makes
/// a file shorter, and waits for no disk; where it fails it may have made the file.
///
/// A name is 1 to 32 lower-case letters, digits and underscores, a letter first, as the script's
/// grammar has it. So it has no separator and no dot, and leads out of the folder nowhere; a call with
/// any other name fails and asks the system for nothing.
#[derive(Drop)]
pub struct Folder<R: Files> {
    files: R,
    faults: u64,
}

impl<R: Files> Model for Folder<R> {
    ghost use Rattle.vm_outside.specs.Adapters.{Counted};

    ghost Value = { Counted R };

    ghost view = { λ s. record { inner = s.files; faults = s.faults } };
}

fn is_small_letter(byte: u8) -> bool
    ensures { result ≡ is_small_letter byte }
{
    byte >= 97 && byte <= 122
}

fn is_plain(byte: u8) -> bool
    ensures { result ≡ is_plain byte }
{
    is_small_letter(byte) || (byte >= 48 && byte <= 57) || byte == 95
}

fn all_plain(name: &[u8]) -> bool
    ensures { result ≡ list_all is_plain name.now }
{
    name.iter().all(|byte| is_plain(*byte))
}

fn is_file_name(name: &[u8]) -> bool
    ensures { result ≡ is_file_name name.now }
{
    if name.is_empty() || name.len() > 32 || !is_small_letter(name[0]) {
        return false;
    }
    all_plain(name)
}

// The length of a file, None where it isn't there.
fn length_of(files: &impl Files, name: &str) -> io::Result<Option<u64>>
    ensures name { is_file_name name.now ≡ false → IsErr result }
{
    if !is_file_name(name.as_bytes()) {
        return Err(ErrorKind::InvalidInput.into());
    }
    match fs::metadata(files, name) {
        Ok(found) if found.is_file() => Ok(Some(found.len())),
        // A folder, or what a call would wait for, as a pipe.
        Ok(_) => Err(ErrorKind::Unsupported.into()),
        Err(error) if error.kind() == ErrorKind::NotFound => Ok(None),
        Err(error) => Err(error),
    }
}

// Reads on until the buffer is full or the file ends, and gives the number of bytes read.
fn read_on<F: Read>(file: &mut F, buf: &mut [u8]) -> io::Result<usize>
    ensures bound { IfOk result (λ n. n ≤ length buf.new) }
    ensures bytes { IfOk result (λ n. Consumes (F.remaining file.old) (F.remaining file.new) (take n buf.new)) }
    ensures end { IfOk result (λ n. n < length buf.new → IsAtEnd (F.remaining file.new)) }
{
    let mut got = 0;
    'pieces: for _ in 0..u64::MAX {
        if got >= buf.len() {
            return Ok(got);
        }
        match file.read(&mut buf[got..]) {
            Ok(0) => return Ok(got),
            Ok(count) => got += count,
            Err(error) if error.kind() == ErrorKind::Interrupted => {}
            Err(error) => return Err(error),
        }
    }
    Err(ErrorKind::Interrupted.into())
}

fn read_from(files: &impl Files, name: &str, at: u64, buf: &mut [u8]) -> io::Result<()>
    ensures name { is_file_name name.now ≡ false → IsErr result }
{
    let length = length_of(files, name)?.unwrap_or(0);
    let mut got = 0;
    if at < length {
        let mut file = fs::open(files, name)?;
        file.seek(SeekFrom::Start(at))?;
        got = read_on(&mut file, buf)?;
    }
    buf[got..].fill(0);
    Ok(())
}

// Where the file ends before `at`, the system fills what lies between with zeros.
fn write_from(files: &impl Files, name: &str, at: u64, bytes: &[u8]) -> io::Result<()>
    ensures name { is_file_name name.now ≡ false → IsErr result }
{
    let length = length_of(files, name)?.unwrap_or(0);
    let mut file = OpenOptions::new()
        .write(true)
        .create(true)
        .open(files, name)?;
    if bytes.is_empty() && length < at {
        return file.set_len(at);
    }
    file.seek(SeekFrom::Start(at))?;
    file.write_all(bytes)?;
    file.flush()
}

impl<R: Files> Folder<R> {
    /// No call has failed yet.
    pub fn new(files: R) -> Folder<R>
        ensures { result ≡ record { inner = files; faults = 0 } }
    {
        Folder { files, faults: 0 }
    }
}

impl<R: Files> Backing for Folder<R> {
    ghost area = { λ s name. None };

    ghost faults = { λ s. s.faults };

    ghost armed = { λ s. 0 };

    ghost later = { λ s t. Unit {0} };

    ghost called = { λ c s t. Unit {0} };

    ghost later_same = { λ s. tt };

    ghost later_more = { λ r s t one two. tt };

    fn length(&mut self, name: &str) -> Result<Option<u64>, Failed>
        ensures told { LengthTold (λ other. None) (λ other. None) name.now result }
        ensures cause { CallHasCause self.old.faults self.new.faults result }
        ensures later { Unit {0} }
        ensures called { Unit {0} }

        ensures none { OnOk result (self.new.faults ≡ self.old.faults) }
        ensures fault { OnErr result (self.new.faults ≡ next_count self.old.faults) }
        ensures name { is_file_name name.now ≡ false → IsErr result }
    {
        if let Ok(found) = length_of(&self.files, name) {
            return Ok(found);
        }
        self.faults = self.faults.saturating_add(1);
        Err(Failed)
    }

    fn read(&mut self, name: &str, at: u64, buf: &mut [u8]) -> Result<(), Failed>
        ensures told { ReadTold (λ other. None) (λ other. None) name.now at buf.new result }
        ensures cause { CallHasCause self.old.faults self.new.faults result }
        ensures later { Unit {0} }
        ensures called { Unit {0} }

        ensures none { OnOk result (self.new.faults ≡ self.old.faults) }
        ensures fault { OnErr result (self.new.faults ≡ next_count self.old.faults) }
        ensures name { is_file_name name.now ≡ false → IsErr result }
    {
        if read_from(&self.files, name, at, buf).is_ok() {
            return Ok(());
        }
        self.faults = self.faults.saturating_add(1);
        Err(Failed)
    }

    /// It asks for no memory of its own, and so doesn't answer `NoMemory`.
    fn write(&mut self, name: &str, at: u64, bytes: &[u8]) -> Result<(), WriteStop>
        ensures told { WriteTold (λ other. None) (λ other. None) name.now at bytes.now result }
        ensures cause { WriteHasCause self.old.faults self.new.faults result }
        ensures later { Unit {0} }
        ensures called { Unit {0} }
        ensures unmoved { IsErrOf result WriteStop.NoMemory → ◌≡◌ {A = ℕ} 0 0 }

        ensures none { OnOk result (self.new.faults ≡ self.old.faults) }
        ensures fault { OnErr result (self.new.faults ≡ next_count self.old.faults) }
        ensures failed { IsOkUnless result WriteStop.Failed }
        ensures name { is_file_name name.now ≡ false → IsErr result }
    {
        if write_from(&self.files, name, at, bytes).is_ok() {
            return Ok(());
        }
        self.faults = self.faults.saturating_add(1);
        Err(WriteStop::Failed)
    }
}
