// A backing over files: the real ones of the folder in which the tests run, each test's its own, and some that fail.
use crate::outside::{Choppy, failing_at};
use crate::shows::shows;
use std::alloc::{Allocator, Global};
use std::fs::{Metadata, OpenFile, OpenOptions};
use std::io::{ErrorKind, Seek, SeekFrom};
use std::os::unix::fs::symlink;
use std::rt::Files;
use std::test::Fail;
use std::{fs, io};
use vm_base::{Failed, WriteStop};
use vm_outside::{Backing, Folder};

// Eight bytes of a file from a place on.
fn read_eight<B: Backing>(folder: &mut B, name: &str, at: u64) -> Result<[u8; 8], Failed> {
    let mut buf = [1; 8];
    folder.read(name, at, &mut buf)?;
    Ok(buf)
}

#[test]
fn files_are_made(rt: HostRuntime) -> Result<(), Fail> {
    let mut folder = Folder::new(&rt);
    shows(&rt, folder.length("made") == Ok(None));
    shows(&rt, read_eight(&mut folder, "made", 3) == Ok([0; 8]));
    shows(&rt, !fs::exists(&rt, "made")?);
    shows(&rt, folder.write("made", 2, b"abc") == Ok(()));
    shows(
        &rt,
        fs::read(&rt, "made")?.as_slice() == b"\0\0abc".as_slice(),
    );
    fs::remove_file(&rt, "made")?;
    Ok(())
}

#[test]
fn files_are_lengthened(rt: HostRuntime) -> Result<(), Fail> {
    let mut folder = Folder::new(&rt);
    fs::write(&rt, "longer", "abc")?;
    shows(&rt, folder.write("longer", 1, b"B") == Ok(()));
    shows(&rt, folder.write("longer", 5, b"h") == Ok(()));
    shows(&rt, folder.write("longer", 9, b"") == Ok(()));
    shows(
        &rt,
        fs::read(&rt, "longer")?.as_slice() == b"aBc\0\0h\0\0\0".as_slice(),
    );
    shows(&rt, folder.length("longer") == Ok(Some(9)));
    fs::remove_file(&rt, "longer")?;
    Ok(())
}

#[test]
fn zeros_stand_past_the_end(rt: HostRuntime) -> Result<(), Fail> {
    let mut folder = Folder::new(&rt);
    fs::write(&rt, "short", "abc")?;
    shows(
        &rt,
        read_eight(&mut folder, "short", 1) == Ok(*b"bc\0\0\0\0\0\0"),
    );
    for at in [3, 4, 1 << 40, u64::MAX] {
        shows(&rt, read_eight(&mut folder, "short", at) == Ok([0; 8]));
    }
    fs::remove_file(&rt, "short")?;
    Ok(())
}

#[test]
fn files_are_longer_than_a_word_says(rt: HostRuntime) -> Result<(), Fail> {
    let mut folder = Folder::new(&rt);
    let at = 1u64 << 32;
    shows(&rt, folder.write("long", at + 1, b"end") == Ok(()));
    shows(&rt, folder.length("long") == Ok(Some(at + 4)));
    shows(
        &rt,
        read_eight(&mut folder, "long", at) == Ok(*b"\0end\0\0\0\0"),
    );
    fs::remove_file(&rt, "long")?;
    Ok(())
}

#[test]
fn no_file_is_as_long_as_numbers_go(rt: HostRuntime) -> Result<(), Fail> {
    let mut folder = Folder::new(&rt);
    let far = folder.write("far", u64::MAX, b"x");
    shows(&rt, far == Err(WriteStop::Failed));
    fs::remove_file(&rt, "far")?;
    Ok(())
}

// Whether all three calls fail.
fn fails<B: Backing>(folder: &mut B, name: &str) -> bool {
    folder.length(name).is_err()
        && read_eight(folder, name, 0).is_err()
        && folder.write(name, 0, b"new") == Err(WriteStop::Failed)
}

#[test]
fn folders_and_circles_fail(rt: HostRuntime) -> Result<(), Fail> {
    let mut folder = Folder::new(&rt);
    fs::create_dir(&rt, "inner")?;
    shows(&rt, fails(&mut folder, "inner"));
    fs::remove_dir(&rt, "inner")?;
    symlink(&rt, "circle", "circle")?;
    shows(&rt, fails(&mut folder, "circle"));
    fs::remove_file(&rt, "circle")?;
    Ok(())
}

#[test]
fn links_are_followed(rt: HostRuntime) -> Result<(), Fail> {
    let mut folder = Folder::new(&rt);
    symlink(&rt, "aim", "link")?;
    shows(&rt, folder.length("link") == Ok(None));
    shows(&rt, folder.write("link", 0, b"x") == Ok(()));
    shows(&rt, folder.length("aim") == Ok(Some(1)));
    fs::remove_file(&rt, "link")?;
    fs::remove_file(&rt, "aim")?;
    Ok(())
}

#[test]
fn other_names_reach_no_file(rt: HostRuntime) {
    let mut folder = Folder::new(&rt);
    let names = [
        "",
        ".",
        "..",
        "/",
        "./file",
        "../file",
        "file\0",
        "file.txt",
        "Other",
        "fIle",
        "1",
        "_file",
        "-",
        " file",
        "é",
        "file1234567890123456789012345678901",
    ];
    for name in names {
        shows(&rt, fails(&mut folder, name));
    }
}

#[test]
fn files_of_other_folders_are_not_reached(rt: HostRuntime) -> Result<(), Fail> {
    let mut folder = Folder::new(&rt);
    fs::create_dir(&rt, "other")?;
    fs::write(&rt, "other/file", "old")?;
    shows(
        &rt,
        fails(&mut folder, "other/file") && fails(&mut folder, "other/more"),
    );
    shows(
        &rt,
        fs::read(&rt, "other/file")?.as_slice() == b"old".as_slice(),
    );
    shows(&rt, !fs::exists(&rt, "other/more")?);
    fs::remove_file(&rt, "other/file")?;
    fs::remove_dir(&rt, "other")?;
    Ok(())
}

#[test]
fn the_longest_name_is_one(rt: HostRuntime) -> Result<(), Fail> {
    let mut folder = Folder::new(&rt);
    let longest = "f_ile678901234567890123456789012";
    shows(&rt, folder.write(longest, 0, b"x") == Ok(()));
    fs::remove_file(&rt, longest)?;
    Ok(())
}

// Every name is a file of nine bytes, whose calls give or take three bytes, and fail at one number.
#[derive(Drop)]
struct Faulty {
    alloc: Global,
    bad: u64,
    kind: ErrorKind,
}

impl Seek for Choppy {
    fn seek(&mut self, _to: SeekFrom) -> io::Result<u64> {
        self.next()?;
        Ok(0)
    }
}

fn no_call<T>() -> io::Result<T> {
    Err(ErrorKind::Unsupported.into())
}

impl OpenFile for Choppy {
    fn metadata(&self) -> io::Result<Metadata> {
        no_call()
    }

    fn set_len(&self, _size: u64) -> io::Result<()> {
        no_call()
    }

    fn sync_all(&self) -> io::Result<()> {
        no_call()
    }

    fn sync_data(&self) -> io::Result<()> {
        no_call()
    }
}

impl Files for Faulty {
    type File = Choppy;

    type Dir = Choppy;

    fn open_file(&self, how: &OpenOptions, _path: &str) -> io::Result<Choppy> {
        how.check()?;
        Ok(failing_at(self.alloc, self.bad, self.kind))
    }

    fn open_dir(&self, _path: &str) -> io::Result<Choppy> {
        no_call()
    }

    fn metadata(&self, _path: &str) -> io::Result<Metadata> {
        Ok(Metadata::of_file(9))
    }

    fn symlink_metadata(&self, _path: &str) -> io::Result<Metadata> {
        no_call()
    }

    fn copy(&self, _from: &str, _to: &str) -> io::Result<u64> {
        no_call()
    }

    fn rename(&self, _from: &str, _to: &str) -> io::Result<()> {
        no_call()
    }

    fn remove_file(&self, _path: &str) -> io::Result<()> {
        no_call()
    }

    fn create_dir(&self, _path: &str) -> io::Result<()> {
        no_call()
    }

    fn remove_dir(&self, _path: &str) -> io::Result<()> {
        no_call()
    }

    fn remove_dir_all<B: Allocator>(&self, _alloc: B, _path: &str) -> io::Result<()> {
        no_call()
    }
}

#[test]
fn failing_calls(rt: HostRuntime) {
    // A seek, and then three reads, or three writes and a flush.
    for bad in 1..6u64 {
        let (alloc, kind) = (rt.alloc(), ErrorKind::Other);
        let mut folder = Folder::new(Faulty { alloc, bad, kind });
        shows(
            &rt,
            read_eight(&mut folder, "file", 1).is_ok() == (bad == 5),
        );
        shows(&rt, folder.write("file", 1, b"eight by").is_err());
    }
}

#[test]
fn interrupted_calls(rt: HostRuntime) {
    for bad in 2..5u64 {
        let (alloc, kind) = (rt.alloc(), ErrorKind::Interrupted);
        let mut folder = Folder::new(Faulty { alloc, bad, kind });
        shows(&rt, read_eight(&mut folder, "file", 1) == Ok([7; 8]));
        shows(&rt, folder.write("file", 1, b"eight by") == Ok(()));
    }
}
