// A page of a file, as it is found there.
ghost use Rattle.std.specs.Prelude.{ℕ, ◌≡◌, ◌*◌, List, Some, IfOk, OnErr, false, length};
ghost use Rattle.std.specs.declared.option.Option.{Option};
ghost use Rattle.pg_file.specs.Calls.{FindMakes};
ghost use Rattle.pg_file.specs.Finding.{FindHasCause, IsFoundAs, IsFoundIn, IsWholePage};
ghost use Rattle.vm_outside.specs.Areas.{ReadTold, SameAreas};
ghost use Rattle.vm_outside.specs.Calls.{Reads};
ghost use Rattle.vm_outside.specs.Causes.{CallHasCause};

use std::alloc::Global;
use vm_base::{Failed, NoMemory, PageBytes, PageNo, PageSize};
use vm_outside::Backing;

/// What is there of a page.
#[derive(Drop)]
pub enum Found {
    /// Its bytes in the file, with zeros past the end.
    Page { bytes: PageBytes },
    /// There is no file, or the page lies wholly past its end.
    Absent,
    /// Its last write failed.
    Lost,
    /// A call of the files failed.
    Failed,
}

/// Where a page begins in its file.
pub fn place(page: PageNo, size: PageSize) -> u64
    ensures { result ≡ page.0 * size }
{
    u64::from(page.0) * u64::from(size.bytes())
}

// Fills a page with its bytes in the file, with zeros past the end.
fn fill_page<F: Backing>(
    name: &str,
    at: u64,
    buffer: &mut [u8],
    page: &mut PageBytes,
    files: &mut F,
) -> Result<(), Failed>
    requires { length buffer.old ≡ length page.old }
    ensures long { length page.new ≡ length page.old }
    ensures told { ReadTold (F.area files.old) (F.area files.new) name.now at page.new result }
    ensures cause { CallHasCause (F.faults files.old) (F.faults files.new) result }
    ensures later { F.later files.old files.new }
    ensures called { F.called (Reads name.now at (length buffer.old) result) files.old files.new }
{
    files.read(name, at, buffer)?;
    page.fill(buffer);
    Ok(())
}

/// Looks for a page in its file: asks for the length, and reads where the file reaches so far. It
/// takes all its memory before the calls.
pub fn find<F: Backing>(
    alloc: Global,
    name: &str,
    page: PageNo,
    size: PageSize,
    files: &mut F,
) -> Result<Found, NoMemory>
    ensures whole { IfOk result (IsWholePage size) }
    ensures tried { IfOk result (IsFoundAs false) }
    ensures tells { (was : Option (List ℕ)) → F.area files.old name.now ≡ Some was → IfOk result (IsFoundIn size page.0 was) }
    ensures told { SameAreas (F.area files.old) (F.area files.new) }
    ensures cause { FindHasCause (F.faults files.old) (F.faults files.new) result }
    ensures later { F.later files.old files.new }
    ensures err { OnErr result (files.new ≡ files.old) }
    ensures calls { FindMakes F.called name.now (page.0 * size) size result files.old files.new }
{
    let mut buffer = vec![in alloc; 0u8; size.bytes() as usize]?;
    let mut bytes = PageBytes::zero(alloc, size)?;
    let at = place(page, size);
    match files.length(name) {
        Ok(Some(length)) if at < length => {}
        Ok(_) => return Ok(Found::Absent),
        Err(_) => return Ok(Found::Failed),
    }
    match fill_page(name, at, &mut buffer, &mut bytes, files) {
        Ok(()) => Ok(Found::Page { bytes }),
        Err(_) => Ok(Found::Failed),
    }
}
