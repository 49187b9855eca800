// Areas in memory.
ghost use Rattle.std.specs.Prelude.{◌≡◌, ◌≢◌, ◌<◌, ◌+◌, ◌++◌, ◌^◌, [], take, List, ℕ, length, Some, None, IfOk, OnOk, OnErr, replicate, unwrap_or};
ghost use Rattle.std.specs.Option.{option_map, option_copied};
ghost use Rattle.vm_outside.specs.Areas.{read_at, write_at};

use std::alloc::Global;
use std::collections::BTreeMap;
use vm_base::NoMemory;

/// Named areas of bytes.
#[derive(Drop)]
pub(crate) struct Areas {
    alloc: Global,
    areas: BTreeMap<String, Vec<u8>>,
}

impl Areas {
    ghost use Rattle.vm_outside.specs.Memory.{area_in};

    /// No area is there yet; it takes no memory.
    pub(crate) fn new(alloc: Global) -> Areas
        ensures { (name : List ℕ) → area_in result name ≡ None }
    {
        Areas {
            alloc,
            areas: BTreeMap::new(alloc),
        }
    }

    /// The bytes of an area.
    pub(crate) fn find(&self, name: &str) -> Option<&[u8]>
        ensures { option_copied result ≡ area_in self.now name.now }
    {
        match self.areas.get(name) {
            Some(bytes) => Some(bytes.as_slice()),
            None => None,
        }
    }

    /// Sets an area whole.
    pub(crate) fn set(&mut self, name: &str, bytes: Vec<u8>) -> Result<(), NoMemory>
        ensures ok { OnOk result (area_in self.new name.now ≡ Some bytes.items) }
        ensures others { (other : List ℕ) → other ≢ name.now → area_in self.new other ≡ area_in self.old other }
        ensures err { OnErr result ((other : List ℕ) → area_in self.new other ≡ area_in self.old other) }
    {
        let name = String::from_str(self.alloc, name)?;
        self.areas.insert(name, bytes)?;
        Ok(())
    }

    /// Sets an area whole, to a copy of the bytes.
    pub(crate) fn put(&mut self, name: &str, bytes: &[u8]) -> Result<(), NoMemory>
        ensures ok { OnOk result (area_in self.new name.now ≡ Some bytes.now) }
        ensures others { (other : List ℕ) → other ≢ name.now → area_in self.new other ≡ area_in self.old other }
        ensures err { OnErr result ((other : List ℕ) → area_in self.new other ≡ area_in self.old other) }
    {
        let bytes = bytes.to_vec(self.alloc)?;
        self.set(name, bytes)
    }

    /// The length of an area in bytes.
    pub(crate) fn length(&self, name: &str) -> Option<u64>
        ensures { result ≡ option_map length (area_in self.now name.now) }
    {
        match self.find(name) {
            Some(bytes) => Some(bytes.len() as u64),
            None => None,
        }
    }

    /// Fills the buffer from an area.
    pub(crate) fn read(&self, name: &str, at: u64, buf: &mut [u8])
        ensures { buf.new ≡ read_at (unwrap_or (area_in self.now name.now) []) at (length buf.new) }
    {
        match self.find(name) {
            Some(bytes) => fill_from(bytes, at, buf),
            None => buf.fill(0),
        }
    }

    /// Writes to an area, and makes or lengthens it.
    pub(crate) fn write(&mut self, name: &str, at: u64, bytes: &[u8]) -> Result<(), NoMemory>
        ensures ok { OnOk result (area_in self.new name.now
            ≡ Some (write_at (unwrap_or (area_in self.old name.now) []) at bytes.now)) }
        ensures others { (other : List ℕ) → other ≢ name.now → area_in self.new other ≡ area_in self.old other }
        ensures err { OnErr result ((other : List ℕ) → area_in self.new other ≡ area_in self.old other) }
    {
        if at >= MOST || bytes.len() as u64 >= MOST {
            return Err(NoMemory);
        }
        if let Some(area) = self.areas.get_mut(name) {
            overwrite(area, at as usize, bytes)?;
            return Ok(());
        }
        let mut area = Vec::new(self.alloc);
        overwrite(&mut area, at as usize, bytes)?;
        self.set(name, area)
    }
}

// No area in memory grows to so many bytes.
const MOST: u64 = 1 << 40;

// The bytes from a place on, with zeros past the end.
fn fill_from(bytes: &[u8], at: u64, buf: &mut [u8])
    ensures { buf.new ≡ read_at bytes.now at (length buf.old) }
{
    buf.fill(0);
    if at >= bytes.len() as u64 {
        return;
    }
    let rest = &bytes[at as usize..];
    let count = rest.len().min(buf.len());
    buf[..count].copy_from_slice(&rest[..count]);
}

// Writes to an area, and lengthens it.
fn overwrite(area: &mut Vec<u8>, at: usize, bytes: &[u8]) -> Result<(), NoMemory>
    requires { at + length bytes.now < 2 ^ 63 }
    ensures ok { OnOk result (area.new.items ≡ write_at area.old.items at bytes.now) }
    ensures err { OnErr result (area.new.items ≡ area.old.items) }
{
    let end = at + bytes.len();
    if area.len() < end {
        area.resize(end, 0)?;
    }
    area[at..end].copy_from_slice(bytes);
    Ok(())
}
