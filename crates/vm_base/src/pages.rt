// A page size, and the bytes of a page.
ghost use Rattle.std.specs.Prelude.{◌≡◌, ◌+◌, ◌-◌, ◌≤◌, ◌<◌, ◌^◌, ◌++◌, length, replicate, slice_range, MatchOption, IfOk};
ghost use Rattle.vm_base.specs.Pages.{IsPageSize, IsAccessSize, little_endian, little_endian_bytes, with_bytes};

use crate::NoMemory;
use std::alloc::Global;
use std::marker::Model;

/// The number of bytes of a page: a power of two from 16 to 4,096.
#[derive(Clone, Copy, Debug, PartialEq, Eq)]
pub struct PageSize {
    bytes: u32,
}

impl Model for PageSize {
    ghost use Rattle.std.specs.Prelude.{ℕ};
    ghost use Rattle.vm_base.specs.Pages.{IsPageSize};

    ghost Value = { ℕ };

    ghost view = { λ s. s.bytes };

    ghost invariant = { λ s. IsPageSize s.bytes };

    ghost inverse = { λ n. record { bytes = n } };
}

impl PageSize {
    /// A page size, if the number is one.
    pub fn of(n: u32) -> Option<PageSize>
        ensures exact { MatchOption result (¬ IsPageSize n) (λ size. (size ≡ n) × IsPageSize n) }
    {
        match n {
            16 | 32 | 64 | 128 | 256 | 512 | 1024 | 2048 | 4096 => Some(PageSize { bytes: n }),
            _ => None,
        }
    }

    /// The number of bytes.
    pub fn bytes(self) -> u32
        ensures value { result ≡ self }
        ensures size { IsPageSize result }
    {
        self.bytes
    }
}

/// The bytes of one page, which contracts see as a list.
#[derive(Drop)]
pub struct PageBytes {
    bytes: Vec<u8>,
}

impl Model for PageBytes {
    ghost use Rattle.std.specs.Prelude.{ℕ, List};

    ghost Value = { List ℕ };

    ghost view = { λ p. p.bytes.items };
}

impl PageBytes {
    /// A page of zeros; it fails for want of memory alone.
    pub fn zero(alloc: Global, size: PageSize) -> Result<PageBytes, NoMemory>
        ensures { IfOk result (λ page. page ≡ replicate size 0) }
    {
        let bytes = vec![in alloc; 0u8; size.bytes as usize]?;
        Ok(PageBytes { bytes })
    }

    /// The page with these bytes.
    pub fn of(bytes: Vec<u8>) -> PageBytes
        ensures { result ≡ bytes.items }
    {
        PageBytes { bytes }
    }

    /// The number in the `n` bytes from `at` on, of which there are 1, 2, 4 or 8, the lowest first.
    pub fn get(&self, at: u32, n: u32) -> u64
        requires size { IsAccessSize n }
        requires inside { at + n ≤ length self.now }
        ensures { result ≡ little_endian (slice_range self.now at (at + n)) }
    {
        let start = at as usize;
        read_number(&self.bytes[start..start + n as usize])
    }

    /// Puts a number into the `n` bytes from `at` on, of which there are 1, 2, 4 or 8, the lowest first.
    pub fn put(&mut self, at: u32, n: u32, value: u64)
        requires size { IsAccessSize n }
        requires inside { at + n ≤ length self.old }
        requires fits { value < 256 ^ n }
        ensures { self.new ≡ with_bytes at (little_endian_bytes n value) self.old }
    {
        let start = at as usize;
        write_number(&mut self.bytes[start..start + n as usize], value);
    }

    /// Begins the page with these bytes; the rest is zeros.
    pub fn fill(&mut self, bytes: &[u8])
        requires { length bytes.now ≤ length self.old }
        ensures { self.new ≡ bytes.now ++ replicate (length self.old - length bytes.now) 0 }
    {
        let (front, back) = self.bytes.split_at_mut(bytes.len());
        front.copy_from_slice(bytes);
        back.fill(0);
    }

    /// The same bytes once more; it fails for want of memory alone.
    pub fn copy(&self) -> Result<PageBytes, NoMemory>
        ensures { IfOk result (λ page. page ≡ self.now) }
    {
        let bytes = self.bytes.clone()?;
        Ok(PageBytes { bytes })
    }

    /// All the bytes.
    pub fn as_slice(&self) -> &[u8]
        ensures { result.now ≡ self.now }
    {
        &self.bytes
    }
}

// The little-endian number of at most eight bytes.
fn read_number(bytes: &[u8]) -> u64
    requires { length bytes.now ≤ 8 }
    ensures { result ≡ little_endian bytes.now }
{
    let mut value = 0u64;
    let mut at = bytes.len();
    while at > 0 {
        at -= 1;
        value = value * 256 + u64::from(bytes[at]);
    }
    value
}

// Spells the number in all the bytes.
fn write_number(bytes: &mut [u8], value: u64)
    ensures { bytes.new ≡ little_endian_bytes (length bytes.old) value }
{
    let mut rest = value;
    for byte in bytes.iter_mut() {
        *byte = (rest % 256) as u8;
        rest /= 256;
    }
}
