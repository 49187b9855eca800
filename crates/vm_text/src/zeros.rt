// The zeros at a page's end.
ghost use Rattle.std.specs.Prelude.{◌≡◌, ◌≤◌, ◌<◌, length, take, fold, bit_or};
ghost use Rattle.vm_model.specs.Text.{trimmed};

// Zeros are skipped by so many bytes, then by so many, and then by so many.
const LARGE_BLOCK: usize = 256;

const MIDDLE_BLOCK: usize = 16;

const SMALL_BLOCK: usize = 4;

// The bits that any of the bytes has: none exactly where each byte is zero.
#[inline(always)]
fn bits_of(bytes: &[u8]) -> u8
    ensures { result ≡ fold bit_or 0 bytes.now }
{
    let mut bits = 0;
    for byte in bytes {
        bits |= *byte;
    }
    bits
}

// A length that leaves out blocks of zeros in front of an index, as many as there are.
#[inline(always)]
fn without_zero_blocks(bytes: &[u8], from: usize, block: usize) -> usize
    requires inside { from ≤ length bytes.now }
    requires some { 0 < block }
    ensures within { result ≤ from }
    ensures same { trimmed (take result bytes.now) ≡ trimmed (take from bytes.now) }
{
    let mut end = from;
    'skip: while end >= block && bits_of(&bytes[end - block..end]) == 0 {
        end -= block;
    }
    end
}

/// The length up to the last byte that isn't zero.
pub fn trimmed_len(bytes: &[u8]) -> usize
    ensures within { result ≤ length bytes.now }
    ensures trimmed { take result bytes.now ≡ trimmed bytes.now }
{
    let large = without_zero_blocks(bytes, bytes.len(), LARGE_BLOCK);
    let middle = without_zero_blocks(bytes, large, MIDDLE_BLOCK);
    let mut end = without_zero_blocks(bytes, middle, SMALL_BLOCK);
    'zeros: while end > 0 && bytes[end - 1] == 0 {
        end -= 1;
    }
    end
}
