// Text put over bytes that are there, from an index on. Each call answers with the text's end.
ghost use Rattle.std.specs.Prelude.{◌≡◌, ◌+◌, ◌*◌, ◌/◌, ◌%◌, ◌<◌, ◌≤◌, ◌++◌, [], ◌∷◌, length, take, codes, decimal};
ghost use Rattle.std.specs.List.{flat_map};
ghost use Rattle.vm_base.specs.Pages.{little_endian_bytes};
ghost use Rattle.vm_model.specs.Text.{field, channel_text as text_of_channel, hex_digit as digit_of, byte_hex as hex_of};
ghost use Rattle.vm_text.specs.Fields.{with_fields};

use vm_model::Channel;

/// The most bytes of a number and the space in front of it.
pub const FIELD_BYTES: usize = 21;

/// The most bytes of a channel.
pub const CHANNEL_BYTES: usize = 63;

// The numbers below a hundred, in two digits each.
static PAIRS: [u8; 200] = *b"\
    0001020304050607080910111213141516171819202122232425262728293031323334353637383940414243444546474849\
    5051525354555657585960616263646566676869707172737475767778798081828384858687888990919293949596979899";

// All bytes, in two hexadecimal digits each.
static HEX_PAIRS: [u8; 512] = *b"\
    000102030405060708090a0b0c0d0e0f101112131415161718191a1b1c1d1e1f202122232425262728292a2b2c2d2e2f303132333435363738393a3b3c3d3e3f\
    404142434445464748494a4b4c4d4e4f505152535455565758595a5b5c5d5e5f606162636465666768696a6b6c6d6e6f707172737475767778797a7b7c7d7e7f\
    808182838485868788898a8b8c8d8e8f909192939495969798999a9b9c9d9e9fa0a1a2a3a4a5a6a7a8a9aaabacadaeafb0b1b2b3b4b5b6b7b8b9babbbcbdbebf\
    c0c1c2c3c4c5c6c7c8c9cacbcccdcecfd0d1d2d3d4d5d6d7d8d9dadbdcdddedfe0e1e2e3e4e5e6e7e8e9eaebecedeeeff0f1f2f3f4f5f6f7f8f9fafbfcfdfeff";

/// One byte.
#[inline(always)]
pub fn put_byte(bytes: &mut [u8], at: usize, byte: u8) -> usize
    requires { at < length bytes.old }
    ensures text { take result bytes.new ≡ take at bytes.old ++ byte ∷ [] }
    ensures end { result ≡ at + 1 }
{
    bytes[at] = byte;
    at + 1
}

/// The word as it is.
#[inline(always)]
pub fn put_word(bytes: &mut [u8], at: usize, word: &[u8]) -> usize
    requires { at + length word.now ≤ length bytes.old }
    ensures text { take result bytes.new ≡ take at bytes.old ++ word.now }
    ensures end { result ≡ at + length word.now }
{
    let end = at + word.len();
    bytes[at..end].copy_from_slice(word);
    end
}

/// The digits of a number in base ten, of which there are 20 at most.
#[inline(always)]
#[tactic(auto, using(std::proofs::lemmas::Fmt::decimal_digit, crate::proofs::Decimals::at_most_twenty))]
pub fn put_number(bytes: &mut [u8], at: usize, number: u64) -> usize
    requires { at + 20 ≤ length bytes.old }
    ensures text { take result bytes.new ≡ take at bytes.old ++ decimal number }
    ensures end { result ≡ at + length (decimal number) }
    ensures short { result ≤ at + 20 }
{
    // (most numbers of a history have one digit)
    if number < 10 {
        return put_byte(bytes, at, b'0' + number as u8);
    }
    put_digits(bytes, at, number)
}

// All digits of a number, four at a time.
#[inline(never)]
fn put_digits(bytes: &mut [u8], at: usize, number: u64) -> usize
    requires { at + length (decimal number) ≤ length bytes.old }
    ensures text { take result bytes.new ≡ take at bytes.old ++ decimal number }
    ensures end { result ≡ at + length (decimal number) }
{
    if number < 10_000 {
        return put_short(bytes, at, number);
    }
    let front = put_digits(bytes, at, number / 10_000);
    let four = number % 10_000;
    let middle = put_pair(bytes, front, four / 100);
    put_pair(bytes, middle, four % 100)
}

// The digits of a number that has four at most.
#[inline(always)]
fn put_short(bytes: &mut [u8], at: usize, number: u64) -> usize
    requires small { number < 10000 }
    requires room { at + length (decimal number) ≤ length bytes.old }
    ensures text { take result bytes.new ≡ take at bytes.old ++ decimal number }
    ensures end { result ≡ at + length (decimal number) }
{
    if number < 100 {
        return put_first(bytes, at, number);
    }
    let front = put_first(bytes, at, number / 100);
    put_pair(bytes, front, number % 100)
}

// The digits of a number that has two at most.
#[inline(always)]
#[tactic(auto, using(std::proofs::lemmas::Fmt::decimal_digit, itoa::proofs::Decimal::decimal_two))]
fn put_first(bytes: &mut [u8], at: usize, number: u64) -> usize
    requires small { number < 100 }
    requires room { at + length (decimal number) ≤ length bytes.old }
    ensures text { take result bytes.new ≡ take at bytes.old ++ decimal number }
    ensures end { result ≡ at + length (decimal number) }
{
    if number < 10 {
        return put_byte(bytes, at, b'0' + number as u8);
    }
    put_pair(bytes, at, number)
}

// Two digits, also where the first is a zero.
#[inline(always)]
fn put_pair(bytes: &mut [u8], at: usize, number: u64) -> usize
    requires small { number < 100 }
    requires room { at + 2 ≤ length bytes.old }
    ensures text { take result bytes.new ≡ take at bytes.old ++ (48 + number / 10) ∷ (48 + number % 10) ∷ [] }
    ensures end { result ≡ at + 2 }
{
    let (tens, ones) = pair_of(number);
    bytes[at] = tens;
    bytes[at + 1] = ones;
    at + 2
}

#[inline(always)]
fn pair_of(number: u64) -> (u8, u8)
    requires { number < 100 }
    ensures tens { result.0 ≡ 48 + number / 10 }
    ensures ones { result.1 ≡ 48 + number % 10 }
{
    let from = number as usize * 2;
    (PAIRS[from], PAIRS[from + 1])
}

/// A space, and the number in base ten.
#[inline(always)]
pub fn put_field(bytes: &mut [u8], at: usize, number: u64) -> usize
    requires { at + 21 ≤ length bytes.old }
    ensures text { take result bytes.new ≡ take at bytes.old ++ field number }
    ensures short { result ≤ at + 21 }
{
    let end = put_byte(bytes, at, b' ');
    put_number(bytes, end, number)
}

/// Each number as a field, the first in front.
#[inline(always)]
pub fn put_fields(bytes: &mut [u8], at: usize, numbers: &[u64]) -> usize
    requires few { length numbers.now ≤ 7 }
    requires room { at + 21 * length numbers.now ≤ length bytes.old }
    ensures text { take result bytes.new ≡ with_fields (take at bytes.old) numbers.now }
    ensures short { result ≤ at + 21 * length numbers.now }
{
    let mut end = at;
    for number in numbers {
        end = put_field(bytes, end, *number);
    }
    end
}

/// The word, and a field for each number.
#[inline(always)]
#[tactic(auto, using(crate::proofs::Behind::behind_front))]
pub fn put_text(bytes: &mut [u8], at: usize, word: &[u8], numbers: &[u64]) -> usize
    requires few { length numbers.now ≤ 7 }
    requires room { at + (length word.now + 21 * length numbers.now) ≤ length bytes.old }
    ensures text { take result bytes.new ≡ take at bytes.old ++ with_fields word.now numbers.now }
    ensures short { result ≤ at + (length word.now + 21 * length numbers.now) }
{
    let end = put_word(bytes, at, word);
    put_fields(bytes, end, numbers)
}

/// The channel as one word.
#[inline(always)]
pub fn put_channel(bytes: &mut [u8], at: usize, channel: Channel) -> usize
    requires { at + 63 ≤ length bytes.old }
    ensures text { take result bytes.new ≡ take at bytes.old ++ text_of_channel channel }
    ensures short { result ≤ at + 63 }
{
    match channel {
        Channel::Up { host, object } => {
            let end = put_byte(bytes, at, b'u');
            put_two(bytes, end, u64::from(host.0), u64::from(object.0))
        }
        Channel::Down {
            host,
            object,
            control,
        } => {
            let end = put_byte(bytes, at, b'd');
            let end = put_two(bytes, end, u64::from(host.0), u64::from(object.0));
            let end = put_byte(bytes, end, b'.');
            put_number(bytes, end, u64::from(control))
        }
    }
}

// Two numbers, and a dot between them.
#[inline(always)]
fn put_two(bytes: &mut [u8], at: usize, first: u64, second: u64) -> usize
    requires { at + 41 ≤ length bytes.old }
    ensures text { take result bytes.new ≡ take at bytes.old ++ (decimal first ++ codes "." ++ decimal second) }
    ensures short { result ≤ at + 41 }
{
    let end = put_number(bytes, at, first);
    let end = put_byte(bytes, end, b'.');
    put_number(bytes, end, second)
}

// A byte as two hexadecimal digits.
#[inline(always)]
fn put_hex_byte(bytes: &mut [u8], at: usize, byte: u8)
    requires { at + 2 ≤ length bytes.old }
    ensures { take (at + 2) bytes.new ≡ take at bytes.old ++ hex_of byte }
{
    let (high, low) = hex_pair(byte);
    bytes[at] = high;
    bytes[at + 1] = low;
}

#[inline(always)]
fn hex_pair(byte: u8) -> (u8, u8)
    ensures high { result.0 ≡ digit_of (byte / 16) }
    ensures low { result.1 ≡ digit_of (byte % 16) }
{
    let from = byte as usize * 2;
    (HEX_PAIRS[from], HEX_PAIRS[from + 1])
}

/// The bytes of a page, each as two hexadecimal digits.
pub fn put_hex(bytes: &mut [u8], at: usize, page: &[u8]) -> usize
    requires { at + 2 * length page.now ≤ length bytes.old }
    ensures text { take result bytes.new ≡ take at bytes.old ++ flat_map hex_of page.now }
    ensures end { result ≡ at + 2 * length page.now }
{
    for (i, byte) in page.iter().enumerate() {
        put_hex_byte(bytes, at + 2 * i, *byte);
    }
    at + 2 * page.len()
}

/// The lowest bytes of a number, the lowest first, each as two hexadecimal digits.
pub fn put_little_endian(bytes: &mut [u8], at: usize, size: u32, number: u64) -> usize
    requires { at + 2 * size ≤ length bytes.old }
    ensures text { take result bytes.new ≡ take at bytes.old ++ flat_map hex_of (little_endian_bytes size number) }
    ensures end { result ≡ at + 2 * size }
{
    let mut rest = number;
    for i in 0..size as usize {
        put_hex_byte(bytes, at + 2 * i, (rest % 256) as u8);
        rest /= 256;
    }
    at + 2 * size as usize
}
