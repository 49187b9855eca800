// The numbers that words spell.
ghost use Rattle.std.specs.Prelude.{◌≡◌, ◌≤◌, ◌<◌, ◌∷◌, [], IfOk};
ghost use Rattle.vm_text.specs.Words.{digits_behind, number_of, number_between, number_below, flag_of};

use vm_model::ScriptFault;

fn digit_behind(front: u64, digit: u8) -> Result<u64, ScriptFault>
    ensures { result ≡ digits_behind front (digit ∷ []) }
{
    if digit < b'0' || digit > b'9' {
        return Err(ScriptFault::BadNumber);
    }
    match front.checked_mul(10) {
        Some(tens) => match tens.checked_add(u64::from(digit - b'0')) {
            Some(number) => Ok(number),
            None => Err(ScriptFault::BadNumber),
        },
        None => Err(ScriptFault::BadNumber),
    }
}

/// The number that the digits of a word spell in base ten; `BadNumber` where the word is empty, has
/// another byte than a digit, or spells a number that needs more than 64 bits.
pub fn number_of(word: &[u8]) -> Result<u64, ScriptFault>
    ensures { result ≡ number_of word.now }
{
    if word.is_empty() {
        return Err(ScriptFault::BadNumber);
    }
    let mut number = 0u64;
    for digit in word {
        number = digit_behind(number, *digit)?;
    }
    Ok(number)
}

/// A number from `least` to `most`; `OutOfRange` where it is another one, and `BadNumber` where the
/// word spells none.
pub fn number_in(word: &[u8], least: u64, most: u64) -> Result<u64, ScriptFault>
    ensures exact { result ≡ number_between least most word.now }
    ensures range { IfOk result (λ number. (least ≤ number) × (number ≤ most)) }
{
    let number = number_of(word)?;
    if number < least || number > most {
        return Err(ScriptFault::OutOfRange);
    }
    Ok(number)
}

/// As `number_in`, where `least` and `most` have 32 bits.
pub fn count_in(word: &[u8], least: u32, most: u32) -> Result<u32, ScriptFault>
    ensures exact { result ≡ number_between least most word.now }
    ensures range { IfOk result (λ number. (least ≤ number) × (number ≤ most)) }
{
    let number = number_in(word, u64::from(least), u64::from(most))?;
    Ok(number as u32)
}

/// A number below `limit`; `OutOfRange` where it isn't, and `BadNumber` where the word spells none.
pub fn number_below(word: &[u8], limit: u64) -> Result<u64, ScriptFault>
    ensures exact { result ≡ number_below limit word.now }
    ensures range { IfOk result (λ number. number < limit) }
{
    let number = number_of(word)?;
    if number >= limit {
        return Err(ScriptFault::OutOfRange);
    }
    Ok(number)
}

/// As `number_below`, where `limit` has 32 bits.
pub fn count_below(word: &[u8], limit: u32) -> Result<u32, ScriptFault>
    ensures exact { result ≡ number_below limit word.now }
    ensures range { IfOk result (λ number. number < limit) }
{
    let number = number_below(word, u64::from(limit))?;
    Ok(number as u32)
}

/// 0 for no, 1 for yes; `OutOfRange` for another number.
pub fn flag_of(word: &[u8]) -> Result<bool, ScriptFault>
    ensures { result ≡ flag_of word.now }
{
    let number = count_in(word, 0, 1)?;
    Ok(number == 1)
}
