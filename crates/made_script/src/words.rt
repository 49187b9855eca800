// What the words ask for.
ghost use Rattle.std.specs.Prelude.{◌≡◌, IfSome};
ghost use Rattle.made_script.specs.Words.{asked_by, asked_of, short};
ghost use Rattle.vm_model.specs.Ranges.{IsBetween};
ghost use Rattle.vm_text.specs.Words.{number_between, number_of};

use vm_text::{count_in, number_of};

/// The number of a script, and how many drawn lines it has, if the words are two and say that.
pub fn asked(words: &[String]) -> Option<(u64, u32)>
    ensures words { result ≡ asked_by words.now }
    ensures lines { IfSome result (λ it. IsBetween 1 10000 it.1) }
{
    match words {
        [number, lines] => numbers(number.as_str().as_bytes(), lines.as_str().as_bytes()),
        _ => None,
    }
}

fn numbers(number: &[u8], lines: &[u8]) -> Option<(u64, u32)>
    ensures words { result
        ≡ asked_of (short 20 number.now (number_of number.now)) (short 5 lines.now (number_between 1 10000 lines.now)) }
    ensures lines { IfSome result (λ it. IsBetween 1 10000 it.1) }
{
    if number.len() > 20 || lines.len() > 5 {
        return None;
    }
    let Ok(number) = number_of(number) else {
        return None;
    };
    match count_in(lines, 1, 10_000) {
        Ok(lines) => Some((number, lines)),
        Err(_) => None,
    }
}
