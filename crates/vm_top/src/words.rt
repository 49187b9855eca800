// What the words ask the program to do.
ghost use Rattle.std.specs.Prelude.{◌≡◌, IfSome};
ghost use Rattle.vm_text.specs.Words.{number_between, number_of, word_in};
ghost use Rattle.vm_top.specs.Words.{HasLines, asked_by, generate_of, short, words_alone};

use vm_text::{count_in, number_of};

/// What is written of a run.
#[derive(Clone, Copy, Debug, PartialEq, Eq)]
pub enum Report {
    /// Each event.
    History,
    /// Eleven numbers.
    Summary,
}

/// What the program is asked to do.
#[derive(Clone, Copy, Debug, PartialEq, Eq)]
pub enum Job {
    /// To run the script of the source.
    Run(Report),
    /// To make a script with so many drawn lines from a number, and to run it.
    Generate { number: u64, lines: u32 },
}

/// What the words ask for, if they are a command.
pub fn asked(words: &[String]) -> Option<Job>
    ensures job { result ≡ asked_by words.now }
    ensures lines { IfSome result HasLines }
{
    match words {
        [word] => word_alone(word.as_str().as_bytes()),
        [word, number, lines] => {
            if word.as_str().as_bytes() == b"generate".as_slice() {
                generate(number.as_str().as_bytes(), lines.as_str().as_bytes())
            } else {
                None
            }
        }
        _ => None,
    }
}

fn word_alone(word: &[u8]) -> Option<Job>
    ensures job { result ≡ word_in words_alone word.now }
    ensures lines { IfSome result HasLines }
{
    if word == b"run".as_slice() {
        return Some(Job::Run(Report::History));
    }
    if word == b"summary".as_slice() {
        return Some(Job::Run(Report::Summary));
    }
    None
}

fn generate(number: &[u8], lines: &[u8]) -> Option<Job>
    ensures job { result
        ≡ generate_of (short 20 number.now (number_of number.now)) (short 5 lines.now (number_between 1 10000 lines.now)) }
    ensures lines { IfSome result HasLines }
{
    if number.len() > 20 || lines.len() > 5 {
        return None;
    }
    let Ok(number) = number_of(number) else {
        return None;
    };
    match count_in(lines, 1, 10_000) {
        Ok(lines) => Some(Job::Generate { number, lines }),
        Err(_) => None,
    }
}
