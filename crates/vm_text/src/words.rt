// The lines and words of a script.
ghost use Rattle.std.specs.Prelude.{◌≡◌, ◌==◌, ◌<◌, ◌∷◌, [], length, not, position, MatchOption};
ghost use Rattle.vm_text.specs.Words.{HasNoSpaceInFront, Sees, one_word, two_words, three_words, four_words, five_words, six_words, is_space, pieces, lines_of};
ghost use Rattle.vm_text.specs.Words.{words_of};

use vm_model::ScriptFault;

fn is_space(byte: u8) -> bool
    ensures { result ≡ is_space byte }
{
    byte == b' ' || byte == b'\t' || byte == b'\r'
}

fn place_of(bytes: &[u8], mark: u8) -> Option<usize>
    ensures { result ≡ position (λ byte. byte == mark) bytes.now }
{
    bytes.iter().position(|byte| *byte == mark)
}

fn space_at(bytes: &[u8]) -> Option<usize>
    ensures { result ≡ position is_space bytes.now }
{
    bytes.iter().position(|byte| is_space(*byte))
}

fn letter_at(bytes: &[u8]) -> Option<usize>
    ensures { result ≡ position (λ byte. not (is_space byte)) bytes.now }
{
    bytes.iter().position(|byte| !is_space(*byte))
}

fn without_spaces(line: &[u8]) -> &[u8]
    ensures same { words_of result.now ≡ words_of line.now }
    ensures leads { HasNoSpaceInFront result.now }
{
    match letter_at(line) {
        Some(start) => &line[start..],
        None => &[],
    }
}

/// The bytes in front of the first mark, and those behind it, if it is there.
pub fn cut(bytes: &[u8], mark: u8) -> (&[u8], Option<&[u8]>)
    ensures pieces { MatchOption result.1 (pieces (λ byte. byte == mark) bytes.now
        ≡ result.0.now ∷ []) (λ rest. pieces (λ byte. byte == mark) bytes.now
        ≡ result.0.now ∷ pieces (λ byte. byte == mark) rest.now) }
    ensures shorter { MatchOption result.1 (result.0.now ≡ bytes.now) (λ rest. length rest.now < length bytes.now) }
{
    match place_of(bytes, mark) {
        Some(end) => (&bytes[..end], Some(&bytes[end + 1..])),
        None => (bytes, None),
    }
}

/// The first line, and the bytes of the lines behind it.
pub fn line_at(bytes: &[u8]) -> Option<(&[u8], &[u8])>
    ensures { MatchOption result (lines_of bytes.now
        ≡ []) (λ found. (lines_of bytes.now ≡ found.0.now ∷ lines_of found.1.now)
        × (length found.1.now < length bytes.now)) }
{
    if bytes.is_empty() {
        return None;
    }
    let (line, behind) = cut(bytes, b'\n');
    match behind {
        Some(rest) => Some((line, rest)),
        None => Some((line, &[])),
    }
}

/// The first word, and the bytes behind it.
pub fn word_at(line: &[u8]) -> Option<(&[u8], &[u8])>
    ensures { MatchOption result (words_of line.now ≡ []) (λ found. words_of line.now
        ≡ found.0.now ∷ words_of found.1.now) }
{
    let text = without_spaces(line);
    if text.is_empty() {
        return None;
    }
    match space_at(text) {
        Some(end) => Some((&text[..end], &text[end + 1..])),
        None => Some((text, &[])),
    }
}

/// The word of a line of one word.
pub fn one_word(line: &[u8]) -> Result<&[u8], ScriptFault>
    ensures { Sees (λ word. word.now) result (one_word (words_of line.now)) }
{
    let Some((word, rest)) = word_at(line) else {
        return Err(ScriptFault::WrongCount);
    };
    match word_at(rest) {
        Some(_) => Err(ScriptFault::WrongCount),
        None => Ok(word),
    }
}

/// The words of a line of two words.
pub fn two_words(line: &[u8]) -> Result<(&[u8], &[u8]), ScriptFault>
    ensures { Sees (λ words. (words.0.now, words.1.now)) result (two_words (words_of line.now)) }
{
    let Some((first, rest)) = word_at(line) else {
        return Err(ScriptFault::WrongCount);
    };
    let second = one_word(rest)?;
    Ok((first, second))
}

/// The words of a line of three words.
pub fn three_words(line: &[u8]) -> Result<(&[u8], &[u8], &[u8]), ScriptFault>
    ensures { Sees (λ words. (words.0.now, words.1.now, words.2.now)) result (three_words (words_of line.now)) }
{
    let Some((first, rest)) = word_at(line) else {
        return Err(ScriptFault::WrongCount);
    };
    let (second, third) = two_words(rest)?;
    Ok((first, second, third))
}

/// The words of a line of four words.
pub fn four_words(line: &[u8]) -> Result<(&[u8], &[u8], &[u8], &[u8]), ScriptFault>
    ensures { Sees (λ words. (words.0.now, words.1.now, words.2.now, words.3.now)) result (four_words (words_of line.now)) }
{
    let Some((first, rest)) = word_at(line) else {
        return Err(ScriptFault::WrongCount);
    };
    let (second, third, fourth) = three_words(rest)?;
    Ok((first, second, third, fourth))
}

/// The words of a line of five words.
pub fn five_words(line: &[u8]) -> Result<(&[u8], &[u8], &[u8], &[u8], &[u8]), ScriptFault>
    ensures { Sees (λ words. (words.0.now, words.1.now, words.2.now, words.3.now, words.4.now)) result (five_words (words_of line.now)) }
{
    let Some((first, rest)) = word_at(line) else {
        return Err(ScriptFault::WrongCount);
    };
    let (second, third, fourth, fifth) = four_words(rest)?;
    Ok((first, second, third, fourth, fifth))
}

/// The words of a line of six words.
pub fn six_words(line: &[u8]) -> Result<(&[u8], &[u8], &[u8], &[u8], &[u8], &[u8]), ScriptFault>
    ensures { Sees (λ words. (words.0.now, words.1.now, words.2.now, words.3.now, words.4.now, words.5.now)) result (six_words (words_of line.now)) }
{
    let Some((first, rest)) = word_at(line) else {
        return Err(ScriptFault::WrongCount);
    };
    let (second, third, fourth, fifth, sixth) = five_words(rest)?;
    Ok((first, second, third, fourth, fifth, sixth))
}
