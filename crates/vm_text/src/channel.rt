// The channel that a word names.
ghost use Rattle.std.specs.Prelude.{◌≡◌};
ghost use Rattle.vm_text.specs.Forms.{one_part, two_parts, three_parts, up_of, down_of, channel_of};
ghost use Rattle.vm_text.specs.Words.{Sees, pieces, is_dot};

use crate::heading::Heading;
use crate::numbers::{count_below, number_below};
use crate::words::cut;
use vm_base::ObjectId;
use vm_base::limits::MOST_OBJECTS;
use vm_model::{Channel, ScriptFault};

fn one_part(word: &[u8]) -> Result<&[u8], ScriptFault>
    ensures { Sees (λ part. part.now) result (one_part (pieces is_dot word.now)) }
{
    let (part, behind) = cut(word, b'.');
    match behind {
        Some(_) => Err(ScriptFault::UnknownWord),
        None => Ok(part),
    }
}

fn two_parts(word: &[u8]) -> Result<(&[u8], &[u8]), ScriptFault>
    ensures { Sees (λ parts. (parts.0.now, parts.1.now)) result (two_parts (pieces is_dot word.now)) }
{
    let (first, behind) = cut(word, b'.');
    match behind {
        Some(rest) => {
            let second = one_part(rest)?;
            Ok((first, second))
        }
        None => Err(ScriptFault::UnknownWord),
    }
}

fn three_parts(word: &[u8]) -> Result<(&[u8], &[u8], &[u8]), ScriptFault>
    ensures { Sees (λ parts. (parts.0.now, parts.1.now, parts.2.now)) result (three_parts (pieces is_dot word.now)) }
{
    let (first, behind) = cut(word, b'.');
    match behind {
        Some(rest) => {
            let (second, third) = two_parts(rest)?;
            Ok((first, second, third))
        }
        None => Err(ScriptFault::UnknownWord),
    }
}

fn up_of(heading: &Heading, word: &[u8]) -> Result<Channel, ScriptFault>
    ensures { result ≡ up_of heading.now word.now }
{
    let (host, object) = two_parts(word)?;
    let host = heading.host_of(host)?;
    let object = count_below(object, MOST_OBJECTS)?;
    Ok(Channel::Up {
        host,
        object: ObjectId(object),
    })
}

fn down_of(heading: &Heading, word: &[u8]) -> Result<Channel, ScriptFault>
    ensures { result ≡ down_of heading.now word.now }
{
    let (host, object, control) = three_parts(word)?;
    let host = heading.host_of(host)?;
    let object = count_below(object, MOST_OBJECTS)?;
    let control = number_below(control, 0x1_0000_0000)?;
    Ok(Channel::Down {
        host,
        object: ObjectId(object),
        control: control as u32,
    })
}

/// A channel: `uH.O` to the port of object O from host H, or `dH.O.K` to its control K on host H.
pub fn channel_of(heading: &Heading, word: &[u8]) -> Result<Channel, ScriptFault>
    ensures { result ≡ channel_of heading.now word.now }
{
    match word {
        [b'u', rest @ ..] => up_of(heading, rest),
        [b'd', rest @ ..] => down_of(heading, rest),
        _ => Err(ScriptFault::UnknownWord),
    }
}
