// The words that a script may use, and what they stand for.
ghost use Rattle.std.specs.Prelude.{◌≡◌};
ghost use Rattle.vm_text.specs.Forms.{command_words, header_words, message_words, rarer_words};
ghost use Rattle.vm_text.specs.Words.{word_in};

use crate::meaning::{CommandWord, HeaderWord, MessageWord};

/// The message that the word names.
pub fn message_word(word: &[u8]) -> Option<MessageWord>
    ensures { result ≡ word_in message_words word.now }
{
    if word == b"ready".as_slice() {
        return Some(MessageWord::Ready);
    }
    if word == b"supply".as_slice() {
        return Some(MessageWord::Supply);
    }
    if word == b"unavailable".as_slice() {
        return Some(MessageWord::Unavailable);
    }
    if word == b"error".as_slice() {
        return Some(MessageWord::Error);
    }
    if word == b"lock".as_slice() {
        return Some(MessageWord::Lock);
    }
    if word == b"attributes".as_slice() {
        return Some(MessageWord::Attributes);
    }
    if word == b"destroy".as_slice() {
        return Some(MessageWord::Destroy);
    }
    None
}

/// The header line that the word begins.
pub fn header_word(word: &[u8]) -> Option<HeaderWord>
    ensures { result ≡ word_in header_words word.now }
{
    if word == b"hosts".as_slice() {
        return Some(HeaderWord::Hosts);
    }
    if word == b"frames".as_slice() {
        return Some(HeaderWord::Frames);
    }
    if word == b"page".as_slice() {
        return Some(HeaderWord::Page);
    }
    if word == b"slots".as_slice() {
        return Some(HeaderWord::Slots);
    }
    if word == b"file".as_slice() {
        return Some(HeaderWord::File);
    }
    if word == b"shared".as_slice() {
        return Some(HeaderWord::Shared);
    }
    if word == b"wild".as_slice() {
        return Some(HeaderWord::Wild);
    }
    None
}

/// The command that the word begins.
pub fn command_word(word: &[u8]) -> Option<CommandWord>
    ensures { result ≡ word_in command_words word.now }
{
    if word == b"load".as_slice() {
        return Some(CommandWord::Load);
    }
    if word == b"store".as_slice() {
        return Some(CommandWord::Store);
    }
    if word == b"settle".as_slice() {
        return Some(CommandWord::Settle);
    }
    if word == b"take".as_slice() {
        return Some(CommandWord::Take);
    }
    if word == b"allocate".as_slice() {
        return Some(CommandWord::Allocate);
    }
    if word == b"deallocate".as_slice() {
        return Some(CommandWord::Deallocate);
    }
    if word == b"fork".as_slice() {
        return Some(CommandWord::Fork);
    }
    if word == b"exit".as_slice() {
        return Some(CommandWord::Exit);
    }
    if word == b"protect".as_slice() {
        return Some(CommandWord::Protect);
    }
    if word == b"pageout".as_slice() {
        return Some(CommandWord::Pageout);
    }
    rarer_word(word)
}

fn rarer_word(word: &[u8]) -> Option<CommandWord>
    ensures { result ≡ word_in rarer_words word.now }
{
    if word == b"task".as_slice() {
        return Some(CommandWord::Task);
    }
    if word == b"map".as_slice() {
        return Some(CommandWord::Map);
    }
    if word == b"inherit".as_slice() {
        return Some(CommandWord::Inherit);
    }
    if word == b"copy".as_slice() {
        return Some(CommandWord::Copy);
    }
    if word == b"clean".as_slice() {
        return Some(CommandWord::Clean);
    }
    if word == b"cache".as_slice() {
        return Some(CommandWord::Cache);
    }
    if word == b"wire".as_slice() {
        return Some(CommandWord::Wire);
    }
    if word == b"unwire".as_slice() {
        return Some(CommandWord::Unwire);
    }
    if word == b"fail".as_slice() {
        return Some(CommandWord::Fail);
    }
    if word == b"say".as_slice() {
        return Some(CommandWord::Say);
    }
    None
}
