// The lines of a script, one after the other.
ghost use Rattle.std.specs.Prelude.{◌≡◌, ◌<◌, [], IfOk};
ghost use Rattle.vm_model.specs.Ranges.{KeepsRanges};
ghost use Rattle.vm_text.specs.Script.{nothing_read, header_line, command_line, line_read, lines_read, script_of, DeclaresNoTemporary, IsErrorOfLine, IsRead};
ghost use Rattle.vm_text.specs.Stops.{LeavesValue};
ghost use Rattle.vm_text.specs.Words.{words_of, is_comment};

use crate::commands::command_form;
use crate::error::{LineStop, ScriptError};
use crate::heading::Heading;
use crate::lookup::{command_word, header_word};
use crate::meaning::{CommandWord, HeaderWord};
use crate::words::{line_at, word_at};
use std::alloc::Global;
use std::marker::Model;
use vm_model::limits::{MOST_SCRIPT_BYTES, MOST_SCRIPT_LINES};
use vm_model::{Commands, Numbered, Script, ScriptFault};

// What the lines have said so far.
#[derive(Drop)]
struct Reading<'a> {
    heading: Heading<'a>,
    commands: Commands,
}

impl<'a> Model for Reading<'a> {
    ghost use Rattle.vm_text.specs.Script.{Reading};

    ghost Value = { Reading };

    ghost view = { λ r. record { heading = r.heading; commands = r.commands.items } };
}

impl<'a> Reading<'a> {
    fn new(alloc: Global) -> Reading<'a>
        ensures { result ≡ nothing_read }
    {
        Reading {
            heading: Heading::new(alloc),
            commands: Commands::new(alloc),
        }
    }

    fn header_line(
        &mut self,
        alloc: Global,
        word: HeaderWord,
        line: &'a [u8],
    ) -> Result<(), LineStop>
        ensures { LeavesValue result self.new (header_line self.old word (words_of line.now)) }
    {
        if self.commands.len() > 0 || self.heading.again(word) {
            return Err(LineStop::Fault(ScriptFault::HeaderLate));
        }
        self.heading.header_form(alloc, word, line)
    }

    fn command_line(
        &mut self,
        alloc: Global,
        number: u32,
        word: CommandWord,
        line: &[u8],
    ) -> Result<(), LineStop>
        ensures { LeavesValue result self.new (command_line number self.old word (words_of line.now)) }
    {
        if !self.heading.has_hosts() {
            return Err(LineStop::Fault(ScriptFault::NoHosts));
        }
        let command = command_form(alloc, &self.heading, word, line)?;
        self.commands.push(Numbered {
            line: number,
            command,
        })?;
        Ok(())
    }

    // Reads a line of this number.
    fn line(&mut self, alloc: Global, number: u32, line: &'a [u8]) -> Result<(), LineStop>
        ensures { LeavesValue result self.new (line_read number self.old (words_of line.now)) }
    {
        let Some((word, rest)) = word_at(line) else {
            return Ok(());
        };
        if is_comment(word) {
            return Ok(());
        }
        if let Some(meaning) = command_word(word) {
            return self.command_line(alloc, number, meaning, rest);
        }
        match header_word(word) {
            Some(meaning) => self.header_line(alloc, meaning, rest),
            None => Err(LineStop::Fault(ScriptFault::UnknownWord)),
        }
    }

    // The script of so many lines but one.
    fn finish(self, alloc: Global, number: u32) -> Result<Script, ScriptError>
        requires { 0 < number }
        ensures { IsRead result (lines_read number self.entry []) }
    {
        if !self.heading.has_hosts() {
            return Err(ScriptError::Bad {
                line: number,
                kind: ScriptFault::NoHosts,
            });
        }
        let Reading { heading, commands } = self;
        match heading.into_header(alloc) {
            Ok(header) => Ok(Script {
                header,
                commands,
                lines: number - 1,
            }),
            Err(_) => Err(ScriptError::NoMemory),
        }
    }
}

fn is_comment(word: &[u8]) -> bool
    ensures { result ≡ is_comment word.now }
{
    match word {
        [b'#', ..] => true,
        _ => false,
    }
}

// The stop of a line, as a script has it.
fn error_at(line: u32, stop: LineStop) -> ScriptError
    ensures { IsErrorOfLine line stop result }
{
    match stop {
        LineStop::Fault(kind) => ScriptError::Bad { line, kind },
        LineStop::NoMemory => ScriptError::NoMemory,
    }
}

/// Reads a whole script, or answers the first line that has a fault and the first fault of that line.
///
/// The bytes are passed over once and none of them are kept: what is kept are the commands, and the
/// declared objects. Each number of a script that was read is in its range, no two objects have one
/// name, and each is a file, a shared or a wild one.
pub fn read_script(alloc: Global, bytes: &[u8]) -> Result<Script, ScriptError>
    ensures exact { IsRead result (script_of bytes.now) }
    ensures ranges { IfOk result KeepsRanges }
    ensures declares { IfOk result (λ script. DeclaresNoTemporary script.header) }
{
    if bytes.len() > MOST_SCRIPT_BYTES {
        return Err(ScriptError::Bad {
            line: 0,
            kind: ScriptFault::TooLong,
        });
    }
    let mut reading = Reading::new(alloc);
    let mut number = 1u32;
    let mut rest = bytes;
    while let Some((line, more)) = line_at(rest) {
        if number > MOST_SCRIPT_LINES {
            return Err(ScriptError::Bad {
                line: number,
                kind: ScriptFault::TooLong,
            });
        }
        if let Err(stop) = reading.line(alloc, number, line) {
            return Err(error_at(number, stop));
        }
        number += 1;
        rest = more;
    }
    reading.finish(alloc, number)
}
