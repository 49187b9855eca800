// The making of a script.
ghost use Rattle.std.specs.Prelude.{◌≡◌, ◌+◌, IfOk, length, OnOk};
ghost use Rattle.vm_gen.specs.Drawn.{drawn_line};
ghost use Rattle.vm_gen.specs.Made.{IsMade, add_lines};
ghost use Rattle.vm_model.specs.Ranges.{IsBetween, KeepsRanges};

use crate::drawn::Draw;
use crate::opening::{header, opening_commands};
use rand_core::SeedableRng;
use rand_pcg::Lcg64Xsh32;
use std::alloc::Global;
use vm_base::NoMemory;
use vm_model::limits::MOST_TAKINGS;
use vm_model::{Command, Commands, Numbered, Script};

// The line of the first drawn command.
const FIRST: u32 = 23;

fn add_drawn_lines(commands: &mut Commands, number: u64, lines: u32) -> Result<(), NoMemory>
    requires { IsBetween 1 10000 lines }
    ensures { OnOk result (commands.new.items ≡ add_lines (drawn_line number) 23 lines commands.old.items) }
{
    let mut words = Lcg64Xsh32::seed_from_u64(number);
    for i in 0..lines {
        let draw = Draw::next(&mut words);
        commands.push(Numbered {
            line: FIRST + i,
            command: draw.command(),
        })?;
    }
    Ok(())
}

/// Makes the script of a number, with so many drawn lines: from 1 to 10,000 of them.
///
/// It has a header of four lines and eighteen lines that open it; behind the drawn lines stands one that takes up to 1,000,000 messages. A
/// drawn line takes four words of the generator of `rand_pcg` that `seed_from_u64` makes of the number.
/// The same number gives the same script. It fails for want of memory alone.
pub fn make_script(alloc: Global, number: u64, lines: u32) -> Result<Script, NoMemory>
    requires { IsBetween 1 10000 lines }
    ensures made { IfOk result (IsMade number lines) }
    ensures count { IfOk result (λ script. length script.commands.items ≡ lines + 19) }
    ensures ranges { IfOk result KeepsRanges }
{
    let header = header(alloc)?;
    let mut commands = opening_commands(alloc)?;
    add_drawn_lines(&mut commands, number, lines)?;
    commands.push(Numbered {
        line: lines + FIRST,
        command: Command::Settle {
            count: MOST_TAKINGS,
        },
    })?;
    Ok(Script {
        header,
        commands,
        lines: lines + FIRST,
    })
}
