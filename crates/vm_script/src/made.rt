// A made script, and the text that spells it.
ghost use Rattle.std.specs.Prelude.{◌≡◌, IfOk, Ok};
ghost use Rattle.vm_gen.specs.Made.{IsMade};
ghost use Rattle.vm_model.specs.Ranges.{IsBetween};
ghost use Rattle.vm_text.specs.Script.{script_of, whole_script};

use crate::text::put_commands;
use std::alloc::Global;
use vm_base::NoMemory;
use vm_gen::make_script;
use vm_model::Script;

// Pages of 64 bytes, three hosts with eight frames and 512 slots each, and a shared object of four pages.
const HEADER: &[u8] = b"page 64\nhosts 3 8\nslots 512\nshared a 4\n";

/// A made script, and a text that spells it.
#[derive(Drop)]
pub struct MadeScript {
    pub script: Script,
    pub text: Vec<u8>,
}

/// Makes the script of a number, with so many drawn lines, and its text: the reader reads that script from it.
///
/// The text has a line for each of the script's lines, with one space between words, and a line feed behind each line. It fails for want of
/// memory alone.
pub fn made_text(alloc: Global, number: u64, lines: u32) -> Result<MadeScript, NoMemory>
    requires { IsBetween 1 10000 lines }
    ensures made { IfOk result (λ it. IsMade number lines it.script) }
    ensures reads { IfOk result (λ it. script_of it.text.items ≡ Ok (whole_script it.script)) }
{
    let script = make_script(alloc, number, lines)?;
    let mut text = Vec::from_slice(alloc, HEADER)?;
    put_commands(&mut text, &script.commands)?;
    Ok(MadeScript { script, text })
}
