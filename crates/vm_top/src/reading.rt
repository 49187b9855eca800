// Reads a source to its end, or beyond the bytes that a script may have, by 4,096 at most.
ghost use Rattle.std.specs.Prelude.{◌≤◌, IfOk, IsErrOf};
ghost use Rattle.vm_outside.specs.Causes.{CountRises};
ghost use Rattle.vm_model.specs.Limits.{most_script_bytes};
ghost use Rattle.vm_top.specs.Reading.{ReadAtMost, ReadWhole, most_read};
ghost use Rattle.vm_top.specs.declared.reading.ReadStop.TheVariants.{Failed, NoMemory};

use std::alloc::Global;
use vm_model::limits::MOST_SCRIPT_BYTES;
use vm_outside::Source;

/// Why a source was not read whole.
#[derive(Clone, Copy, Debug, PartialEq, Eq)]
pub enum ReadStop {
    /// The source failed.
    Failed,
    /// No memory was there.
    NoMemory,
}

/// All that is left of the source, or a first part of more than 1,048,576 bytes.
pub fn read_all<S: Source>(alloc: Global, source: &mut S) -> Result<Vec<u8>, ReadStop>
    ensures whole { IfOk result (λ bytes. ReadWhole (S.left source.old) (S.left source.new) bytes.items) }
    ensures failed { IsErrOf result Failed → ReadAtMost most_script_bytes (S.left source.old) (S.left source.new) }
    ensures stopped { IsErrOf result NoMemory → ReadAtMost most_read (S.left source.old) (S.left source.new) }
    ensures later { S.faults source.old ≤ S.faults source.new }
    ensures cause { IsErrOf result Failed → CountRises (S.faults source.old) (S.faults source.new) }
{
    let mut bytes = Vec::new(alloc);
    let mut piece = [0u8; 4096];
    'all: while bytes.len() <= MOST_SCRIPT_BYTES {
        let Ok(count) = source.read(&mut piece) else {
            return Err(ReadStop::Failed);
        };
        if count == 0 {
            return Ok(bytes);
        }
        let Ok(()) = bytes.extend_from_slice(&piece[..count]) else {
            return Err(ReadStop::NoMemory);
        };
    }
    Ok(bytes)
}
