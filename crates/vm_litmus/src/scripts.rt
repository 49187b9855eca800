// Scripts made of lines of another.
use std::alloc::Global;
use vm_base::NoMemory;

const SETTLE: &[u8] = b"settle 1000000\n";

/// The lines of a text.
#[derive(Drop)]
pub struct Lines<'a> {
    lines: Vec<&'a [u8]>,
}

impl<'a> Lines<'a> {
    /// Those of these bytes.
    pub fn of(alloc: Global, bytes: &'a [u8]) -> Result<Lines<'a>, NoMemory> {
        let mut lines = Vec::new(alloc);
        let mut from = 0;
        for i in 0..bytes.len() {
            if bytes[i] == b'\n' {
                lines.push(&bytes[from..i])?;
                from = i + 1;
            }
        }
        if from < bytes.len() {
            lines.push(&bytes[from..])?;
        }
        Ok(Lines { lines })
    }

    // Adds the line of a number, from 1 on, to a text.
    fn put(&self, text: &mut Vec<u8>, number: u32) -> Result<(), NoMemory> {
        if number > 0 && (number as usize) <= self.lines.len() {
            text.extend_from_slice(self.lines[number as usize - 1])?;
            text.push(b'\n')?;
        }
        Ok(())
    }

    /// The lines up to this number.
    pub fn front(&self, alloc: Global, last: u32) -> Result<Vec<u8>, NoMemory> {
        let mut text = Vec::new(alloc);
        for number in 0..last {
            self.put(&mut text, number + 1)?;
        }
        Ok(text)
    }

    /// The lines up to one, and then others, each with a `settle` behind it.
    pub fn order(&self, alloc: Global, last: u32, order: &[u32]) -> Result<Vec<u8>, NoMemory> {
        let mut text = self.front(alloc, last)?;
        for number in order {
            self.put(&mut text, *number)?;
            text.extend_from_slice(SETTLE)?;
        }
        Ok(text)
    }
}
