// The drawn lines of a made script.
ghost use Rattle.std.specs.Prelude.{◌≡◌, ◌<◌};
ghost use Rattle.vm_gen.specs.Drawn.{drawn, command_of, load_at, store_at, copy_to};

use rand_core::utils::NextWord;
use rand_pcg::Lcg64Xsh32;
use vm_base::{HostId, TaskId};
use vm_model::Command;

// Where a drawn line finds the task's own memory, and where it puts copies; the shared object is at 0.
const OWN: u32 = 4096;

const COPIES: u32 = 8192;

/// The four numbers that make a line.
#[derive(Clone, Copy)]
pub struct Draw {
    kind: u32,
    task: u32,
    place: u32,
    value: u32,
}

impl Draw {
    /// Takes the four words of the next line.
    pub fn next(words: &mut Lcg64Xsh32) -> Draw
        ensures { (result, words.new) ≡ drawn words.old }
    {
        let kind = words.next_word() % 16;
        let task = words.next_word() % 16;
        let place = words.next_word() % 64;
        let value = words.next_word() % 256;
        Draw {
            kind,
            task,
            place,
            value,
        }
    }

    fn load(self, address: u32) -> Command
        ensures { result ≡ load_at self.task address }
    {
        Command::Load {
            task: TaskId(self.task),
            address: u64::from(address),
            size: 4,
        }
    }

    fn store(self, address: u32) -> Command
        ensures { result ≡ store_at self.task address self.value }
    {
        Command::Store {
            task: TaskId(self.task),
            address: u64::from(address),
            size: 4,
            value: u64::from(self.value),
        }
    }

    fn copy(self, to: u32) -> Command
        ensures { result ≡ copy_to self.task self.value to }
    {
        let address = if self.value % 2 == 0 { OWN } else { 0 };
        Command::Copy {
            task: TaskId(self.task),
            address: u64::from(address),
            bytes: 256,
            target: TaskId(self.task),
            to: u64::from(to),
        }
    }

    /// The command of the line.
    pub fn command(self) -> Command
        requires { self.place < 64 }
        ensures { result ≡ command_of self }
    {
        match self.kind {
            0..=2 => self.load(4 * self.place),
            3..=5 => self.store(4 * self.place),
            6 | 7 => self.load(OWN + 4 * self.place),
            8 | 9 => self.store(OWN + 4 * self.place),
            10 => Command::Pageout {
                host: HostId(self.task % 3),
                count: 2,
            },
            11 => Command::Fork {
                task: TaskId(self.task),
                child: TaskId(6 + self.place % 10),
            },
            12 => Command::Exit {
                task: TaskId(6 + self.place % 10),
            },
            13 => self.copy(COPIES + 256 * self.place),
            _ => Command::Settle { count: 5 },
        }
    }
}
