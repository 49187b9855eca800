// How much a step may tell in front of the accesses that are run.
ghost use Rattle.std.specs.Prelude.{◌≡◌};
ghost use Rattle.vm_kernel.specs.Rooms.{breadth_of, word_breadth};

use vm_base::TaskId;
use vm_model::{Command, Message};

/// How much a step may tell on a host in front of the accesses that are run, and so for how much it takes
/// its memory.
#[derive(Clone, Copy)]
pub enum Breadth {
    /// Some events.
    Few,
    /// The entries of a task, which a fork copies.
    Entries(TaskId),
    /// Each frame of a host twice: a copy may wait for its pages.
    Frames,
    /// The pages and the controls of a host, which go with a slow copy or an object that nothing holds or
    /// whose pager ends it, or are paged out or given back.
    Pages,
    /// These, as they go with a task or a range of it, and an object for each of its entries, which may be
    /// merged then.
    Ends(TaskId),
}

impl Breadth {
    /// That of a command.
    pub fn of(command: &Command) -> Breadth
        ensures { result ≡ breadth_of command.now }
    {
        match command {
            Command::Fork { task, .. } => Breadth::Entries(*task),
            Command::Copy { .. } => Breadth::Frames,
            Command::Exit { task } | Command::Deallocate { task, .. } => Breadth::Ends(*task),
            Command::Pageout { .. } => Breadth::Pages,
            _ => Breadth::Few,
        }
    }

    /// That of the word of a pager.
    pub fn of_word(message: &Message) -> Breadth
        ensures { result ≡ word_breadth message.now }
    {
        match message {
            Message::Lock { .. }
            | Message::Error { .. }
            | Message::Ready { .. }
            | Message::Attributes { .. }
            | Message::Destroy { .. } => Breadth::Pages,
            _ => Breadth::Few,
        }
    }
}
