// Steps of commands that take no message.
ghost use Rattle.std.specs.Prelude.{◌≡◌, ◌∷◌, ◌++◌, ◌+◌, ◌<◌, ◌≤◌, ℕ, List, None, Some, OnOk, OnErr, true, false, [], IfOk, is_some, length};
ghost use Rattle.vm_base.specs.declared.code.Code.{Code};
ghost use Rattle.vm_model.specs.declared.command.Numbered.{Numbered};
ghost use Rattle.vm_model.specs.declared.event.Event.TheVariants as event;
ghost use Rattle.vm_model.specs.Controls.{live_control};
ghost use Rattle.vm_model.specs.Ranges.{InRange, IsSaid};
ghost use Rattle.vm_legal.specs.Follows.{head, say_head};
ghost use Rattle.vm_legal.specs.Refusal.{refusal};
ghost use Rattle.vm_hosts.specs.Steps.{IsFoundOn, Step};
ghost use Rattle.vm_kernel.specs.Built.{kernel_runs as is_run};
ghost use Rattle.vm_model.specs.declared.command.Command.TheVariants as command;
ghost use Rattle.vm_system.specs.Making.{Makes, Spares};
ghost use Rattle.vm_system.specs.Stands.{StandsStill, SystemStands};
ghost use Rattle.vm_system.specs.Steps.{Setting, is_idle};

use crate::state::State;
use vm_base::{Buffers, Code, HostId, NoMemory, ObjectId};
use vm_kernel::Breadth;
use vm_model::{Channel, Command, Event, Events, Message};

// Puts what is asked, one event at most, into an empty list that has room for it.
fn put(mut asked: Events, log: &mut Events)
    requires few { length asked.items ≤ 1 }
    requires empty { log.old.items ≡ [] }
    requires room { 0 < log.old.room }
    ensures items { log.new.items ≡ asked.items }
    ensures room { log.old.room ≤ log.new.room + 1 }
{
    let Some(event) = asked.take_first() else {
        return;
    };
    let Ok(()) = log.push(event) else {
        unreachable!()
    };
}

impl State {
    // A command of a host that isn't refused.
    pub fn begin(
        &mut self,
        line: u32,
        host: Option<HostId>,
        command: &Command,
    ) -> Result<(), NoMemory>
        ghost given: { Step }
        requires given { given ≡ record {
          header = given.header;
          outside = given.outside;
          command = command.now;
          past = event.Line line ∷ self.old.history.items;
        } }
        requires stands { SystemStands given.header given.outside self.old }
        requires range { InRange given.header command.now }
        requires run { is_run command.now ≡ true }
        requires accepted { refusal given.header self.old.history.items command.now ≡ None }
        requires found { IsFoundOn given.header command.now self.old.history.items host }
        ensures made { OnOk result (Makes given.header given.outside (record { line = line; command = command.now }) self.old self.new) }
        ensures spares { Spares given.header given.outside self.old self.new }
        ensures err { OnErr result (StandsStill given.header given.outside self.old self.new) }
    {
        let Some(host) = host else { unreachable!() };
        self.prepare(Some(host), Breadth::of(command), 1)?;
        self.hosts.begin(host, command, &mut self.log)?;
        self.tell(Event::Line { line });
        self.commit_log();
        Ok(())
    }

    // A command that is no host's: a file's pager says what a clean asks of it, or whether the file stays,
    // or a wild object's what the script says, and the frame queues are served.
    pub fn pass(&mut self, line: u32, command: &Command) -> Result<(), NoMemory>
        ghost given: { Step }
        requires given { given ≡ record {
          header = given.header;
          outside = given.outside;
          command = command.now;
          past = event.Line line ∷ self.old.history.items;
        } }
        requires stands { SystemStands given.header given.outside self.old }
        requires range { InRange given.header command.now }
        requires idle { is_idle command.now ≡ true }
        requires accepted { refusal given.header self.old.history.items command.now ≡ None }
        ensures made { OnOk result (Makes given.header given.outside (record { line = line; command = command.now }) self.old self.new) }
        ensures spares { Spares given.header given.outside self.old self.new }
        ensures err { OnErr result (StandsStill given.header given.outside self.old self.new) }
    {
        self.prepare(None, Breadth::Few, 2)?;
        let asked = self.asked(command)?;
        put(asked, &mut self.log);
        self.hosts.serve(&mut self.log);
        self.tell(Event::Line { line });
        self.commit_log();
        Ok(())
    }

    // What a file's pager says for a clean, or of whether the file stays, and what is said for a wild
    // object: one event at most.
    fn asked(&self, command: &Command) -> Result<Events, NoMemory>
        ghost given: { Step }
        requires stands { SystemStands given.header given.outside self.now }
        requires past { (line : ℕ) × (given.past ≡ event.Line line ∷ self.now.history.items) }
        requires range { InRange given.header command.now }
        requires idle { is_idle command.now ≡ true }
        requires accepted { refusal given.header self.now.history.items command.now ≡ None }
        ensures head { IfOk result (λ events. head given.header given.past command.now ≡ Some events.items) }
        ensures few { IfOk result (λ events. length events.items ≤ 1) }
    {
        match command {
            Command::Clean {
                object,
                page,
                count,
                flush,
            } => self.files[object.0 as usize].clean(*page, *count, *flush),
            Command::Cache { object, cache } => self.files[object.0 as usize].cache(*cache),
            Command::Say {
                host,
                object,
                message,
            } => self.say(*host, *object, message),
            _ => Ok(Events::new(self.alloc)),
        }
    }

    // A message is sent to the control that lives.
    fn say(&self, host: HostId, object: ObjectId, message: &Message) -> Result<Events, NoMemory>
        ghost given: { Step }
        requires stands { SystemStands given.header given.outside self.now }
        requires past { given.past ≡ self.now.history.items }
        requires known { host.0 < length given.header.frames.items }
        requires said { IsSaid self.now.size message.now }
        requires lives { is_some (live_control host.0 object.0 self.now.history.items) ≡ true }
        ensures head { IfOk result (λ events. say_head host object message.now (live_control host.0 object.0 self.now.history.items) ≡ Some events.items) }
        ensures few { IfOk result (λ events. length events.items ≤ 1) }
    {
        let Some(control) = self.hosts.control(host, object) else {
            unreachable!()
        };
        let channel = Channel::Down {
            host,
            object,
            control,
        };
        let mut buffers = Buffers::new(self.alloc, self.size);
        buffers.reserve(1)?;
        let message = message.copy(&mut buffers);
        let mut events = Events::new(self.alloc);
        events.push(Event::Sent { channel, message })?;
        Ok(events)
    }

    // A command that is refused.
    pub fn refuse(&mut self, line: u32, command: &Command, code: Code) -> Result<(), NoMemory>
        ghost given: { Setting }
        requires stands { SystemStands given.header given.outside self.old }
        requires refused { refusal given.header self.old.history.items command.now ≡ Some code }
        ensures made { OnOk result (Makes given.header given.outside (record { line = line; command = command.now }) self.old self.new) }
        ensures spares { Spares given.header given.outside self.old self.new }
        ensures err { OnErr result (StandsStill given.header given.outside self.old self.new) }
    {
        self.reserve(2)?;
        self.tell(Event::Line { line });
        self.tell(Event::Refused { code });
        Ok(())
    }

    // A settle begins.
    pub fn settle(&mut self, line: u32, count: u32) -> Result<(), NoMemory>
        ghost given: { Setting }
        requires stands { SystemStands given.header given.outside self.old }
        ensures line { OnOk result (self.new.history.items ≡ event.Line line ∷ self.old.history.items) }
        ensures made { OnOk result (Makes given.header given.outside (record { line = line; command = command.Settle count }) self.old self.new) }
        ensures spares { Spares given.header given.outside self.old self.new }
        ensures err { OnErr result (StandsStill given.header given.outside self.old self.new) }
    {
        self.reserve(1)?;
        self.tell(Event::Line { line });
        Ok(())
    }
}
