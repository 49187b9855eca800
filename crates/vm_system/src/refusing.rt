// Why a command is refused.
ghost use Rattle.std.specs.Prelude.{◌≡◌, ◌<◌, Bool, true, length, None, Some};
ghost use Rattle.vm_model.specs.declared.command.Command.TheVariants as command;
ghost use Rattle.vm_model.specs.declared.message.Message.{Message as Word};
ghost use Rattle.vm_model.specs.Ranges.{InRange};
ghost use Rattle.vm_legal.specs.Refusal.{refusal};
ghost use Rattle.vm_model.specs.Named.{named};
ghost use Rattle.vm_system.specs.Refusing.{channel_code, clean_code};
ghost use Rattle.vm_system.specs.Stands.{SystemStands};
ghost use Rattle.vm_hosts.specs.Steps.{IsFoundOn, Step};
ghost use Rattle.vm_kernel.specs.Built.{kernel_runs as is_run};

use crate::state::State;
use vm_base::{Code, HostId, ObjectId, ObjectKind, PageNo};
use vm_model::{Channel, Command};

impl State {
    /// The host on which a command acts, where it is a host's command and its task lives.
    pub fn acting(&self, command: &Command) -> Option<HostId>
        ghost given: { Step }
        requires stands { SystemStands given.header given.outside self.now }
        requires past { given.past ≡ self.now.history.items }
        requires range { InRange given.header command.now }
        ensures { is_run command.now ≡ true → IsFoundOn given.header command.now self.now.history.items result }
    {
        match command {
            Command::Take { .. }
            | Command::Clean { .. }
            | Command::Cache { .. }
            | Command::Say { .. }
            | Command::Settle { .. }
            | Command::FailFiles { .. }
            | Command::FailPaging { .. } => None,
            _ => self.hosts.host_for(command),
        }
    }

    /// Why the command is refused now, if it is, that acts on a host as `acting` tells.
    pub fn refusal(&self, host: Option<HostId>, command: &Command) -> Option<Code>
        ghost given: { Step }
        requires stands { SystemStands given.header given.outside self.now }
        requires past { given.past ≡ self.now.history.items }
        requires range { InRange given.header command.now }
        requires found { is_run command.now ≡ true → IsFoundOn given.header command.now self.now.history.items host }
        ensures { result ≡ refusal given.header self.now.history.items command.now }
    {
        match command {
            Command::Take { channel } => self.take_refusal(*channel),
            Command::Clean {
                object,
                page,
                count,
                ..
            } => self.clean_refusal(*object, *page, *count),
            Command::Cache { object, .. } => self.cache_refusal(*object),
            Command::Say { host, object, .. } => self.say_refusal(*host, *object),
            Command::Settle { .. } | Command::FailFiles { .. } | Command::FailPaging { .. } => None,
            _ => self.hosts.refusal(host, command),
        }
    }

    // A clean is of some pages of a file, all within it.
    fn clean_refusal(&self, object: ObjectId, page: PageNo, count: u32) -> Option<Code>
        ghost given: { Step }
        requires stands { SystemStands given.header given.outside self.now }
        requires declared { object.0 < named given.header }
        ensures { result ≡ clean_code given.header object page count }
    {
        let declared = self.declared[object.0 as usize];
        if declared.kind != ObjectKind::File
            || count == 0
            || u64::from(page.0) + u64::from(count) > u64::from(declared.pages)
        {
            return Some(Code::InvalidArgument);
        }
        None
    }

    // Only a file stays or goes as its pager is told.
    fn cache_refusal(&self, object: ObjectId) -> Option<Code>
        ghost given: { Step }
        requires stands { SystemStands given.header given.outside self.now }
        requires declared { object.0 < named given.header }
        ensures { (cache : Bool) → result ≡ refusal given.header self.now.history.items (command.Cache object cache) }
    {
        if self.kind(object) == ObjectKind::File {
            return None;
        }
        Some(Code::InvalidArgument)
    }

    // Nothing is said where no control lives, and for wild objects alone: other pagers are the system's own.
    fn say_refusal(&self, host: HostId, object: ObjectId) -> Option<Code>
        ghost given: { Step }
        requires stands { SystemStands given.header given.outside self.now }
        requires past { given.past ≡ self.now.history.items }
        requires known { host.0 < length given.header.frames.items }
        requires declared { object.0 < named given.header }
        ensures { (m : Word) → result ≡ refusal given.header self.now.history.items (command.Say host object m) }
    {
        if self.hosts.control(host, object).is_none() {
            return Some(Code::NoSuchName);
        }
        if self.kind(object) != ObjectKind::Wild {
            return Some(Code::InvalidArgument);
        }
        None
    }

    fn take_refusal(&self, channel: Channel) -> Option<Code>
        requires { length self.now.channels.made ≡ self.now.ports.channels }
        ensures { result ≡ channel_code channel self.now.channels.made self.now.ports.letters }
    {
        let Some(number) = self.channels.number(channel) else {
            return Some(Code::NoSuchName);
        };
        match self.ports.head(number) {
            None => Some(Code::EmptyPort),
            Some(_) => None,
        }
    }
}
