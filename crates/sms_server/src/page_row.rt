// A page of a shared object, with what is known of it.
ghost use Rattle.std.specs.Prelude.{◌≡◌, ◌≤◌, ◌<◌, ◌+◌, ◌++◌, ◌⊎◌, true, Some, IsOk, OnOk, IfOk, length};
ghost use Rattle.vm_base.specs.Limits.{most_hosts};
ghost use Rattle.vm_model.specs.Words.{up_word};
ghost use Rattle.sms_pages.specs.Directory.{most_replies, wanted_access};
ghost use Rattle.sms_server.specs.Kept.{IsReadyToEnd, IsSameRow, end_replies};
ghost use Rattle.sms_server.specs.Answers.{DirectoryAfter, IsAbout, IsEnd, ReturnsWhole, RowAfter, heard_row, replies_to, row_events};

use crate::telling::tell;
use sms_pages::{PageDirectory, Replies};
use vm_base::limits::MOST_HOSTS;
use vm_base::{Access, HostId, NoMemory, PageKey};
use vm_model::{Events, Message};

/// The hosts of a page.
pub const HOSTS: usize = MOST_HOSTS as usize;

/// A page of a shared object: its directory, and for each host the control of the last request that
/// was taken from it.
#[derive(Drop)]
pub struct PageRow {
    pub key: PageKey,
    pub directory: PageDirectory,
    pub heard: [u32; HOSTS],
}

impl PageRow {
    /// Takes the memory of the next answer, and says how many replies it has at most. It fails for
    /// want of memory alone.
    pub fn reserve(&mut self) -> Result<u32, NoMemory>
        ensures same { IsSameRow (Some self.old) (Some self.new) }
        ensures most { IfOk result (λ most. most ≡ most_replies self.old.directory) }
        ensures prepared { OnOk result (self.new.directory.prepared ≡ true) }
        ensures succeeds { self.old.directory.prepared ≡ true → IsOk result }
    {
        self.directory.reserve()
    }

    /// Takes a message of a host about the page, and adds the events of the answer to those that
    /// were given before.
    pub fn answer(
        &mut self,
        host: HostId,
        message: &Message,
        events: &mut Events,
    ) -> Result<(), NoMemory>
        requires host { host.0 < most_hosts }
        requires about { IsAbout self.old.key.page.0 message.now }
        requires whole { ReturnsWhole (length self.old.directory.bytes) message.now }
        requires prepared { self.old.directory.prepared ≡ true }
        requires room { most_replies self.old.directory ≤ events.old.room }
        ensures ok { IsOk result }
        ensures row { RowAfter host.0 message.now self.old self.new }
        ensures events { events.new.items ≡ row_events host.0 message.now self.old ++ events.old.items }
        ensures room { events.old.room ≤ events.new.room + most_replies self.old.directory }
        ensures few { length events.new.items ≤ length events.old.items + most_replies self.old.directory }
    {
        let replies = self.note(host, message)?;
        self.hear(host, message);
        tell(replies, self.key, &self.heard, events)
    }

    /// Takes the memory of the answer to the end of a host's control, and says how many replies it
    /// has at most: none, exactly where the end changes nothing. It fails for want of memory alone.
    pub fn reserve_end(&mut self, host: HostId) -> Result<u32, NoMemory>
        requires { host.0 < most_hosts }
        ensures same { IsSameRow (Some self.old) (Some self.new) }
        ensures most { IfOk result (λ most. most ≡ end_replies host.0 self.old) }
        ensures prepared { OnOk result (IsReadyToEnd host.0 self.new) }
        ensures succeeds { self.old.directory.prepared ≡ true → IsOk result }
    {
        if self.directory.is_idle(host) {
            return Ok(0);
        }
        self.reserve()
    }

    /// Takes the end of a host's control, and adds the events of the answer.
    pub fn end(
        &mut self,
        host: HostId,
        message: &Message,
        events: &mut Events,
    ) -> Result<(), NoMemory>
        requires host { host.0 < most_hosts }
        requires end { IsEnd message.now }
        requires ready { IsReadyToEnd host.0 self.old }
        requires room { end_replies host.0 self.old ≤ events.old.room }
        ensures ok { IsOk result }
        ensures row { RowAfter host.0 message.now self.old self.new }
        ensures events { events.new.items ≡ row_events host.0 message.now self.old ++ events.old.items }
        ensures room { events.old.room ≤ events.new.room + end_replies host.0 self.old }
        ensures few { length events.new.items ≤ length events.old.items + end_replies host.0 self.old }
    {
        if self.directory.is_idle(host) {
            return Ok(());
        }
        self.answer(host, message, events)
    }

    // What the directory notes of the message, and how it answers.
    fn note(&mut self, host: HostId, message: &Message) -> Result<Replies, NoMemory>
        requires host { host.0 < most_hosts }
        requires about { IsAbout self.old.key.page.0 message.now }
        requires whole { ReturnsWhole (length self.old.directory.bytes) message.now }
        requires prepared { self.old.directory.prepared ≡ true }
        ensures ok { IsOk result }
        ensures key { self.new.key ≡ self.old.key }
        ensures heard { self.new.heard ≡ self.old.heard }
        ensures directory { DirectoryAfter host.0 (up_word self.old.key.page.0 message.now) self.old.directory self.new.directory }
        ensures replies { IfOk result (λ replies. replies.items ≡ replies_to host.0 (up_word self.old.key.page.0 message.now) self.old.directory) }
        ensures few { IfOk result (λ replies. length replies.items ≤ most_replies self.old.directory) }
    {
        match message {
            Message::Request { access, .. } => self.directory.request(host, access_of(*access)),
            Message::Unlock { .. } => self.directory.unlock(host),
            Message::Return { keep, hex, .. } => self.directory.returned(host, *keep, hex),
            Message::Completed { .. } => self.directory.completed(host),
            Message::Terminate { .. } => self.directory.gone(host),
            _ => unreachable!(),
        }
    }

    // A request says which control its answer is to go to.
    fn hear(&mut self, host: HostId, message: &Message)
        requires host { host.0 < most_hosts }
        requires about { IsAbout self.old.key.page.0 message.now }
        ensures key { self.new.key ≡ self.old.key }
        ensures directory { self.new.directory ≡ self.old.directory }
        ensures heard { self.new.heard ≡ heard_row host.0 (up_word self.old.key.page.0 message.now) self.old.heard }
    {
        if let Message::Request { control, .. } = message {
            self.heard[host.0 as usize] = *control;
        }
    }
}

// The access that a request names.
fn access_of(access: u32) -> Access
    requires { (access ≡ 1) ⊎ (access ≡ 3) }
    ensures { wanted_access result ≡ access }
{
    if access == 3 {
        Access::Store
    } else {
        Access::Load
    }
}
