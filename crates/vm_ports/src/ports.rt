// The channels and the letters on them.
ghost use Rattle.std.specs.Prelude.{ℕ, ◌≡◌, ◌+◌, ◌≤◌, ◌<◌, ◌∷◌, [], ◌++◌, length, slice_get, IsOk, OnOk, OnErr, IfOk, IfErr, IfNone, MatchOption};
ghost use Rattle.slab.specs.Slab.{get, slab_len};
ghost use Rattle.vm_ports.specs.Nodes.{KeysApart, along, first_key, letters_of, node_at};
ghost use Rattle.vm_ports.specs.Ports.{AllAdded, KeepsOthers, oldest, queue, spare_channels, without_first};

use crate::letter::SendBack;
use crate::links;
use crate::links::{Links, append, first_channel, first_message, no_links, take_first};
use crate::node::Node;
use slab::Slab;
use std::alloc::Global;
use std::marker::Model;
use vm_base::{ChannelId, NoMemory};

/// The channels of a run and the messages sent on them and not taken yet, each channel first in,
/// first out.
///
/// Contracts see all undelivered letters in the order of sending, the oldest first, the room, which
/// is the number of messages that can be sent without memory, whichever channels they go to, and the
/// keys of the letters' nodes. No call but `reserve` costs more for many undelivered letters than
/// for few.
#[derive(Drop)]
pub struct Ports<M> {
    links: Links<M>,
    channels: u32,
}

impl<M> Model for Ports<M> {
    ghost use Rattle.vm_ports.specs.Kept.{AreLinked, places, room_of};
    ghost use Rattle.vm_ports.specs.Nodes.{letters_of};
    ghost use Rattle.vm_ports.specs.Ports.{AllAdded, PortTable};

    ghost Value = { PortTable M };

    ghost view = { λ s. record { channels = s.channels; letters = letters_of (places s.links); room = room_of s.links; places = places s.links } };

    ghost invariant = { λ s. AreLinked s.links × AllAdded s.channels (letters_of (places s.links)) };
}

impl<M> Ports<M> {
    /// No channel and no letter, which takes no memory.
    pub fn new(alloc: Global) -> Ports<M>
        ensures channels { result.channels ≡ 0 }
        ensures letters { result.letters ≡ [] }
    {
        Ports {
            links: no_links(alloc),
            channels: 0,
        }
    }

    /// Makes room for so many further channels and messages, whichever channels these go to; it
    /// fails for want of memory alone.
    pub fn reserve(&mut self, channels: u32, messages: u32) -> Result<(), NoMemory>
        ensures same { self.new.channels ≡ self.old.channels }
        ensures letters { self.new.letters ≡ self.old.letters }
        ensures spare { OnOk result (channels ≤ spare_channels self.new) }
        ensures room { OnOk result (messages ≤ self.new.room) }
        ensures kept { self.old.room ≤ self.new.room }
        ensures succeeds { channels ≤ spare_channels self.old → messages ≤ self.old.room → IsOk result }
    {
        if u32::MAX - self.channels < channels {
            return Err(NoMemory);
        }
        links::reserve(&mut self.links, messages as usize)?;
        Ok(())
    }

    /// Adds a channel, which has the next number; it fails for want of memory alone.
    pub fn add_channel(&mut self) -> Result<ChannelId, NoMemory>
        ensures number { IfOk result (λ ch. ch.0 ≡ self.old.channels) }
        ensures channels { OnOk result (self.new.channels ≡ self.old.channels + 1) }
        ensures letters { self.new.letters ≡ self.old.letters }
        ensures empty { OnOk result (queue self.old.channels self.new.letters ≡ []) }
        ensures room { self.new.room ≡ self.old.room }
        ensures err { OnErr result (self.new ≡ self.old) }
        ensures succeeds { 0 < spare_channels self.old → IsOk result }
    {
        if self.channels == u32::MAX {
            return Err(NoMemory);
        }
        let channel = ChannelId(self.channels);
        self.channels += 1;
        Ok(channel)
    }

    /// Sends a message; where it fails, for want of memory alone, the message comes back.
    pub fn send(&mut self, ch: ChannelId, message: M) -> Result<(), SendBack<M>>
        requires { ch.0 < self.old.channels }
        ensures ok { OnOk result (self.new.letters
            ≡ self.old.letters ++ (record { channel = ch; message = message }) ∷ []) }
        ensures queue { OnOk result (queue ch.0 self.new.letters ≡ queue ch.0 self.old.letters ++ message ∷ []) }
        ensures others { KeepsOthers ch.0 self.old.letters self.new.letters }
        ensures channels { self.new.channels ≡ self.old.channels }
        ensures err { OnErr result (self.new.letters ≡ self.old.letters) }
        ensures back { IfErr result (λ back. back.message ≡ message) }
        ensures succeeds { 0 < self.old.room → IsOk result }
        ensures room { self.old.room ≤ self.new.room + 1 }
    {
        if links::reserve(&mut self.links, 1).is_err() {
            return Err(SendBack { message });
        }
        self.send_spare(ch, message);
        Ok(())
    }

    /// Sends a message where there is room for it; it takes no memory.
    pub fn send_spare(&mut self, ch: ChannelId, message: M)
        requires added { ch.0 < self.old.channels }
        requires room { 0 < self.old.room }
        ensures letters { self.new.letters ≡ self.old.letters ++ (record { channel = ch; message = message }) ∷ [] }
        ensures queue { queue ch.0 self.new.letters ≡ queue ch.0 self.old.letters ++ message ∷ [] }
        ensures others { KeepsOthers ch.0 self.old.letters self.new.letters }
        ensures channels { self.new.channels ≡ self.old.channels }
        ensures room { self.old.room ≤ self.new.room + 1 }
    {
        append(&mut self.links, ch, message);
    }

    /// The message that is taken next from a channel; None exactly where the channel is empty.
    pub fn head(&self, ch: ChannelId) -> Option<&M>
        requires { ch.0 < self.now.channels }
        ensures { MatchOption result (queue ch.0 self.now.letters ≡ [])
            (λ first. slice_get (queue ch.0 self.now.letters) 0 ≡ Some first.now) }
    {
        first_message(&self.links, ch)
    }

    /// Takes the first message out of a channel; None exactly where the channel is empty. It takes
    /// no memory.
    pub fn take(&mut self, ch: ChannelId) -> Option<M>
        requires { ch.0 < self.old.channels }
        ensures taken { MatchOption result (queue ch.0 self.old.letters ≡ [])
            (λ message. queue ch.0 self.old.letters ≡ message ∷ queue ch.0 self.new.letters) }
        ensures none { IfNone result (self.new ≡ self.old) }
        ensures letters { self.new.letters ≡ without_first ch.0 self.old.letters }
        ensures others { KeepsOthers ch.0 self.old.letters self.new.letters }
        ensures channels { self.new.channels ≡ self.old.channels }
        ensures room { self.old.room ≤ self.new.room }
    {
        take_first(&mut self.links, ch)
    }

    /// The channel of the undelivered letter that was sent first; None exactly where nothing is
    /// undelivered.
    pub fn oldest(&self) -> Option<ChannelId>
        ensures oldest { result ≡ oldest self.now.letters }
        ensures added { MatchOption result (self.now.letters ≡ []) (λ ch. ch.0 < self.now.channels) }
        ensures filled { MatchOption result (self.now.letters ≡ []) (λ ch. 0 < length (queue ch.0 self.now.letters)) }
    {
        first_channel(&self.links)
    }

    /// The number of undelivered letters.
    pub fn undelivered(&self) -> u64
        ensures count { result ≡ length self.now.letters }
        ensures added { AllAdded self.now.channels self.now.letters }
    {
        self.links.nodes.len() as u64
    }

    /// The nodes of the undelivered messages. From the node of `first` along `newer` they give these
    /// in the order of sending, and there is no other node.
    pub fn nodes(&self) -> &Slab<Node<M>>
        ensures order { along (get result.now) (length self.now.letters) (first_key self.now.places) ≡ self.now.places }
        ensures letters { letters_of self.now.places ≡ self.now.letters }
        ensures nodes { (key : ℕ) → get result.now key ≡ node_at self.now.places key }
        ensures apart { KeysApart self.now.places }
        ensures count { slab_len result.now ≡ length self.now.letters }
    {
        &self.links.nodes
    }

    /// The key of the node of the message that was sent first; None exactly where nothing is
    /// undelivered.
    pub fn first(&self) -> Option<usize>
        ensures first { result ≡ first_key self.now.places }
        ensures empty { MatchOption result (self.now.letters ≡ []) (λ _. 0 < length self.now.letters) }
    {
        self.links.first
    }
}
