// The numbers of the channels that were made.
ghost use Rattle.std.specs.Prelude.{◌≡◌, ◌≤◌, ◌+◌, ◌<◌, ◌++◌, ◌∷◌, [], length, slice_get, OnOk, None, Some, option_map};
ghost use Rattle.vm_base.specs.declared.ids.ChannelId.{ChannelId};
ghost use Rattle.vm_system.specs.Channels.{channel_number};

use indexmap::IndexSet;
use std::alloc::Global;
use std::marker::Model;
use vm_base::{ChannelId, NoMemory};
use vm_model::Channel;

/// The channels that were made, each with its number, from 0 on in the order of making.
///
/// A look-up by channel is one in a hash table, and takes no memory.
#[derive(Drop)]
pub struct Channels {
    // A channel's index is its number.
    made: IndexSet<Channel>,
}

impl Model for Channels {
    ghost use Rattle.std.specs.Prelude.{length, min, ◌-◌, ◌^◌, ◌≤◌};
    ghost use Rattle.indexmap.specs.IndexSet.{spare};
    ghost use Rattle.vm_system.specs.Channels.{ChannelTable};

    ghost Value = { ChannelTable };

    ghost view = { λ s. record { made = s.made.keys; room = min (spare s.made) (2 ^ 32 - 1 - length s.made.keys) } };

    ghost invariant = { λ s. length s.made.keys ≤ 2 ^ 32 - 1 };
}

impl Channels {
    /// No channel, which takes no memory.
    pub fn new(alloc: Global) -> Channels
        ensures { result.made ≡ [] }
    {
        Channels {
            made: IndexSet::new(alloc),
        }
    }

    /// Makes room for so many further channels.
    pub fn reserve(&mut self, n: u32) -> Result<(), NoMemory>
        ensures made { self.new.made ≡ self.old.made }
        ensures room { OnOk result (n ≤ self.new.room) }
    {
        if u32::MAX as usize - self.made.len() < n as usize {
            return Err(NoMemory);
        }
        self.made.reserve(n as usize)?;
        Ok(())
    }

    /// Notes a channel, which has the next number.
    #[tactic(auto, using(crate::proofs::Numbers::number_listed))]
    pub fn add(&mut self, channel: Channel)
        requires fresh { channel_number channel self.old.made ≡ None }
        requires room { 0 < self.old.room }
        ensures made { self.new.made ≡ self.old.made ++ channel ∷ [] }
        ensures room { self.old.room ≤ self.new.room + 1 }
    {
        let Ok(_) = self.made.insert(channel) else {
            unreachable!()
        };
    }

    /// The number of a channel; None where it was never made.
    #[tactic(auto, using(crate::proofs::Numbers::number_position))]
    pub fn number(&self, channel: Channel) -> Option<ChannelId>
        ensures { option_map (λ (n : ChannelId). n.0) result ≡ channel_number channel self.now.made }
    {
        let number = self.made.get_index_of(&channel)?;
        Some(ChannelId(number as u32))
    }

    /// The channel with a number.
    #[tactic(auto, using(crate::proofs::Numbers::number_at))]
    pub fn channel(&self, number: ChannelId) -> Channel
        requires { number.0 < length self.now.made }
        ensures channel { slice_get self.now.made number.0 ≡ Some result }
        ensures number { channel_number result self.now.made ≡ Some number.0 }
    {
        self.made.as_slice()[number.0 as usize]
    }
}
