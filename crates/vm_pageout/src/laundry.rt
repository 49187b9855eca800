// The frames that are held by returns.
ghost use Rattle.std.specs.Prelude.{◌≡◌, ◌+◌, ◌<◌, ◌==◌, [], ◌∷◌, ◌++◌, IfOk, MatchOption, length};

use circular_buffer::HeapCircularBuffer;
use std::alloc::Global;
use std::marker::Model;
use vm_base::{FrameNo, NoMemory};
use vm_objects::Holder;

/// The frames that are held by returns until their pagers have taken the messages.
///
/// Contracts see the frames, the oldest first, and how many more there is room for. In this profile
/// a page that is returned leaves its host at once, while its frame stays claimed until the message
/// is taken. No call but `new` takes memory.
#[derive(Drop)]
pub struct Laundry {
    frames: HeapCircularBuffer<FrameNo>,
}

impl Model for Laundry {
    ghost use Rattle.std.specs.Prelude.{◌-◌, ◌≤◌, length};
    ghost use Rattle.vm_pageout.specs.Laundry.{LaundryList};

    ghost Value = { LaundryList };

    ghost view = { λ s. record { held = s.frames.items; room = s.frames.capacity - length s.frames.items } };

    ghost invariant = { λ s. length s.frames.items ≤ s.frames.capacity };
}

impl Laundry {
    /// A laundry with room for so many frames, which holds none; it fails for want of memory alone.
    pub fn new(alloc: Global, frames: u32) -> Result<Laundry, NoMemory>
        ensures held { IfOk result (λ laundry. laundry.held ≡ []) }
        ensures room { IfOk result (λ laundry. laundry.room ≡ frames) }
    {
        let frames = HeapCircularBuffer::with_capacity(alloc, frames as usize)?;
        Ok(Laundry { frames })
    }

    /// Holds a frame, behind those that are held.
    pub fn hold(&mut self, f: FrameNo)
        requires { 0 < self.old.room }
        ensures held { self.new.held ≡ self.old.held ++ f ∷ [] }
        ensures room { self.new.room + 1 ≡ self.old.room }
    {
        let _ = self.frames.try_push_back(f);
    }

    /// Takes out the frame that is held longest; None exactly where none is held.
    pub fn first(&mut self) -> Option<FrameNo>
        ensures { MatchOption result ((self.old.held ≡ []) × (self.new ≡ self.old))
            (λ f. (self.old.held ≡ f ∷ self.new.held) × (self.new.room ≡ self.old.room + 1)) }
    {
        self.frames.pop_front()
    }

    /// Whether no frame is held.
    pub fn is_empty(&self) -> bool
        ensures { result ≡ (length self.now.held == 0) }
    {
        self.frames.is_empty()
    }
}

impl Holder for Laundry {
    ghost held = { λ s. s.held };

    ghost room = { λ s. s.room };

    fn hold(&mut self, f: FrameNo) {
        Laundry::hold(self, f);
    }
}
