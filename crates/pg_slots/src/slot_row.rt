// What is held of a page.
ghost use Rattle.std.specs.Prelude.{◌≡◌, Some};
ghost use Rattle.pg_slots.specs.Slots.{held_slot};

/// What the slots hold of a page that was put.
#[derive(Clone, Copy, Debug, PartialEq, Eq)]
pub enum Held {
    /// Its bytes, in this slot.
    Kept { slot: u32 },
    /// Nothing, since the last write to its slot failed.
    Torn { slot: u32 },
    /// Nothing, and no slot either.
    Lost,
}

/// The slot that a page has.
pub fn slot_in(held: Held) -> Option<u32>
    ensures { result ≡ held_slot (Some held) }
{
    match held {
        Held::Kept { slot } | Held::Torn { slot } => Some(slot),
        Held::Lost => None,
    }
}
