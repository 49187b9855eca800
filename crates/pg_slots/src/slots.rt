// The slots.
ghost use Rattle.std.specs.Prelude.{ℕ, ◌≡◌, ◌*◌, ◌<◌, ◌≤◌, ◌↔◌, ◌==◌, [], List, None, Some, IfOk, IfSome, MatchOption, OnErr, length, true, if◌then◌else◌};
ghost use Rattle.pg_slots.specs.Calls.{GetMakes, PutMakes};
ghost use Rattle.pg_slots.specs.Contents.{AgreesWithContent, AnswersHeld, CarriesContent, Content, GetHasCause, GivesStored, IsAreaTold, IsGetAnswer};
ghost use Rattle.pg_slots.specs.Contents.{IsWholePage, PutHasCause, PutTold, SlotsFit, after_put, area_name, content_without, same_content};
ghost use Rattle.pg_slots.specs.Kept.{AreGivable, FreesSlots, MayTake, PutsRow, is_taken, room_of, slot_in_map};
ghost use Rattle.pg_slots.specs.Slots.{DropsHeld, GoesTo, HasNoSlot, KeepsShape, PutEffects, held_at, slot_in_table};
ghost use Rattle.vm_base.specs.Limits.{most_hosts, most_slots};
ghost use Rattle.vm_outside.specs.Areas.{SameAreas, Told};

use crate::free_slots::FreeSlots;
use crate::rows::{Pages, Rows};
use crate::slot_row::slot_in;
use crate::{Got, Held, Put};
use std::alloc::Global;
use std::marker::Model;
use vm_base::{HostId, NoMemory, ObjectId, PageBytes, PageKey, PageSize, WriteStop};
use vm_outside::Backing;

/// The paging slots of a host: which page is in which slot. The bytes are in a backing, which each
/// call is handed; slot s is the page of bytes from s times the page size on, of the area `paging0`
/// to `paging7` of the host (this profile).
///
/// Contracts see the host, the page size, the number of slots, and what is held of each page that
/// was put. No two pages have the same slot. What a backing holds is said for each content that
/// slots and backing fit. A page that is lost after a failed write keeps its slot for its next put.
#[derive(Drop)]
pub struct Slots {
    alloc: Global,
    host: HostId,
    size: PageSize,
    rows: Rows,
    free: FreeSlots,
}

impl Model for Slots {
    ghost use Rattle.pg_slots.specs.Kept.{AreSlotRows};
    ghost use Rattle.pg_slots.specs.Slots.{SlotTable};

    ghost Value = { SlotTable };

    ghost view = { λ s. record { host = s.host.0; size = s.size; count = s.free.count; rows = s.rows.rows } };

    ghost invariant = { λ s. AreSlotRows s.host.0 s.rows.rows s.free };
}

impl Slots {
    /// So many slots, all free; it fails for want of memory alone.
    pub fn new(alloc: Global, host: HostId, count: u32, size: PageSize) -> Result<Slots, NoMemory>
        requires host { host.0 < most_hosts }
        requires few { count ≤ most_slots }
        ensures value { IfOk result (λ slots. slots ≡ record { host = host.0; size = size; count = count; rows = [] }) }
        ensures fits { IfOk result (λ slots. (told : List ℕ → Told) → SlotsFit told slots (λ o p. None)) }
    {
        let free = FreeSlots::new(alloc, count)?;
        Ok(Slots {
            alloc,
            host,
            size,
            rows: Rows::new(alloc),
            free,
        })
    }

    /// The host that the slots are of.
    pub fn host(&self) -> HostId
        ensures { result.0 ≡ self.now.host }
    {
        self.host
    }

    /// Stores a page in the slot that it has, or else in the lowest free one. It takes all its
    /// memory before it calls the backing, and calls it at most once; it answers `Failed` exactly
    /// where that call failed. A page that is lost for want of a slot has none; one whose write failed has its slot, and is lost until it is stored.
    pub fn put<P: Backing>(
        &mut self,
        key: PageKey,
        bytes: &PageBytes,
        paging: &mut P,
    ) -> Result<Put, NoMemory>
        requires { length bytes.now ≡ self.old.size }
        ensures held { IfOk result (λ put. PutEffects put key.object.0 key.page.0 self.old self.new) }
        ensures no_slot { IfOk result (λ put. (put ≡ Put.NoSlot) ↔ HasNoSlot self.old key.object.0 key.page.0) }
        ensures shape { KeepsShape self.old self.new }
        ensures err { OnErr result (self.new ≡ self.old) }

        // What the backing tells.
        ensures fits { CarriesContent (P.area paging.old) (P.area paging.new) self.old self.new (after_put result key.object.0 key.page.0 bytes.now) }
        ensures told { PutTold result (P.area paging.old) (P.area paging.new) self.new (slot_in_table self.new key.object.0 key.page.0) bytes.now }
        ensures cause { PutHasCause (P.faults paging.old) (P.faults paging.new) result }
        ensures later { P.later paging.old paging.new }
        ensures unmoved { OnErr result (P.armed paging.new ≡ P.armed paging.old) }
        ensures untouched { result ≡ Ok Put.NoSlot → paging.new ≡ paging.old }
        ensures calls { PutMakes P.called self.old key.object.0 key.page.0 bytes.now result paging.old paging.new }
    {
        let slot = self.slot_for(key);
        self.rows.reserve(key)?;
        let Some(slot) = slot else {
            self.rows.put(key, Held::Lost);
            return Ok(Put::NoSlot);
        };
        match paging.write(area_of(self.host), place(slot, self.size), bytes.as_slice()) {
            Ok(()) => {
                let held = Held::Kept { slot };
                hold(&mut self.rows, &mut self.free, key, held, slot);
                Ok(Put::Kept)
            }
            Err(WriteStop::Failed) => {
                let held = Held::Torn { slot };
                hold(&mut self.rows, &mut self.free, key, held, slot);
                Ok(Put::Failed)
            }
            Err(WriteStop::NoMemory) => Err(NoMemory),
        }
    }

    /// The bytes of a page that were last put. It takes all its memory before it calls the backing,
    /// and calls it at most once; it answers `Failed` exactly where that call failed.
    pub fn get<P: Backing>(&self, key: PageKey, paging: &mut P) -> Result<Got, NoMemory>
        ensures held { IfOk result (λ got. AnswersHeld got (held_at self.now key.object.0 key.page.0)) }
        ensures answers { IfOk result (λ got. (content : Content) → AgreesWithContent self.now content
            → IsGetAnswer got (content key.object.0 key.page.0)) }
        ensures whole { IfOk result (IsWholePage self.now.size) }
        ensures bytes { IfOk result (λ got. (content : Content) → IsAreaTold (P.area paging.old) self.now
            → SlotsFit (P.area paging.old) self.now content → GivesStored got (content key.object.0 key.page.0)) }

        // What the backing tells.
        ensures fits { CarriesContent (P.area paging.old) (P.area paging.new) self.now self.now same_content }
        ensures told { SameAreas (P.area paging.old) (P.area paging.new) }
        ensures cause { GetHasCause (P.faults paging.old) (P.faults paging.new) result }
        ensures later { P.later paging.old paging.new }
        ensures never { result ≡ Ok Got.Never → paging.new ≡ paging.old }
        ensures lost { result ≡ Ok Got.Lost → paging.new ≡ paging.old }
        ensures err { OnErr result (paging.new ≡ paging.old) }
        ensures calls { GetMakes P.called self.now (held_at self.now key.object.0 key.page.0) result paging.old paging.new }
    {
        let slot = match self.rows.held(key) {
            None => return Ok(Got::Never),
            Some(Held::Torn { slot: _ } | Held::Lost) => return Ok(Got::Lost),
            Some(Held::Kept { slot }) => slot,
        };
        let mut bytes = vec![in self.alloc; 0u8; self.size.bytes() as usize]?;
        if paging
            .read(area_of(self.host), place(slot, self.size), &mut bytes)
            .is_err()
        {
            return Ok(Got::Failed);
        }
        Ok(Got::Page {
            bytes: PageBytes::of(bytes),
        })
    }

    /// Frees the slots of an object's pages, and forgets which of them were lost. It takes no
    /// memory.
    pub fn drop_object(&mut self, object: ObjectId)
        ensures held { DropsHeld object.0 self.old self.new }
        ensures fits { (told : List ℕ → Told) (content : Content) → SlotsFit told self.old content
            → SlotsFit told self.new (content_without object.0 content) }
    {
        if let Some(pages) = self.rows.drop_object(object) {
            give_back(pages, &mut self.free);
        }
    }

    // The slot that a put of a page goes to; None where it has none and none is free.
    fn slot_for(&self, key: PageKey) -> Option<u32>
        ensures { MatchOption result (HasNoSlot self.now key.object.0 key.page.0) (GoesTo self.now key.object.0 key.page.0) }
    {
        match self.rows.slot(key) {
            Some(slot) => Some(slot),
            None => self.free.lowest(),
        }
    }
}

// The name of a host's area.
fn area_of(host: HostId) -> &'static str
    requires { host.0 < most_hosts }
    ensures { result.now ≡ area_name host.0 }
{
    match host.0 {
        0 => "paging0",
        1 => "paging1",
        2 => "paging2",
        3 => "paging3",
        4 => "paging4",
        5 => "paging5",
        6 => "paging6",
        _ => "paging7",
    }
}

// Where a slot begins in its area.
fn place(slot: u32, size: PageSize) -> u64
    ensures { result ≡ slot * size }
{
    u64::from(slot) * u64::from(size.bytes())
}

// Holds this of a page with a slot, and takes the slot.
fn hold(rows: &mut Rows, free: &mut FreeSlots, key: PageKey, held: Held, slot: u32)
    requires room { 0 < room_of rows.old key.object.0 }
    requires may { MayTake free.old slot }
    ensures rows { PutsRow key.object.0 key.page.0 held rows.old.rows rows.new.rows }
    ensures count { free.new.count ≡ free.old.count }
    ensures taken { (s : ℕ) → is_taken free.new s ≡ (if slot == s then true else is_taken free.old s) }
{
    rows.put(key, held);
    free.take(slot);
}

// Gives back the slots of pages.
fn give_back(pages: Pages, free: &mut FreeSlots)
    requires { AreGivable (slot_in_map (Some pages)) free.old }
    ensures { FreesSlots (slot_in_map (Some pages)) free.old free.new }
{
    let mut left = pages;
    'all: while let Some((_, held)) = left.pop() {
        if let Some(slot) = slot_in(held) {
            free.give(slot);
        }
    }
}
