// Objects are merged into the shadows that stand on them.
ghost use Rattle.std.specs.Prelude.{ℕ, ◌≡◌, ◌+◌, ◌*◌, ◌<◌, ◌≤◌, ◌^◌, length, IfNone, IfSome};
ghost use Rattle.vm_copies.specs.Copies.{CopyTable};
ghost use Rattle.vm_merge.specs.Merges.{CanMerge, IsThinBut, MergeInTurn, MergesInto};
ghost use Rattle.vm_merge.specs.Standing.{CountsFit, MayMerge, merge_state};
ghost use Rattle.vm_parts.specs.Fits.{Fit, object_pages};
ghost use Rattle.vm_parts.specs.Merging.{NoneAsked};
ghost use Rattle.vm_shadow.specs.Chains.{IsOnlyShadow, shadow_at};

use crate::Losers;
use vm_base::ObjectId;
use vm_copies::Copies;
use vm_model::{Event, Events};
use vm_parts::HostParts;
use vm_shadow::Chains;

/// The shadow into which an object can be merged; None where there is none.
pub fn upper_of(
    lower: ObjectId,
    parts: &HostParts,
    chains: &Chains,
    copies: &Copies,
) -> Option<ObjectId>
    requires { CountsFit copies.now chains.now parts.now.objects }
    ensures can { IfSome result (λ upper. CanMerge copies.now chains.now parts.now.objects upper.0 lower.0) }
    ensures none { IfNone result ((upper : ℕ) → CanMerge copies.now chains.now parts.now.objects upper lower.0 → ⊥) }
{
    if copies.is_copy(lower) {
        return None;
    }
    let low = parts.objects.find(lower)?;
    if low.references != 1 || low.control != 0 {
        return None;
    }
    let upper = chains.sole_shadow(lower)?;
    let up = parts.objects.find(upper)?;
    if up.control == 0 { Some(upper) } else { None }
}

/// Merges objects into their shadows until none can be, always the one with the least number. Only
/// losers can be merged, and a merge makes no others that can. It takes no memory.
pub fn merge_losers(
    losers: &mut Losers,
    parts: &mut HostParts,
    chains: &mut Chains,
    copies: &Copies,
    log: &mut Events,
)
    ghost given: { ℕ }
    requires may { MayMerge given parts.old chains.old copies.now }
    requires thin { IsThinBut copies.now losers.old.items chains.old parts.old.objects }
    requires rows { length losers.old.items * given ≤ parts.old.resident.spare }
    requires room { length losers.old.items ≤ log.old.room }
    ensures merges { MergeInTurn (merge_state parts.old chains.old copies.now log.old.items) (merge_state parts.new chains.new copies.now log.new.items) }
    ensures fit { Fit parts.new }
    ensures buffers { parts.new.buffers ≡ parts.old.buffers }
    ensures told { length log.new.items ≤ length log.old.items + length losers.old.items }
    ensures log { log.old.room ≤ log.new.room + length losers.old.items }
    ensures spare { parts.old.resident.spare ≤ parts.new.resident.spare + length losers.old.items * given }
    ensures objects { parts.old.objects.rows ≤ parts.new.objects.rows }
    ensures shadows { chains.old.spare ≤ chains.new.spare }
    ensures marked { chains.new.marked ≡ chains.old.marked }
{
    'losers: while let Some(lower) = losers.pop() {
        if let Some(upper) = upper_of(lower, parts, chains, copies) {
            merge_into(upper, lower, parts, chains, log);
        }
    }
}

// Merges an object into the shadow that is its one reference, and says so.
fn merge_into(
    upper: ObjectId,
    lower: ObjectId,
    parts: &mut HostParts,
    chains: &mut Chains,
    log: &mut Events,
)
    requires fit { Fit parts.old }
    requires can { (copies : CopyTable) × CanMerge copies chains.old parts.old.objects upper.0 lower.0 }
    requires alone { IsOnlyShadow upper.0 lower.0 chains.old }
    requires here { NoneAsked parts.old lower.0 }
    requires shift { IfSome (shadow_at chains.old upper.0) (λ up. IfSome (shadow_at chains.old lower.0) (λ low. up.shift + low.shift < 2 ^ 32)) }
    requires rows { object_pages parts.old.objects lower.0 ≤ parts.old.resident.spare }
    requires room { 0 < log.old.room }
    ensures merges { (copies : CopyTable) → CanMerge copies chains.old parts.old.objects upper.0 lower.0
        → ((u l : ℕ) → CanMerge copies chains.old parts.old.objects u l → lower.0 ≤ l)
        → MergesInto upper lower (merge_state parts.old chains.old copies log.old.items) (merge_state parts.new chains.new copies log.new.items) }
    ensures fit { Fit parts.new }
    ensures buffers { parts.new.buffers ≡ parts.old.buffers }
    ensures log { log.old.room ≤ log.new.room + 1 }
    ensures spare { parts.old.resident.spare ≤ parts.new.resident.spare + object_pages parts.old.objects lower.0 }
    ensures objects { parts.old.objects.rows ≤ parts.new.objects.rows }
    ensures shadows { chains.old.spare ≤ chains.new.spare }
    ensures marked { chains.new.marked ≡ chains.old.marked }
{
    let Some(link) = chains.backing(upper) else {
        unreachable!()
    };
    parts.merge_pages(upper, lower, link.shift);
    chains.merge(upper, lower);
    let _ = parts.objects.unrefer(lower);
    let _ = log.push(Event::Merged { upper, lower });
}
