//! What a kernel's tables say of a history, and how that goes on from event to event.
#![tactic(auto)]

ghost use Rattle.std.specs.Prelude.{ℕ, Bool, false, true, Some, ◌<◌, ◌≡◌, ◌≤◌};
ghost use Rattle.vm_base.specs.declared.ids.PageKey.{PageKey};
ghost use Rattle.vm_fault.specs.Walks.{PassesOver, WalksTo};
ghost use Rattle.vm_legal.specs.Walks.{Reaches};
ghost use Rattle.vm_model.specs.declared.script.Header.{Header};
ghost use Rattle.vm_model.specs.Named.{named};
ghost use Rattle.vm_model.specs.Regions.{Backing, Region};
ghost use Rattle.vm_objects.specs.Objects.{ObjectTable};
ghost use Rattle.vm_parts.specs.declared.parts.HostParts.{HostParts};
ghost use Rattle.vm_shadow.specs.Chains.{ChainTable, IsRanked, region_at, shadow_at};
ghost use Rattle.vm_shadow.specs.declared.ids.Ids.{Ids};
ghost use Rattle.vm_shadow.specs.declared.region_row.RegionRow.{RegionRow};
ghost use Rattle.vm_shadow.specs.declared.shadow_row.ShadowRow.{ShadowRow};
ghost use Rattle.vm_terminate.specs.Finishes.{IsReferred};
ghost use Rattle.vm_state.specs.Stands.{HasKinds, HasRegions};

/// The objects to which something refers are those in the chains of the regions in use: what ends is found by
/// counting references, and by no look through regions. A declared object may be referred to by its cache flag alone.
#[tactic(auto, using(crate::proofs::Chains::leads_up, crate::proofs::Chains::leads_down))]
pub fn references_are_chains()
    ensures up { (header : Header) (chains : ChainTable) (objects : ObjectTable) (ids : Ids) (region_from : ℕ → Region) (backing_from : ℕ → Backing)
        (regions_made objects_made marked : ℕ) → HasRegions chains objects ids region_from backing_from regions_made objects_made marked
        → HasKinds header objects chains → ((o : ℕ) → o < named header → (backing_from o).backed ≡ false) → IsRanked chains
        → ((s : ℕ) (row : ShadowRow) → shadow_at chains s ≡ Some row → IsReferred objects s) → (used : ℕ → Bool)
        → ((r : ℕ) (row : RegionRow) → region_at chains r ≡ Some row → used r ≡ true) → (o : ℕ) → named header ≤ o → IsReferred objects o
        → Reaches used region_from backing_from o }
    ensures down { (chains : ChainTable) (objects : ObjectTable) (ids : Ids) (region_from : ℕ → Region) (backing_from : ℕ → Backing)
        (regions_made objects_made marked : ℕ) → HasRegions chains objects ids region_from backing_from regions_made objects_made marked → (used : ℕ → Bool)
        → ((r : ℕ) → used r ≡ true → (row : RegionRow) × (region_at chains r ≡ Some row)) → (o : ℕ) → Reaches used region_from backing_from o
        → IsReferred objects o }
{}

/// A walk down a chain stops at one place.
#[tactic(auto, using(crate::proofs::Walks::walk_stops))]
pub fn walks_stop_once()
    ensures { (parts : HostParts) (chains : ChainTable) (n m : ℕ) (top a b : PageKey) → WalksTo parts chains n top a → WalksTo parts chains m top b
        → (PassesOver parts a → ⊥) → (PassesOver parts b → ⊥) → (n ≡ m) × (a ≡ b) }
{}
