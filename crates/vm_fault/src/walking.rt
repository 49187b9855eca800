// The walk of an access down its shadow chain.
ghost use Rattle.std.specs.Prelude.{ℕ, ◌≡◌, ◌+◌, ◌<◌, ◌^◌, Some, None, IfSome, IsSome, MatchOption};
ghost use Rattle.vm_fault.specs.Stops.{Stands, Stops};
ghost use Rattle.vm_fault.specs.Walks.{ChainsFit, IsUnder};
ghost use Rattle.vm_shadow.specs.Chains.{height, region_at, shadow_at};

use vm_base::{PageKey, PageNo, RegionId};
use vm_objects::{ObjectRow, PagerState};
use vm_parts::HostParts;
use vm_resident::PageRow;
use vm_shadow::Chains;

// A place of a chain, and what is known of its object.
#[derive(Clone, Copy, Debug)]
pub struct Spot {
    pub key: PageKey,
    pub object: ObjectRow,
}

// Where a walk stops.
#[derive(Clone, Copy, Debug)]
pub enum Stop {
    // The page is here, so many places down.
    Found {
        key: PageKey,
        row: PageRow,
        steps: u32,
    },
    // The page is asked.
    Asked {
        key: PageKey,
    },
    // The pager of the object may have the page.
    MayCome {
        key: PageKey,
        object: ObjectRow,
        steps: u32,
    },
    // The page is nowhere.
    Nowhere,
}

// The place of a region's page in the region's top object.
pub fn top_of(region: RegionId, page: PageNo, parts: &HostParts, chains: &Chains) -> Spot
    requires there { IsSome (region_at chains.now region.0) }
    requires inside { IfSome (region_at chains.now region.0) (λ row. page.0 < row.pages) }
    requires fits { ChainsFit chains.now parts.now.objects }
    ensures stands { Stands parts.now.objects result }
    ensures key { IfSome (region_at chains.now region.0) (λ row. result.key ≡ record { object = row.top; page = record { 0 = row.shift + page.0 } }) }
{
    let Some(row) = chains.region(region) else {
        unreachable!()
    };
    let Some(object) = parts.objects.find(row.top) else {
        unreachable!()
    };
    let key = PageKey {
        object: row.top,
        page: PageNo(row.shift + page.0),
    };
    Spot { key, object }
}

// The place under another; None at the bottom of the chain.
fn under(spot: Spot, parts: &HostParts, chains: &Chains) -> Option<Spot>
    requires stands { Stands parts.now.objects spot }
    requires fits { ChainsFit chains.now parts.now.objects }
    ensures stands { IfSome result (λ next. Stands parts.now.objects next) }
    ensures under { MatchOption result (shadow_at chains.now spot.key.object.0 ≡ None) (λ next. IsUnder chains.now spot.key next.key) }
    ensures falls { IfSome result (λ next. height chains.now next.key.object.0 + 1 ≡ height chains.now spot.key.object.0) }
    ensures few { (o : ℕ) → height chains.now o + 1 < 2 ^ 32 }
{
    let row = chains.backing(spot.key.object)?;
    let Some(object) = parts.objects.find(row.under) else {
        unreachable!()
    };
    let key = PageKey {
        object: row.under,
        page: PageNo(spot.key.page.0 + row.shift),
    };
    Some(Spot { key, object })
}

// Where the walk from a top place stops.
pub fn walk(top: Spot, parts: &HostParts, chains: &Chains) -> Stop
    requires stands { Stands parts.now.objects top }
    requires fits { ChainsFit chains.now parts.now.objects }
    ensures { Stops parts.now chains.now top.key result }
{
    let mut spot = top;
    let mut steps = 0;
    'down: loop {
        let key = spot.key;
        let object = spot.object;
        if let Some(row) = parts.resident.get(key) {
            if row.here {
                return Stop::Found { key, row, steps };
            }
            return Stop::Asked { key };
        }
        if object.state != PagerState::Without && !parts.objects.known_absent(key) {
            return Stop::MayCome { key, object, steps };
        }
        let Some(next) = under(spot, parts, chains) else {
            return Stop::Nowhere;
        };
        spot = next;
        steps += 1;
    }
}
