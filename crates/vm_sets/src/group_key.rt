// Groups of 64 pages of an object.
ghost use Rattle.std.specs.Prelude.{◌≡◌, ◌+◌, ◌*◌, ◌<◌, ◌/◌, ◌^◌};
ghost use Rattle.std.specs.Cmp.Rules.{hashing};
ghost use Rattle.std.specs.Hash as fed;
ghost use Rattle.std.proofs.Common.{rules};

use std::hash::{Hash, Hasher};
use vm_base::{ObjectId, PageKey, joined};

/// A group of 64 pages of an object: those whose number divided by 64 is `group`.
#[derive(Clone, Copy, PartialEq, Eq)]
pub struct GroupKey {
    pub object: ObjectId,
    pub group: u32,
}

// Both numbers are hashed at once, as those of a page are.
impl Hash for GroupKey {
    ghost hash_input = { λ key. fed.u64 (2 ^ 32 * key.object.0 + key.group) };

    ghost respects_eq = { Prim.search (hashing, rules) };

    fn hash<H: Hasher>(&self, state: &mut H) {
        state.write_u64(joined(self.object.0, self.group));
    }
}

/// The group of a page.
pub fn group_of(key: PageKey) -> GroupKey
    ensures object { result.object ≡ key.object }
    ensures group { result.group ≡ key.page.0 / 64 }
    ensures low { result.group < 2 ^ 26 }
{
    GroupKey {
        object: key.object,
        group: key.page.0 / 64,
    }
}
