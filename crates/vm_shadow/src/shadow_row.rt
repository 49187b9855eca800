// What stands under a shadow.

use vm_base::ObjectId;

/// What stands under a shadow: the object that it was made over, and where. Young's thesis (1989)
/// calls that its backing object.
#[derive(Clone, Copy, Debug, PartialEq, Eq)]
pub struct ShadowRow {
    /// The backing object of the shadow.
    pub under: ObjectId,
    /// The page of the backing object that the shadow's page 0 is over.
    pub shift: u32,
}
