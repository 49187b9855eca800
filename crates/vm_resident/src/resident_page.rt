// A page with its row, as contracts list them.
use crate::PageRow;
use vm_base::PageKey;

/// A resident page of an object.
#[derive(Clone, Copy)]
pub struct ResidentPage {
    pub key: PageKey,
    pub row: PageRow,
}
