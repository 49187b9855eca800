// Pages for the tests.
ghost use Rattle.std.specs.Prelude.{◌≡◌, IfOk, length};

use std::alloc::Global;
use vm_base::{NoMemory, PageBytes, PageSize};

/// A page of 16 bytes that begins with this byte; the rest is zeros.
pub fn page(alloc: Global, first: u8) -> Result<PageBytes, NoMemory>
    ensures { IfOk result (λ page. length page ≡ 16) }
{
    let Some(size) = PageSize::of(16) else {
        return Err(NoMemory);
    };
    let mut page = PageBytes::zero(alloc, size)?;
    page.fill(&[first]);
    Ok(page)
}
