// An access that is run.
ghost use Rattle.std.specs.Prelude.{◌≡◌, ◌%◌, ◌<◌, true, false};
ghost use Rattle.vm_base.specs.Pages.{IsPageSize};
ghost use Rattle.vm_fault.specs.Faults.{HasNext, goes_on, want_after};
ghost use Rattle.vm_fault.specs.Walks.{is_copying, is_storing};
ghost use Rattle.vm_frames.specs.Frames.{free};
ghost use Rattle.vm_waits.specs.Wants.{IsSizedWant, address_in, need_in, with_page_done};

use crate::step::FaultStep;
use vm_base::{Access, HostId, PageKey, PageSize, TaskId};
use vm_parts::HostParts;
use vm_waits::Want;

// An access: whose it is, what it is to do, whether it may claim a frame, the page that it is about,
// in the top object of its region, and where in that page.
#[derive(Clone, Copy, Debug)]
pub struct Running {
    pub host: HostId,
    pub task: TaskId,
    pub want: Want,
    pub may_claim: bool,
    pub top: PageKey,
    pub at: u32,
}

// The address that an access is about now.
pub fn address_of(want: Want, size: PageSize) -> u64
    requires { IsSizedWant size want }
    ensures { result ≡ address_in size want }
{
    match want {
        Want::Load { address, .. } | Want::Store { address, .. } => address,
        Want::CopyTo { address, next, .. } => address + u64::from(next) * u64::from(size.bytes()),
    }
}

// What it needs of its entry.
pub fn need_of(want: Want) -> Access
    ensures { result ≡ need_in want }
{
    match want {
        Want::Load { .. } | Want::CopyTo { .. } => Access::Load,
        Want::Store { .. } => Access::Store,
    }
}

// Whether it is a store.
pub fn is_store(want: Want) -> bool
    ensures { result ≡ is_storing want }
{
    match want {
        Want::Load { .. } | Want::CopyTo { .. } => false,
        Want::Store { .. } => true,
    }
}

// Whether it is a slow copy.
pub fn is_copy(want: Want) -> bool
    ensures { result ≡ is_copying want }
{
    match want {
        Want::Load { .. } | Want::Store { .. } => false,
        Want::CopyTo { .. } => true,
    }
}

// Whether a slow copy that has come to this goes on with the page behind its next one.
pub fn is_to_go_on(step: FaultStep, want: Want) -> bool
    requires { HasNext want }
    ensures { result ≡ goes_on step want }
{
    match step {
        FaultStep::Done { value: _ } => match want {
            Want::Load { .. } | Want::Store { .. } => false,
            Want::CopyTo { pages, next, .. } => next + 1 < pages,
        },
        FaultStep::Ask { key: _ }
        | FaultStep::Unlock { key: _ }
        | FaultStep::WaitReady { object: _ }
        | FaultStep::WaitAnswer { key: _ }
        | FaultStep::NeedFrame { source: _ } => false,
    }
}

// What is left to do then.
pub fn left_after(step: FaultStep, want: Want) -> Want
    requires { HasNext want }
    ensures { result ≡ want_after step want }
{
    match step {
        FaultStep::Done { value: _ } => page_done(want),
        FaultStep::Ask { key: _ }
        | FaultStep::Unlock { key: _ }
        | FaultStep::WaitReady { object: _ }
        | FaultStep::WaitAnswer { key: _ }
        | FaultStep::NeedFrame { source: _ } => want,
    }
}

// What is left to do once the next page of a slow copy is copied.
fn page_done(want: Want) -> Want
    requires { HasNext want }
    ensures { result ≡ with_page_done want }
{
    match want {
        Want::Load { .. } | Want::Store { .. } => want,
        Want::CopyTo {
            address,
            pages,
            target,
            next,
        } => Want::CopyTo {
            address,
            pages,
            target,
            next: next + 1,
        },
    }
}

// Where an address lies in its page.
pub fn offset_of(address: u64, size: PageSize) -> u32
    ensures value { result ≡ address % size }
    ensures size { IsPageSize size }
{
    (address % u64::from(size.bytes())) as u32
}

// Whether a frame is free, and may be claimed.
pub fn has_frame(may_claim: bool, parts: &HostParts) -> bool
    ensures some { result ≡ true → (may_claim ≡ true) × (0 < free parts.now.frames) }
    ensures none { result ≡ false → may_claim ≡ true → free parts.now.frames ≡ 0 }
{
    may_claim && parts.frames.free() > 0
}
