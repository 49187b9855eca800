// That the calls succeed where memory is ample.
ghost use Rattle.std.specs.Prelude.{◌≡◌, length};

use crate::shows::{leave, shows};
use sms_pages::{PageDirectory, Replies, Reply};
use vm_base::{Access, HostId, NoMemory, PageBytes, PageSize};

// The host and the first byte of a supply that is the only reply.
fn supplied(mut replies: Replies) -> Option<(u32, u8)> {
    match replies.take_first() {
        Some(Reply::Supply { host, bytes, .. }) => match bytes.as_slice().first() {
            Some(byte) => Some((host.0, *byte)),
            None => None,
        },
        _ => None,
    }
}

// What comes of a store's request of host 0, of its return of a page that begins with a 5, and of a load's request of host 1.
fn handed_on(page: &PageBytes, directory: &mut PageDirectory) -> Result<Option<(u32, u8)>, NoMemory>
    requires { length page.now ≡ length directory.old.bytes }
{
    let _ = directory.request(HostId(0), Access::Store)?;
    let _ = directory.returned(HostId(0), false, page)?;
    Ok(supplied(directory.request(HostId(1), Access::Load)?))
}

#[test]
fn one_writer_then_a_reader(rt: HostRuntime) -> Result<(), NoMemory> {
    let Some(size) = PageSize::of(16) else {
        return Err(NoMemory);
    };
    let mut page = PageBytes::zero(rt.alloc(), size)?;
    page.put(0, 1, 5);
    let mut directory = PageDirectory::new(rt.alloc(), size)?;
    shows(&rt, handed_on(&page, &mut directory) == Ok(Some((1, 5))));
    leave(directory);
    Ok(())
}
