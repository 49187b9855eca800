// A message with a page, copied.
use crate::shows::shows;
use std::test::Fail;
use vm_base::{Buffers, PageBytes, PageNo, PageSize};
use vm_model::Message;

fn is_supply(message: &Message, first: u8) -> bool {
    match message {
        Message::Supply { page, hex, .. } => page.0 == 3 && hex.as_slice().first() == Some(&first),
        _ => false,
    }
}

#[test]
fn copied(rt: HostRuntime) -> Result<(), Fail> {
    let size = PageSize::of(16).ok_or("no size")?;
    let mut buffers = Buffers::new(rt.alloc(), size);
    buffers.reserve(1)?;
    let mut hex = PageBytes::zero(rt.alloc(), size)?;
    hex.put(0, 1, 7);
    let supply = Message::Supply {
        page: PageNo(3),
        lock: 2,
        precious: true,
        hex,
    };
    shows(&rt, is_supply(&supply.copy(&mut buffers), 7));
    Ok(())
}
