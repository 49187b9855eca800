// Two channels, worked out by hand.
ghost use Rattle.std.specs.Prelude.{◌≡◌, ◌≤◌, IfOk};

use crate::shows::shows;
use std::alloc::Global;
use std::test::Fail;
use vm_base::ChannelId;
use vm_ports::Ports;

const UP: ChannelId = ChannelId(0);

const DOWN: ChannelId = ChannelId(1);

// Undelivered: up 10, down 20.
fn crossing(alloc: Global) -> Result<Ports<u32>, Fail>
    ensures { IfOk result (λ ports. ports.channels ≡ 2) }
{
    let mut ports = Ports::new(alloc);
    ports.reserve(2, 2)?;
    let up = ports.add_channel()?;
    let down = ports.add_channel()?;
    ports.send_spare(up, 10u32);
    ports.send_spare(down, 20);
    Ok(ports)
}

#[test]
fn taken(rt: HostRuntime) -> Result<(), Fail> {
    let mut ports = crossing(rt.alloc())?;
    shows(&rt, ports.oldest() == Some(UP));
    shows(&rt, ports.head(DOWN).copied() == Some(20));
    shows(&rt, ports.take(UP) == Some(10));
    shows(&rt, ports.take(UP) == None);
    shows(&rt, ports.oldest() == Some(DOWN));
    Ok(())
}

#[test]
fn sent(rt: HostRuntime) -> Result<(), Fail> {
    let mut ports = crossing(rt.alloc())?;
    shows(&rt, ports.send(UP, 11).is_ok());
    shows(&rt, ports.undelivered() == 3);
    shows(&rt, ports.nodes().len() == 3 && ports.first().is_some());
    Ok(())
}
