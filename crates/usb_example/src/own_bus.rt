//! The host over a bus of one's own: one that counts what goes over a simulated bus, with a device
//! that keeps the host waiting.
use crate::counted::CountedBus;
use crate::settle;
use anyhow::Result;
use usb_bus::Bus;
use usb_host::Host;
use usb_plan::read_plan;
use usb_sim::SimBus;

/// A device that answers NAK twice at the begin of each control transfer, and a damage: the ACK of attempt 1 is lost.
const WORLD: &str = r#"
limit = 10000
roots = 1
[[device]]
name = "slow"
speed = "full"
descriptor = "120100020000004034127856000100000001"
configs = ["0902120001010080320904000000FF000000"]
naks = 2
[[event]]
do = "plug"
path = "1"
device = "slow"
[[damage]]
attempt = 1
packet = 3
how = "lose"
"#;

/// Enumerates the device over the bus that counts, and prints the counts.
pub fn show(rt: &HostRuntime) -> Result<()> {
    let mut bus = SimBus::untraced(rt.alloc(), &read_plan(rt.alloc(), WORLD)?)?;
    bus.apply_next_event()?;
    count(rt, &mut Host::new(rt.alloc(), CountedBus::new(bus)))
}

/// Lets the host find what is plugged, and prints what went over its bus.
fn count<B: Bus>(rt: &impl Print, host: &mut Host<CountedBus<B>>) -> Result<()> {
    settle(host)?;
    let devices = host.tree()?.entries().len();
    println!(rt; "{devices} device, {}", host.bus().counts())?;
    Ok(())
}
