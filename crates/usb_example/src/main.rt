//! A first program over the library: a world with one device in it, a host that finds the device,
//! and bytes to it and from it. Then the same host over a bus of one's own.
//!
//! # What is proved
//!
//! `CountedBus` meets `trait Bus` around any bus, with that one's world and trace. It counts each
//! attempt that was made by its answer (`counts_behind`).
#![tactic(auto)]

mod counted;
mod own_bus;

ghost use Rattle.std.specs.Prelude.{◌≡◌, true, None, OnOk};

use anyhow::Result;
use std::str;
use usb_bus::Bus;
use usb_enum::Finding;
use usb_host::{Host, HostFault, PortPath, Round};
use usb_plan::read_plan;
use usb_sim::{SimBus, Untraced};

/// The world, as a plan: one root port, and a device that is plugged there. Of its 32 bytes of configuration the last
/// 14 are a bulk IN and a bulk OUT endpoint. `source` is what the IN endpoint gives.
const WORLD: &str = r#"
limit = 10000
roots = 1
[[device]]
name = "stick"
speed = "full"
descriptor = "120100020000004034127856000100000001"
configs = ["0902200001010080640904000002080650000705810240000007050202400000"]
source = "48656C6C6F2C20686F7374"
[[event]]
do = "plug"
path = "1"
device = "stick"
"#;

/// Enumerates one device of a plan, and prints what it is. Then it counts what goes over a bus.
fn main(rt: HostRuntime) -> Result<()> {
    let mut bus = SimBus::untraced(rt.alloc(), &read_plan(rt.alloc(), WORLD)?)?;
    // The first event of the plan: the device is plugged.
    bus.apply_next_event()?;
    visit(&rt, &mut Host::new(rt.alloc(), bus))?;
    // The same host over a bus of one's own.
    own_bus::show(&rt)
}

/// Lets the host find the device, and meets it.
fn visit(rt: &impl Print, host: &mut Host<SimBus<Untraced>>) -> Result<()> {
    settle(host)?;
    for (path, finding) in host.tree()?.entries() {
        meet(rt, host, path, finding)?;
    }
    println!(rt; "{} attempts", host.bus().attempts())?;
    Ok(())
}

/// Says what was found at a port, and talks to the device that was accepted there.
fn meet<B: Bus>(
    rt: &impl Print,
    host: &mut Host<B>,
    path: &PortPath,
    finding: &Finding,
) -> Result<()> {
    let port = path.text();
    match finding {
        Finding::Refused(cause) => println!(rt; "port {port}: refused, {cause}")?,
        Finding::Device(device) => {
            let address = device.address.number();
            println!(rt; "port {port}: a device at address {address}")?;
            talk(rt, host, path)?;
        }
    }
    Ok(())
}

/// Sends bytes to the device's bulk OUT endpoint, and prints a packet of its bulk IN endpoint.
fn talk<B: Bus>(rt: &impl Print, host: &mut Host<B>, path: &PortPath) -> Result<()> {
    host.send(path, b"Hello, device")?;
    let bytes = host.receive(path, 1)?;
    println!(rt; "it says: {}", str::from_utf8(bytes.as_slice())?)?;
    Ok(())
}

/// Lets the host work until a round finds nothing more to do. It takes a few rounds; the count is there for the proof
/// that this ends.
fn settle<B: Bus>(host: &mut Host<B>) -> Result<(), HostFault>
    // The bus still works, if it did.
    ensures { B.modelled ≡ true
        → OnOk result (host.old.world.fault ≡ None → host.new.world.fault ≡ None) }
{
    'rounds: for _ in 0..1000 {
        if host.round()? == Round::Quiet {
            break;
        }
    }
    Ok(())
}
