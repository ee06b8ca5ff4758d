//! What the host asks of a hub once it is configured, and the power of its ports (11.23, 11.24).
ghost use Rattle.std.specs.Prelude.{◌≡◌, ◌⊎◌, ◌≤◌, ◌*◌, Bool, IfErr, MatchResult};
ghost use Rattle.usb_request.specs.Codes.{HUB_LENGTH};
ghost use Rattle.usb_port.specs.Path.{IsPortNumber};
ghost use Rattle.usb_descriptor.specs.Hub.{most_ports};
ghost use Rattle.usb_device.specs.{status_length};
ghost use Rattle.usb_transfer.specs.Transactions.{IsTarget};
ghost use Rattle.usb_transfer.specs.Control.{write_bound};
ghost use Rattle.usb_enum.specs.Bounds.{read_bound, hub_bound};
ghost use Rattle.usb_enum.specs.LearnedFacts.{DeviceFact};
ghost use Rattle.usb_enum.specs.Parts.{Answered, Both, Part, Read, StopsHub, StopsPower, StopsStart};
ghost use Rattle.usb_enum.specs.Readings.{Ruled, HasPorts, HasSupply, IsGoodHub};
ghost use Rattle.usb_enum.specs.Device.{CanServe};
ghost use Rattle.usb_enum.specs.Hub.{CountTold, SupplyTold, IsPowered, Powered, Started};
ghost use Rattle.usb_enum.specs.Frames.{OnlyTells};
ghost use Rattle.usb_enum.specs.Stops.{IsHubStop};

use crate::stop::{Stop, answered_or};
use crate::{Cause, ConfigText};
use std::alloc::Global;
use usb_bus::Bus;
use usb_descriptor::read_hub;
use usb_hub::{get_status, hub_descriptor, set_hub_port};
use usb_port::supply;
use usb_request::feature::PORT_POWER;
use usb_transfer::Target;

/// What a hub says of its ports.
#[derive(Clone, Copy, Debug, PartialEq, Eq)]
pub struct HubFacts {
    /// How many ports it has, 1 to 15; to 7 where no wide hubs are taken.
    pub ports: u8,
    /// What each of its ports gives, in mA: 500 where the hub powers itself, else 100 (7.2.1).
    pub supply: u16,
}

/// Reads what a configured hub says of its ports, and gives each of them power, by rising number.
/// A hub that cannot tell of all of them in one packet is bad (11.12.4).
pub(crate) fn start_hub<B: Bus>(
    alloc: Global,
    bus: &mut B,
    target: Target,
    text: &ConfigText,
    wide: bool,
) -> Result<HubFacts, Stop>
    requires target { IsTarget target }
    requires max { 8 ≤ target.max }
    ensures facts { MatchResult result (CanServe wide text.now) IsHubStop }
    ensures part { Part B.modelled B.world B.trace B.spent B.ports B.failed
        (OnlyTells target.addr) hub_bound
        (Answered target (Started target) (λ facts. Ruled (IsGoodHub wide text.now facts)))
        (StopsStart wide target text.now) bus.old result bus.new }
{
    let Some((_, max)) = text.status_endpoint(wide) else {
        return Err(Stop::Refused(Cause::BadHub));
    };
    let ports = port_count(alloc, bus, target, wide)?;
    if max < status_length(ports) {
        return Err(Stop::Refused(Cause::BadHub));
    }
    let supply = port_supply(alloc, bus, target)?;
    power_ports(bus, target, ports)?;
    Ok(HubFacts { ports, supply })
}

/// bNbrPorts of the hub descriptor, 1 to 7; to 15 of a wide hub, where such are taken.
#[tactic(auto, using(usb_transfer::proofs::Interface::bound_wide))]
fn port_count<B: Bus>(alloc: Global, bus: &mut B, target: Target, wide: bool) -> Result<u8, Stop>
    requires target { IsTarget target }
    requires max { 8 ≤ target.max }
    ensures count { MatchResult result
        (λ ports. IsPortNumber ports × (ports ≤ most_ports wide)) IsHubStop }
    ensures read { Read B.modelled B.world B.trace B.spent B.ports B.failed
        (read_bound HUB_LENGTH) (Answered target (CountTold target) (HasPorts wide))
        (StopsHub wide target) bus.old result bus.new }
{
    let bytes = answered_or(Cause::BadHub, hub_descriptor(alloc, bus, target))?;
    match read_hub(bytes.as_slice(), wide) {
        Ok(hub) => Ok(hub.ports()),
        Err(_) => Err(Stop::Refused(Cause::BadHub)),
    }
}

/// How many bytes tell the changes of a hub and of so many ports (11.12.4).
fn status_length(ports: u8) -> u8
    ensures { result ≡ status_length ports }
{
    ports / 8 + 1
}

/// What each port of a hub gives, in mA, by the hub's status.
#[tactic(auto, using(usb_transfer::proofs::Interface::bound_wide, crate::proofs::ports::Hubs::hub_supply))]
fn port_supply<B: Bus>(alloc: Global, bus: &mut B, target: Target) -> Result<u16, Stop>
    requires target { IsTarget target }
    requires max { 8 ≤ target.max }
    ensures said { MatchResult result (λ supply. (supply ≡ 500) ⊎ (supply ≡ 100)) IsHubStop }
    ensures read { (wide : Bool) → Read B.modelled B.world B.trace B.spent B.ports B.failed
        (read_bound 2)
        (Both (SupplyTold target) (λ old new supply. DeviceFact (HasSupply supply) target old new))
        (StopsHub wide target) bus.old result bus.new }
{
    let status = answered_or(Cause::BadHub, get_status(alloc, bus, target))?;
    Ok(supply(false, status.self_powered))
}

/// Gives power to the ports of a hub up to this number.
fn power_ports<B: Bus>(bus: &mut B, target: Target, ports: u8) -> Result<(), Stop>
    requires { IsTarget target }
    ensures stops { IfErr result IsHubStop }
    ensures part { (wide : Bool) → Part B.modelled B.world B.trace B.spent B.ports B.failed
        (OnlyTells target.addr) (ports * write_bound) (λ old new _. Powered target ports old new)
        (StopsPower wide target ports) bus.old result bus.new }
{
    'ports: for before in 0..ports {
        power_port(bus, target, before + 1)?;
    }
    Ok(())
}

/// Gives power to a port of a hub.
fn power_port<B: Bus>(bus: &mut B, target: Target, port: u8) -> Result<(), Stop>
    requires { IsTarget target }
    ensures stops { IfErr result IsHubStop }
    ensures part { (wide : Bool) → Part B.modelled B.world B.trace B.spent B.ports B.failed
        (OnlyTells target.addr) write_bound (λ old new _. IsPowered target port old new)
        (StopsPower wide target port) bus.old result bus.new }
{
    answered_or(Cause::BadHub, set_hub_port(bus, target, port, PORT_POWER))
}
