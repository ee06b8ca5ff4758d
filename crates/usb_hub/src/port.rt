//! The ports of hubs, the root's among them.
ghost use Rattle.std.specs.Prelude.{IfErr, ◌≡◌, ◌≤◌, true};
ghost use Rattle.usb_port.specs.Calls.{set_call, clear_call, IsSetFeature, IsClearFeature};
ghost use Rattle.usb_bus.specs.Traces.{Steps};
ghost use Rattle.usb_world.specs.Worlds.{IsRootPort};
ghost use Rattle.usb_transfer.specs.Control.{BusToldIt, FaultAfter};
ghost use Rattle.usb_transfer.specs.Uses.{UsesBus};
ghost use Rattle.usb_hub.specs.Addresses.{KeepsAsked, KeepsSet, KeepsCleared};
ghost use Rattle.usb_hub.specs.Moments.{ReadsPort, CommandsPort};
ghost use Rattle.usb_hub.specs.Port.{IsAsked, PortRead, SetSteps, PortSet, PortCleared, status_bound, order_bound};

use crate::external::{clear_hub_port, hub_port_status, set_hub_port};
use crate::{PipeFault, PortStatus};
use std::alloc::Global;
use usb_transfer::{Bus, Target};

/// A port that devices are attached to.
#[derive(Clone, Copy, Debug, PartialEq, Eq)]
pub enum HubPort {
    /// A port of the root, by its number from 1. It is a register of the bus, and never fails
    /// if the bus has it.
    Root(u8),
    /// A port of a hub.
    External {
        /// The hub's endpoint 0.
        hub: Target,
        /// The port's number, 1 to 15.
        port: u8,
    },
}

/// The status of a port (11.24.2.7). `alloc` is for the answer of a hub: a root port needs none.
///
/// # Errors
///
/// - `Stalled`: the bus has no such root port, the hub refused the request, or its answer is not
///   four bytes long.
/// - `Busy`, `NoAnswer`: a transaction ended so ([`PipeFault`]).
/// - `Memory`: the answer's bytes find no room.
/// - `Bus`: the bus has failed.
///
/// A root port that there is has no error.
pub fn port_status<B: Bus>(
    alloc: Global,
    bus: &mut B,
    port: HubPort,
) -> Result<PortStatus, PipeFault>
    requires { IsAsked B.modelled (B.world bus.old) port }
    ensures uses { UsesBus B.modelled (Steps B.world B.trace) B.spent B.ports B.failed
        (status_bound port) (BusToldIt result) bus.old bus.new }
    ensures fault { B.modelled ≡ true
        → IfErr result (λ fault. FaultAfter 1 (B.world bus.old) fault (B.world bus.new)) }
    ensures status { B.modelled ≡ true → PortRead port (B.world bus.old) result (B.world bus.new) }
    ensures told { B.modelled ≡ true → ReadsPort port (B.world bus.old) result (B.world bus.new) }
    ensures addresses { B.modelled ≡ true
        → KeepsAsked port (B.world bus.old) result (B.world bus.new) }
{
    match port {
        HubPort::Root(number) => {
            if !has_root(bus, number) {
                return Err(PipeFault::Stalled);
            }
            Ok(PortStatus::from_bytes(bus.root_status(number)))
        }
        HubPort::External { hub, port } => hub_port_status(alloc, bus, hub, port),
    }
}

/// Sets a feature of a port (11.24.2.13): PORT_RESET or PORT_POWER.
///
/// # Errors
///
/// - `Stalled`: the bus has no such root port, or the hub refused the request.
/// - `Busy`, `NoAnswer`: a transaction ended so ([`PipeFault`]). The feature may be set.
/// - `Bus`: the bus has failed.
///
/// A root port that there is has no error.
#[tactic(auto, using(crate::proofs::AddressesKept::root_set_keeps, crate::proofs::AddressesKept::hub_set_keeps))]
pub fn set_port<B: Bus>(bus: &mut B, port: HubPort, feature: u16) -> Result<(), PipeFault>
    requires port { IsAsked B.modelled (B.world bus.old) port }
    requires named { IsSetFeature feature }
    // PORT_POWER of a root port may set its C_PORT_CONNECTION.
    ensures uses { UsesBus B.modelled (SetSteps B.world B.trace port feature)
        B.spent B.ports B.failed (order_bound port) (BusToldIt result) bus.old bus.new }
    ensures fault { B.modelled ≡ true
        → IfErr result (λ fault. FaultAfter 1 (B.world bus.old) fault (B.world bus.new)) }
    ensures effect { B.modelled ≡ true
        → PortSet port feature (B.world bus.old) result (B.world bus.new) }
    ensures addresses { B.modelled ≡ true
        → KeepsSet port feature (B.world bus.old) (B.world bus.new) }
    ensures ports { B.modelled ≡ true
        → CommandsPort port (set_call feature) (B.world bus.old) result (B.world bus.new) }
{
    match port {
        HubPort::Root(number) => {
            if !has_root(bus, number) {
                return Err(PipeFault::Stalled);
            }
            bus.root_set(number, feature);
            Ok(())
        }
        HubPort::External { hub, port } => set_hub_port(bus, hub, port, feature),
    }
}

/// Clears a feature of a port (11.24.2.2): PORT_ENABLE, PORT_POWER or a change bit.
///
/// # Errors
///
/// - `Stalled`: the bus has no such root port, or the hub refused the request.
/// - `Busy`, `NoAnswer`: a transaction ended so ([`PipeFault`]). The feature may be cleared.
/// - `Bus`: the bus has failed.
///
/// A root port that there is has no error.
#[tactic(auto, using(crate::proofs::AddressesKept::hub_clear_keeps))]
pub fn clear_port<B: Bus>(bus: &mut B, port: HubPort, feature: u16) -> Result<(), PipeFault>
    requires port { IsAsked B.modelled (B.world bus.old) port }
    requires named { IsClearFeature feature }
    ensures uses { UsesBus B.modelled (Steps B.world B.trace) B.spent B.ports B.failed
        (order_bound port) (BusToldIt result) bus.old bus.new }
    ensures fault { B.modelled ≡ true
        → IfErr result (λ fault. FaultAfter 1 (B.world bus.old) fault (B.world bus.new)) }
    ensures effect { B.modelled ≡ true
        → PortCleared port feature (B.world bus.old) result (B.world bus.new) }
    ensures addresses { B.modelled ≡ true
        → KeepsCleared port feature (B.world bus.old) result (B.world bus.new) }
    ensures ports { B.modelled ≡ true
        → CommandsPort port (clear_call feature) (B.world bus.old) result (B.world bus.new) }
{
    match port {
        HubPort::Root(number) => {
            if !has_root(bus, number) {
                return Err(PipeFault::Stalled);
            }
            bus.root_clear(number, feature);
            Ok(())
        }
        HubPort::External { hub, port } => clear_hub_port(bus, hub, port, feature),
    }
}

/// Whether a bus has the root port of a number. A call at another one is none of the bus's.
pub fn has_root<B: Bus>(bus: &B, number: u8) -> bool
    ensures there { result ≡ true → (1 ≤ number) × (number ≤ B.ports bus.now) }
    ensures known { B.modelled ≡ true → IsRootPort (B.world bus.now) number → result ≡ true }
{
    1 <= number && number <= bus.root_ports()
}
