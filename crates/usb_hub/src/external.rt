//! The ports of a hub, asked of the hub (11.24.2).
ghost use Rattle.std.specs.Prelude.{◌≢◌, ◌≡◌, true};
ghost use Rattle.usb_transfer.specs.Transactions.{IsTarget};
ghost use Rattle.usb_port.specs.Status.{status_in};
ghost use Rattle.usb_request.specs.declared.feature.TheConstants.{PORT_RESET};
ghost use Rattle.usb_request.specs.Requests.{get_port_status, set_port_feature as set_feature, clear_port_feature as clear_feature};
ghost use Rattle.usb_transfer.specs.Control.{BusToldIt, control_bound, write_bound};
ghost use Rattle.usb_transfer.specs.Uses.{UsesBus};
ghost use Rattle.usb_bus.specs.Traces.{Steps};
ghost use Rattle.usb_hub.specs.Ownership.{KeepsAddresses};
ghost use Rattle.usb_hub.specs.Addresses.{KeepsDevices};
ghost use Rattle.usb_hub.specs.Requests.{ReadAs, Commanded};

use crate::PortStatus;
use crate::asking::{ask_all, order};
use std::alloc::Global;
use usb_transfer::{Bus, PipeFault, Setup, Target};

/// The status of a hub's port, by its number from 1 (11.24.2.7).
///
/// # Errors
///
/// - `Stalled`: the hub refused the request, or its answer is not four bytes long.
/// - `Busy`, `NoAnswer`: a transaction ended so ([`PipeFault`]).
/// - `Memory`: the answer's bytes find no room.
/// - `Bus`: the bus has failed.
pub fn hub_port_status<B: Bus>(
    alloc: Global,
    bus: &mut B,
    hub: Target,
    port: u8,
) -> Result<PortStatus, PipeFault>
    requires { IsTarget hub }
    ensures uses { UsesBus B.modelled (Steps B.world B.trace) B.spent B.ports B.failed
        (control_bound hub.max 4) (BusToldIt result) bus.old bus.new }
    ensures told { B.modelled ≡ true → ReadAs status_in hub (get_port_status port)
        (B.world bus.old) result (B.world bus.new) }
    ensures keeps { B.modelled ≡ true → KeepsAddresses (B.world bus.old) (B.world bus.new) }
    ensures devices { B.modelled ≡ true → KeepsDevices (B.world bus.old) (B.world bus.new) }
{
    let bytes = ask_all(alloc, bus, hub, Setup::get_port_status(port))?;
    Ok(PortStatus::from_bytes(bytes))
}

/// Sets a feature of a hub's port (11.24.2.13).
///
/// # Errors
///
/// - `Stalled`: the device refused the request.
/// - `Busy`, `NoAnswer`: a transaction ended so ([`PipeFault`]). The feature may be set.
/// - `Bus`: the bus has failed.
#[tactic(auto, using(crate::proofs::AddressesKept::set_keeps, crate::proofs::Devices::set_stays))]
pub fn set_hub_port<B: Bus>(
    bus: &mut B,
    hub: Target,
    port: u8,
    feature: u16,
) -> Result<(), PipeFault>
    requires { IsTarget hub }
    ensures uses { UsesBus B.modelled (Steps B.world B.trace) B.spent B.ports B.failed
        write_bound (BusToldIt result) bus.old bus.new }
    ensures ordered { B.modelled ≡ true → Commanded hub (set_feature feature port)
        (B.world bus.old) result (B.world bus.new) }
    ensures keeps { B.modelled ≡ true
        → feature ≢ PORT_RESET → KeepsAddresses (B.world bus.old) (B.world bus.new) }
    ensures devices { B.modelled ≡ true
        → feature ≢ PORT_RESET → KeepsDevices (B.world bus.old) (B.world bus.new) }
{
    order(bus, hub, Setup::set_port_feature(feature, port))
}

/// Clears a feature of a hub's port (11.24.2.2).
///
/// # Errors
///
/// - `Stalled`: the device refused the request.
/// - `Busy`, `NoAnswer`: a transaction ended so ([`PipeFault`]). The feature may be cleared.
/// - `Bus`: the bus has failed.
#[tactic(auto, using(crate::proofs::AddressesKept::cleared_keeps, crate::proofs::Devices::clear_feature_keeps))]
pub fn clear_hub_port<B: Bus>(
    bus: &mut B,
    hub: Target,
    port: u8,
    feature: u16,
) -> Result<(), PipeFault>
    requires { IsTarget hub }
    ensures uses { UsesBus B.modelled (Steps B.world B.trace) B.spent B.ports B.failed
        write_bound (BusToldIt result) bus.old bus.new }
    ensures ordered { B.modelled ≡ true → Commanded hub (clear_feature feature port)
        (B.world bus.old) result (B.world bus.new) }
    ensures keeps { B.modelled ≡ true → KeepsAddresses (B.world bus.old) (B.world bus.new) }
    ensures devices { B.modelled ≡ true → KeepsDevices (B.world bus.old) (B.world bus.new) }
{
    order(bus, hub, Setup::clear_port_feature(feature, port))
}
