//! Changes of a hub and of its ports that ask for nothing but their clearing (11.24.2). A hub that
//! does not know such a feature answers STALL, and has no such change.
ghost use Rattle.std.specs.Prelude.{◌+◌, ◌*◌, ◌≡◌, true, IfErr};
ghost use Rattle.usb_transfer.specs.Transactions.{IsTarget};
ghost use Rattle.usb_transfer.specs.Control.{BusToldIt, FaultAfter, control_bound, write_bound};
ghost use Rattle.usb_transfer.specs.Uses.{UsesBus};
ghost use Rattle.usb_bus.specs.Traces.{Steps};
ghost use Rattle.usb_hub.specs.Ownership.{KeepsAddresses};
ghost use Rattle.usb_hub.specs.Addresses.{KeepsDevices};
ghost use Rattle.usb_request.specs.HubRequests.{get_hub_status};
ghost use Rattle.usb_hub.specs.Changes.{ClearsEach, ClearsOfHub, ClearsOfPort, ClearsIfReported, ToldBus, done_or_unknown, hub_status};
ghost use Rattle.usb_hub.specs.Port.{IsAsked, order_bound};
ghost use Rattle.usb_hub.specs.Requests.{ReadAs};

use crate::asking::{ask_all, order};
use crate::external::clear_hub_port;
use crate::status::HubStatus;
use crate::{HubPort, PipeFault};
use std::alloc::Global;
use usb_request::hub_feature::{C_HUB_LOCAL_POWER, C_HUB_OVER_CURRENT};
use usb_transfer::{Bus, Setup, Target};

/// Clears C_PORT_SUSPEND or C_PORT_OVER_CURRENT of a hub's port (11.24.2.2). A root port reports
/// neither.
///
/// # Errors
///
/// A STALL counts as done.
///
/// - `Busy`, `NoAnswer`: a transaction ended so ([`PipeFault`]). The change may be cleared.
/// - `Bus`: the bus has failed.
pub fn clear_port_change<B: Bus>(bus: &mut B, port: HubPort, feature: u16) -> Result<(), PipeFault>
    requires { IsAsked B.modelled (B.world bus.old) port }
    ensures uses { UsesBus B.modelled (Steps B.world B.trace) B.spent B.ports B.failed
        (order_bound port) (BusToldIt result) bus.old bus.new }
    ensures fault { B.modelled ≡ true
        → IfErr result (λ fault. FaultAfter 1 (B.world bus.old) fault (B.world bus.new)) }
    ensures addresses { B.modelled ≡ true → KeepsAddresses (B.world bus.old) (B.world bus.new) }
    ensures devices { B.modelled ≡ true → KeepsDevices (B.world bus.old) (B.world bus.new) }
    ensures cleared { B.modelled ≡ true
        → ClearsOfPort port feature (B.world bus.old) result (B.world bus.new) }
{
    match port {
        HubPort::Root(_) => Ok(()),
        HubPort::External { hub, port } => {
            let cleared = clear_hub_port(bus, hub, port, feature);
            done_or_unknown(cleared)
        }
    }
}

/// Asks a hub for its own status (11.24.2.6), and clears each change that it reports (11.24.2.1).
///
/// # Errors
///
/// A STALL of a clearing counts as done.
///
/// - `Stalled`: the hub refused to give its status, which each has to give (11.24.2.6), or gave one
///   that is not four bytes long.
/// - `Busy`, `NoAnswer`: a transaction ended so ([`PipeFault`]).
/// - `Memory`: the status finds no room.
/// - `Bus`: the bus has failed.
#[tactic(auto, using(crate::proofs::TransferSequences::keeps_then, usb_bus::proofs::Interface::went_wider))]
pub fn clear_hub_changes<B: Bus>(alloc: Global, bus: &mut B, hub: Target) -> Result<(), PipeFault>
    requires { IsTarget hub }
    ensures uses { UsesBus B.modelled (Steps B.world B.trace) B.spent B.ports B.failed
        (control_bound hub.max 4 + 2 * write_bound) (BusToldIt result) bus.old bus.new }
    ensures fault { B.modelled ≡ true → ToldBus result (B.world bus.new) }
    ensures addresses { B.modelled ≡ true → KeepsAddresses (B.world bus.old) (B.world bus.new) }
    ensures cleared { B.modelled ≡ true
        → ClearsOfHub hub (B.world bus.old) result (B.world bus.new) }
{
    match own_status(alloc, bus, hub) {
        Ok(status) => clear_each(bus, hub, status),
        Err(fault) => Err(fault),
    }
}

/// The status of a hub itself (11.24.2.6).
fn own_status<B: Bus>(alloc: Global, bus: &mut B, hub: Target) -> Result<HubStatus, PipeFault>
    requires { IsTarget hub }
    ensures uses { UsesBus B.modelled (Steps B.world B.trace) B.spent B.ports B.failed
        (control_bound hub.max 4) (BusToldIt result) bus.old bus.new }
    ensures told { B.modelled ≡ true
        → ReadAs hub_status hub get_hub_status (B.world bus.old) result (B.world bus.new) }
    ensures addresses { B.modelled ≡ true → KeepsAddresses (B.world bus.old) (B.world bus.new) }
{
    let bytes = ask_all(alloc, bus, hub, Setup::get_hub_status())?;
    Ok(HubStatus::from_bytes(bytes))
}

/// Clears each change that a hub reported of itself (11.24.2.1).
#[tactic(auto, using(crate::proofs::TransferSequences::keeps_then, usb_bus::proofs::Interface::went_wider))]
fn clear_each<B: Bus>(bus: &mut B, hub: Target, status: HubStatus) -> Result<(), PipeFault>
    requires { IsTarget hub }
    ensures uses { UsesBus B.modelled (Steps B.world B.trace) B.spent B.ports B.failed
        (2 * write_bound) (BusToldIt result) bus.old bus.new }
    ensures fault { B.modelled ≡ true → ToldBus result (B.world bus.new) }
    ensures addresses { B.modelled ≡ true → KeepsAddresses (B.world bus.old) (B.world bus.new) }
    ensures cleared { B.modelled ≡ true
        → ClearsEach status hub (B.world bus.old) result (B.world bus.new) }
{
    clear_told(bus, hub, status.power_changed, C_HUB_LOCAL_POWER)?;
    clear_told(bus, hub, status.over_current_changed, C_HUB_OVER_CURRENT)
}

/// Clears a change of a hub if it was reported (11.24.2.1).
#[tactic(auto, using(crate::proofs::TransferSequences::keeps_none, usb_bus::proofs::Interface::went_wider, usb_bus::proofs::Interface::went_none))]
fn clear_told<B: Bus>(bus: &mut B, hub: Target, told: bool, feature: u16) -> Result<(), PipeFault>
    requires { IsTarget hub }
    ensures uses { UsesBus B.modelled (Steps B.world B.trace) B.spent B.ports B.failed
        write_bound (BusToldIt result) bus.old bus.new }
    ensures fault { B.modelled ≡ true → ToldBus result (B.world bus.new) }
    ensures addresses { B.modelled ≡ true → KeepsAddresses (B.world bus.old) (B.world bus.new) }
    ensures cleared { B.modelled ≡ true
        → ClearsIfReported told hub feature (B.world bus.old) result (B.world bus.new) }
{
    if !told {
        return Ok(());
    }
    let cleared = order(bus, hub, Setup::clear_hub_feature(feature));
    done_or_unknown(cleared)
}

/// What is reported of a request that clears a change: a STALL counts as done.
fn done_or_unknown(cleared: Result<(), PipeFault>) -> Result<(), PipeFault>
    ensures { result ≡ done_or_unknown cleared }
{
    match cleared {
        Err(PipeFault::Stalled) => Ok(()),
        Ok(()) | Err(_) => cleared,
    }
}
