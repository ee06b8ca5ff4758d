//! Control transfers (8.5.3).
ghost use Rattle.std.specs.Prelude.{◌≡◌, ◌≤◌, length, IfOk, true};
ghost use Rattle.usb_bus.specs.Traces.{Spends, Steps};
ghost use Rattle.usb_request.specs.Layout.{IsToHost, IsToDevice};
ghost use Rattle.usb_transfer.specs.Transactions.{IsTarget};
ghost use Rattle.usb_transfer.specs.Control.{BusToldIt, control_bound, write_bound};
ghost use Rattle.usb_transfer.specs.Transfers.{ControlRead, ControlWrite, DataWrite};

use crate::packets::send_packets;
use crate::stage::data_stage;
use crate::{Bus, PipeFault, Target, data_in, data_out, setup as send_setup};
use std::alloc::Global;
use usb_packet::Toggle;
use usb_request::Setup;

/// Reads from endpoint 0: a SETUP, a data stage, and an OUT of no bytes with DATA1.
///
/// The request is one whose data go to the host, with a length from 1. The answer holds the bytes
/// that came, at most that length: the data stage ends there or at a packet shorter than the
/// target's maximum, and what came past the length is dropped. Where no address was ever held
/// twice, and the target's maximum is the device's, they are the first bytes of what the device at
/// the target's address answers the request with.
///
/// # Errors
///
/// - `Stalled`, `Busy`, `NoAnswer`: a transaction ended so.
/// - `Memory`: the answer's bytes find no room.
/// - `Bus`: the bus has failed.
///
/// It never returns `Broken`.
#[tactic(auto, using(usb_bus::proofs::Interface::went_wider), unfolding(crate::specs::Control::control_bound))]
pub fn control_in<B: Bus>(
    alloc: Global,
    bus: &mut B,
    target: Target,
    setup: Setup,
) -> Result<Vec<u8>, PipeFault>
    requires target { IsTarget target }
    requires reads { IsToHost setup }
    requires some { 1 ≤ setup.length }
    ensures any_bus { Spends B.spent B.ports (control_bound target.max setup.length) bus.old bus.new
        × BusToldIt result (B.failed bus.new) }
    ensures most { IfOk result (λ bytes. length bytes.items ≤ setup.length) }
    ensures steps { B.modelled ≡ true
        → Steps B.world B.trace (control_bound target.max setup.length) bus.old bus.new }
    ensures transfer { B.modelled ≡ true → ControlRead target setup
        (B.world bus.old) result (B.world bus.new) }
{
    let request = setup.to_bytes();
    send_setup(bus, target, request)?;
    let bytes = data_stage(alloc, bus, target, setup.length)?;
    let mut toggle = Toggle::One;
    data_out(bus, target, 0, &mut toggle, &[])?;
    Ok(bytes)
}

/// Asks endpoint 0 for something that has no data: a SETUP, and an IN that is answered by DATA1.
///
/// The length of the request is 0, whichever way its data would go (9.3.1). Where no address was
/// ever held twice, `Ok` means that the device at the target's address did what was asked; a new
/// address it takes where it saw the last ACK, and else one address loss more is counted.
///
/// # Errors
///
/// - `Stalled`: the device refused the request.
/// - `Busy`, `NoAnswer`: a transaction ended so. The device may have done what was requested.
/// - `Bus`: the bus has failed.
///
/// It never returns `Broken` or `Memory`.
#[tactic(auto, using(usb_bus::proofs::Interface::went_wider))]
pub fn control_none<B: Bus>(bus: &mut B, target: Target, setup: Setup) -> Result<(), PipeFault>
    requires target { IsTarget target }
    requires none { setup.length ≡ 0 }
    ensures any_bus { Spends B.spent B.ports write_bound bus.old bus.new
        × BusToldIt result (B.failed bus.new) }
    ensures steps { B.modelled ≡ true → Steps B.world B.trace write_bound bus.old bus.new }
    ensures transfer { B.modelled ≡ true → ControlWrite target setup
        (B.world bus.old) result (B.world bus.new) }
{
    send_setup(bus, target, setup.to_bytes())?;
    let mut toggle = Toggle::One;
    data_in(bus, target, 0, &mut toggle)?;
    Ok(())
}

/// Sends data to endpoint 0: a SETUP, the data in packets of the target's maximum, and an IN that is
/// answered by DATA1.
///
/// The request is one whose data go to the device, and its length is theirs, from 1 on. No packet
/// of the data goes before the SETUP was acknowledged, and none again once it was acknowledged; no
/// SETUP goes after any of them. If the call is done, the device has taken the data once.
///
/// # Errors
///
/// - `Stalled`: the device refused the request, or its data when all had come.
/// - `Busy`, `NoAnswer`: a transaction ended so. The device has taken all of the data, or none. A
///   device that listens gives no `NoAnswer`, and one that is not busy gives no `Busy`. This holds
///   if no packet is longer than its maximum, and no three attempts in a row were damaged.
/// - `Bus`: the bus has failed. The device has taken all of the data, or none.
///
/// It never returns `Broken` or `Memory`.
#[tactic(auto, using(usb_bus::proofs::Interface::went_wider), unfolding(crate::specs::Control::control_bound))]
pub fn control_out<B: Bus>(
    bus: &mut B,
    target: Target,
    setup: Setup,
    bytes: &[u8],
) -> Result<(), PipeFault>
    requires target { IsTarget target }
    requires writes { IsToDevice setup }
    requires some { 1 ≤ setup.length }
    requires all { setup.length ≡ length bytes.now }
    ensures any_bus { Spends B.spent B.ports (control_bound target.max setup.length) bus.old bus.new
        × BusToldIt result (B.failed bus.new) }
    ensures steps { B.modelled ≡ true
        → Steps B.world B.trace (control_bound target.max setup.length) bus.old bus.new }
    ensures transfer { B.modelled ≡ true → DataWrite target setup bytes.now
        (B.world bus.old) result (B.world bus.new) }
{
    let first = setup.to_bytes();
    send_setup(bus, target, first)?;
    let mut data = Toggle::One;
    send_packets(bus, target, 0, &mut data, bytes)?;
    let mut status = Toggle::One;
    data_in(bus, target, 0, &mut status)?;
    Ok(())
}
