//! The packets of a bulk transfer (5.8.3).
ghost use Rattle.std.specs.Prelude.{◌*◌, ◌<◌, ◌≤◌, length, ◌≡◌, true, IfOk};
ghost use Rattle.std.specs.Int.{div_ceil};
ghost use Rattle.usb_bus.specs.Traces.{Spends, Steps};
ghost use Rattle.usb_transfer.specs.Transactions.{IsTarget, transaction_bound};
ghost use Rattle.usb_transfer.specs.Control.{BusToldIt};
ghost use Rattle.usb_transfer.specs.Packets.{PacketsSent, PacketsReceived};

use crate::{Bus, PipeFault, Target, data_in, data_out};
use std::alloc::Global;
use usb_packet::Toggle;

/// Sends some bytes in packets of the maximum, the last one with what is left.
pub(crate) fn send_packets<B: Bus>(
    bus: &mut B,
    target: Target,
    ep: u8,
    toggle: &mut Toggle,
    bytes: &[u8],
) -> Result<(), PipeFault>
    requires target { IsTarget target }
    requires endpoint { ep < 16 }
    requires some { 0 < length bytes.now }
    ensures any_bus { Spends B.spent B.ports
        (transaction_bound * div_ceil (length bytes.now) target.max) bus.old bus.new
        × BusToldIt result (B.failed bus.new) }
    ensures steps { B.modelled ≡ true → Steps B.world B.trace
        (transaction_bound * div_ceil (length bytes.now) target.max) bus.old bus.new }
    ensures sent { B.modelled ≡ true → PacketsSent target ep toggle.old bytes.now
        (B.world bus.old) result toggle.new (B.world bus.new) }
{
    let mut rest = bytes;
    'packets: while !rest.is_empty() {
        let (packet, after) = rest.split_at(rest.len().min(usize::from(target.max)));
        data_out(bus, target, ep, toggle, packet)?;
        rest = after;
    }
    Ok(())
}

/// Takes packets until there are as many as are wanted, or a short one came.
#[tactic(auto, using(crate::proofs::MovedPackets::moved_all))]
pub(crate) fn receive_packets<B: Bus>(
    alloc: Global,
    bus: &mut B,
    target: Target,
    ep: u8,
    toggle: &mut Toggle,
    wanted: u16,
) -> Result<Vec<u8>, PipeFault>
    requires target { IsTarget target }
    requires endpoint { ep < 16 }
    requires some { 0 < wanted }
    ensures any_bus { Spends B.spent B.ports (transaction_bound * wanted) bus.old bus.new
        × BusToldIt result (B.failed bus.new)
        × IfOk result (λ bytes. length bytes.items ≤ wanted * target.max) }
    ensures steps { B.modelled ≡ true
        → Steps B.world B.trace (transaction_bound * wanted) bus.old bus.new }
    ensures received { B.modelled ≡ true → PacketsReceived target ep toggle.old wanted
        (B.world bus.old) result toggle.new (B.world bus.new) }
{
    let mut bytes = Vec::new(alloc);
    'packets: for _taken in 0..wanted {
        let packet = data_in(bus, target, ep, toggle)?;
        bytes.extend_from_slice(packet.bytes())?;
        if packet.bytes().len() < usize::from(target.max) {
            return Ok(bytes);
        }
    }
    Ok(bytes)
}
