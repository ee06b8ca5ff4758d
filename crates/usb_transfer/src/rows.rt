//! The packets of a transfer by rows of the bus, to or from a bulk endpoint (5.8.3).
ghost use Rattle.std.specs.Prelude.{◌*◌, ◌-◌, ◌<◌, ◌≤◌, length, min, ◌≡◌, true, IfOk};
ghost use Rattle.std.specs.Int.{div_ceil};
ghost use Rattle.usb_bus.specs.Traces.{Spends, Steps};
ghost use Rattle.usb_transfer.specs.Transactions.{IsTarget, transaction_bound};
ghost use Rattle.usb_transfer.specs.Control.{BusToldIt};
ghost use Rattle.usb_transfer.specs.Packets.{PacketsSent, PacketsReceived};

use crate::packets::{receive_packets, send_packets};
use crate::{Bus, EndpointKind, PipeFault, Target, data_in_row, data_out_row};
use arrayvec::ArrayVec;
use std::alloc::Global;
use usb_bus::{ROW_PACKETS, ROW_ROOM};
use usb_packet::Toggle;

/// Sends some bytes in packets of the maximum, the last one with what is left: by rows to a bulk endpoint.
pub(crate) fn send_to<B: Bus>(
    kind: EndpointKind,
    bus: &mut B,
    target: Target,
    ep: u8,
    toggle: &mut Toggle,
    bytes: &[u8],
) -> Result<(), PipeFault>
    requires target { IsTarget target }
    requires endpoint { ep < 16 }
    requires some { 0 < length bytes.now }
    ensures any_bus { Spends B.spent B.ports
        (transaction_bound * div_ceil (length bytes.now) target.max) bus.old bus.new
        × BusToldIt result (B.failed bus.new) }
    ensures steps { B.modelled ≡ true → Steps B.world B.trace
        (transaction_bound * div_ceil (length bytes.now) target.max) bus.old bus.new }
    ensures sent { B.modelled ≡ true → PacketsSent target ep toggle.old bytes.now
        (B.world bus.old) result toggle.new (B.world bus.new) }
{
    match kind {
        EndpointKind::Bulk => send_rows(bus, target, ep, toggle, bytes),
        EndpointKind::Interrupt => send_packets(bus, target, ep, toggle, bytes),
    }
}

/// Takes packets until there are as many as are wanted, or a short one came: by rows from a bulk endpoint.
pub(crate) fn receive_from<B: Bus>(
    kind: EndpointKind,
    alloc: Global,
    bus: &mut B,
    target: Target,
    ep: u8,
    toggle: &mut Toggle,
    wanted: u16,
) -> Result<Vec<u8>, PipeFault>
    requires target { IsTarget target }
    requires endpoint { ep < 16 }
    requires some { 0 < wanted }
    ensures any_bus { Spends B.spent B.ports (transaction_bound * wanted) bus.old bus.new
        × BusToldIt result (B.failed bus.new)
        × IfOk result (λ bytes. length bytes.items ≤ wanted * target.max) }
    ensures steps { B.modelled ≡ true
        → Steps B.world B.trace (transaction_bound * wanted) bus.old bus.new }
    ensures received { B.modelled ≡ true → PacketsReceived target ep toggle.old wanted
        (B.world bus.old) result toggle.new (B.world bus.new) }
{
    match kind {
        EndpointKind::Bulk => receive_rows(alloc, bus, target, ep, toggle, wanted),
        EndpointKind::Interrupt => receive_packets(alloc, bus, target, ep, toggle, wanted),
    }
}

/// Sends as `send_packets` does, by rows of the bus.
fn send_rows<B: Bus>(
    bus: &mut B,
    target: Target,
    ep: u8,
    toggle: &mut Toggle,
    bytes: &[u8],
) -> Result<(), PipeFault>
    requires target { IsTarget target }
    requires endpoint { ep < 16 }
    requires some { 0 < length bytes.now }
    ensures any_bus { Spends B.spent B.ports
        (transaction_bound * div_ceil (length bytes.now) target.max) bus.old bus.new
        × BusToldIt result (B.failed bus.new) }
    ensures steps { B.modelled ≡ true → Steps B.world B.trace
        (transaction_bound * div_ceil (length bytes.now) target.max) bus.old bus.new }
    ensures sent { B.modelled ≡ true → PacketsSent target ep toggle.old bytes.now
        (B.world bus.old) result toggle.new (B.world bus.new) }
{
    let mut rest = bytes;
    'rows: while !rest.is_empty() {
        let (row, _) = rest.split_at(size_of(ROW_PACKETS, target.max, rest.len()));
        let gone = data_out_row(bus, target, ep, toggle, row)?;
        let (_, after) = rest.split_at(size_of(gone, target.max, rest.len()));
        rest = after;
    }
    Ok(())
}

/// Receives as `receive_packets` does, by rows of the bus.
fn receive_rows<B: Bus>(
    alloc: Global,
    bus: &mut B,
    target: Target,
    ep: u8,
    toggle: &mut Toggle,
    wanted: u16,
) -> Result<Vec<u8>, PipeFault>
    requires target { IsTarget target }
    requires endpoint { ep < 16 }
    requires some { 0 < wanted }
    ensures any_bus { Spends B.spent B.ports (transaction_bound * wanted) bus.old bus.new
        × BusToldIt result (B.failed bus.new)
        × IfOk result (λ bytes. length bytes.items ≤ wanted * target.max) }
    ensures steps { B.modelled ≡ true
        → Steps B.world B.trace (transaction_bound * wanted) bus.old bus.new }
    ensures received { B.modelled ≡ true → PacketsReceived target ep toggle.old wanted
        (B.world bus.old) result toggle.new (B.world bus.new) }
{
    let mut bytes = Vec::new(alloc);
    let mut row = ArrayVec::new();
    let mut left = wanted;
    'rows: while left != 0 {
        let came = data_in_row(bus, target, ep, toggle, row_of(left), &mut row)?;
        bytes.extend_from_slice(row.as_slice())?;
        if row.len() < usize::from(came) * usize::from(target.max) {
            return Ok(bytes);
        }
        left -= u16::from(came);
    }
    Ok(bytes)
}

/// How many packets the next row asks for, where so many are left.
fn row_of(left: u16) -> u8
    requires { 0 < left }
    ensures { result ≡ min left 64 }
{
    left.min(u16::from(ROW_PACKETS)) as u8
}

/// How many of the bytes are in this number of packets.
fn size_of(packets: u8, max: u8, bytes: usize) -> usize
    ensures { result ≡ min bytes (packets * max) }
{
    bytes.min(usize::from(packets) * usize::from(max))
}
