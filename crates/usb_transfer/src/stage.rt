//! The data stage of a control transfer that reads.
ghost use Rattle.std.specs.Prelude.{◌≡◌, ◌-◌, ◌+◌, ◌*◌, ◌<◌, ◌≤◌, ◌++◌, take, length, OnOk, IfOk, MatchResult, true};
ghost use Rattle.usb_bus.specs.Traces.{Spends, Steps};
ghost use Rattle.usb_transfer.specs.Transactions.{IsTarget, AttemptsMade, transaction_bound};
ghost use Rattle.usb_transfer.specs.Control.{BusToldIt, FaultAfter, byte_bound, ends_stage};
ghost use Rattle.usb_transfer.specs.Stages.{DataEnds};

use crate::{Bus, PipeFault, Target, data_in};
use std::alloc::{AllocError, Global};
use usb_packet::Toggle;

/// Takes packets, toggles alternating from DATA1, until `wanted` bytes have come or a packet that
/// is shorter than the maximum. Bytes past `wanted` are dropped.
pub(crate) fn data_stage<B: Bus>(
    alloc: Global,
    bus: &mut B,
    target: Target,
    wanted: u16,
) -> Result<Vec<u8>, PipeFault>
    requires target { IsTarget target }
    requires some { 0 < wanted }
    ensures any_bus { Spends B.spent B.ports
        (transaction_bound + byte_bound target.max * wanted) bus.old bus.new
        × BusToldIt result (B.failed bus.new) }
    ensures steps { B.modelled ≡ true → Steps B.world B.trace
        (transaction_bound + byte_bound target.max * wanted) bus.old bus.new }
    ensures ends { B.modelled ≡ true
        → MatchResult result (λ _. AttemptsMade 1 (B.world bus.old) (B.world bus.new))
        (λ fault. FaultAfter 0 (B.world bus.old) fault (B.world bus.new)) }
    ensures packets { B.modelled ≡ true
        → DataEnds target wanted (B.world bus.old) result (B.world bus.new) }
    ensures most { IfOk result (λ bytes. length bytes.items ≤ wanted) }
{
    let mut bytes = Vec::new(alloc);
    let mut toggle = Toggle::One;
    'packets: loop {
        let packet = data_in(bus, target, 0, &mut toggle)?;
        keep(&mut bytes, packet.bytes(), wanted)?;
        if last(packet.bytes().len(), target.max, bytes.len(), wanted) {
            return Ok(bytes);
        }
    }
}

/// Adds what is still wanted of a packet.
fn keep(bytes: &mut Vec<u8>, packet: &[u8], wanted: u16) -> Result<(), AllocError>
    requires { length bytes.old.items ≤ wanted }
    ensures { OnOk result (bytes.new.items
        ≡ bytes.old.items ++ take (wanted - length bytes.old.items) packet.now) }
{
    let room = wanted as usize - bytes.len();
    bytes.extend_from_slice(&packet[..packet.len().min(room)])
}

/// Whether a packet of this size ends the data stage, where `got` bytes have come with it.
fn last(size: usize, max: u8, got: usize, wanted: u16) -> bool
    ensures { result ≡ ends_stage size max got wanted }
{
    size < max as usize || wanted as usize <= got
}
