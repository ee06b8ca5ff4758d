//! Rows of packets to or from one endpoint, for bulk transfers (5.8.3).
ghost use Rattle.std.specs.Prelude.{◌≡◌, ◌+◌, ◌*◌, ◌<◌, ◌≤◌, ◌++◌, drop, length, take, true, IfOk};
ghost use Rattle.std.specs.Int.{div_ceil};
ghost use Rattle.usb_bus.specs.Traces.{Spends, Steps};
ghost use Rattle.usb_packet.specs.Toggles.{flips};
ghost use Rattle.usb_transfer.specs.Rows.{AsksRow, CameInRow, SendsRow, row_bound};
ghost use Rattle.usb_transfer.specs.Transactions.{BusTold, IsTarget};

use crate::attempt::destination;
use crate::read::data_in_from;
use crate::write::data_out_from;
use crate::{Target, TransFault};
use arrayvec::ArrayVec;
use usb_bus::{Bus, ROW_ROOM, RowDone, RowEnd};
use usb_packet::Toggle;

/// Asks an endpoint, 0 to 15, for `most` packets, 1 to 64, in one row of the bus. Returns how many came.
///
/// Each but the last is full. Fewer came if one was short, or if one took more than one attempt: then the transaction
/// of that packet went on to its end as `data_in` does, and was the last. `got` has the bytes of all of them.
///
/// The toggle changes with each packet that came, also before a fault. If no address was ever held twice, the packets
/// are the next ones that the device at the target's address has for the endpoint: each comes once.
///
/// # Errors
///
/// - `Stalled`: the endpoint answered STALL.
/// - `Busy`: NAKs and repeats reached 256, of one packet.
/// - `NoAnswer`: there were three errors in a row, at one packet.
/// - `Bus`: the bus has failed.
///
/// What came before is lost then.
pub fn data_in_row<B: Bus>(
    bus: &mut B,
    target: Target,
    ep: u8,
    toggle: &mut Toggle,
    most: u8,
    got: &mut ArrayVec<u8, ROW_ROOM>,
) -> Result<u8, TransFault>
    requires endpoint { IsTarget target × (ep < 16) }
    requires row { (1 ≤ most) × (most ≤ 64) }
    ensures any_bus { Spends B.spent B.ports (row_bound most result) bus.old bus.new
        × BusTold result (B.failed bus.new) }
    ensures steps { B.modelled ≡ true
        → Steps B.world B.trace (row_bound most result) bus.old bus.new }
    ensures asks { B.modelled ≡ true → AsksRow target ep toggle.old most (B.world bus.old) result
        got.new.items toggle.new (B.world bus.new) }
    ensures fits { IfOk result (CameInRow target.max most toggle.old got.new.items toggle.new) }
{
    let RowDone { moved, end } = bus.attempt_ins(destination(target, ep), *toggle, most, got);
    *toggle = toggle_behind(*toggle, moved);
    match end {
        RowEnd::Whole => Ok(moved),
        RowEnd::Answered(first) => {
            let last = data_in_from(bus, target, ep, toggle, first)?;
            add(got, last.bytes());
            Ok(moved + 1)
        }
        RowEnd::Faulted(fault) => Err(TransFault::Bus(fault)),
    }
}

/// Sends bytes to an endpoint, 0 to 15, in packets of the target's maximum, at most 64, in one row of the bus. Returns
/// how many packets were acknowledged.
///
/// They are fewer than all if one took more than one attempt. Then the transaction of that packet went on to its end as
/// `data_out` does, and was the last.
///
/// The toggle changes with each packet that was acknowledged, also before a fault. If no address was ever held twice,
/// the device at the target's address has taken their data then, once.
///
/// # Errors
///
/// - `Stalled`: the endpoint answered STALL.
/// - `Busy`: there were 256 NAKs, to one packet.
/// - `NoAnswer`: there were three errors in a row, at one packet.
/// - `Bus`: the bus has failed.
///
/// The data of that packet may have been taken all the same, if an ACK was lost.
pub fn data_out_row<B: Bus>(
    bus: &mut B,
    target: Target,
    ep: u8,
    toggle: &mut Toggle,
    bytes: &[u8],
) -> Result<u8, TransFault>
    requires endpoint { IsTarget target × (ep < 16) }
    requires row { (0 < length bytes.now) × (length bytes.now ≤ 64 * target.max) }
    ensures any_bus { Spends B.spent B.ports
        (row_bound (div_ceil (length bytes.now) target.max) result) bus.old bus.new
        × BusTold result (B.failed bus.new) }
    ensures steps { B.modelled ≡ true → Steps B.world B.trace
        (row_bound (div_ceil (length bytes.now) target.max) result) bus.old bus.new }
    ensures sends { B.modelled ≡ true → SendsRow target ep toggle.old bytes.now
        (B.world bus.old) result toggle.new (B.world bus.new) }
    ensures few { IfOk result (λ n. (1 ≤ n) × (n ≤ div_ceil (length bytes.now) target.max)) }
{
    let RowDone { moved, end } = bus.attempt_outs(destination(target, ep), *toggle, bytes);
    *toggle = toggle_behind(*toggle, moved);
    match end {
        RowEnd::Whole => Ok(moved),
        RowEnd::Answered(first) => {
            let packet = packet_behind(bytes, moved, target.max);
            data_out_from(bus, target, ep, toggle, packet, first)?;
            Ok(moved + 1)
        }
        RowEnd::Faulted(fault) => Err(TransFault::Bus(fault)),
    }
}

/// Adds the bytes of a packet.
fn add(got: &mut ArrayVec<u8, ROW_ROOM>, packet: &[u8])
    requires { length got.old.items + length packet.now ≤ 4096 }
    ensures { got.new.items ≡ got.old.items ++ packet.now }
{
    got.try_extend_from_slice(packet).unwrap();
}

/// The toggle after this number of packets.
fn toggle_behind(toggle: Toggle, packets: u8) -> Toggle
    ensures { result ≡ flips packets toggle }
{
    if packets % 2 == 0 {
        toggle
    } else {
        toggle.other()
    }
}

/// The packet after this number of full ones, with as many of the bytes as fit.
fn packet_behind(bytes: &[u8], packets: u8, max: u8) -> &[u8]
    requires { packets * max ≤ length bytes.now }
    ensures { result.now ≡ take max (drop (packets * max) bytes.now) }
{
    let (_, rest) = bytes.split_at(usize::from(packets) * usize::from(max));
    let (packet, _) = rest.split_at(rest.len().min(usize::from(max)));
    packet
}
