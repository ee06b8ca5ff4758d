//! IN, with NAK as an answer.
ghost use Rattle.std.specs.Prelude.{◌≡◌, ◌<◌, ◌≤◌, true, length, IfOk, IfSome};
ghost use Rattle.usb_bus.specs.Traces.{Spends, Steps};
ghost use Rattle.usb_transfer.specs.Calls.{PollsIn};
ghost use Rattle.usb_transfer.specs.HeardOutcomes.{toggle_after};
ghost use Rattle.usb_transfer.specs.Transactions.{BusTold, IsTarget, transaction_bound};

use crate::attempt::attempt_of_in;
use crate::heard_outcome::{HeardKind, heard_as};
use crate::tries::Tries;
use crate::{Done, Target, TransFault};
use arrayvec::ArrayVec;
use usb_bus::Bus;
use usb_packet::Toggle;

/// Asks an endpoint, 0 to 15, whether it has a data packet (5.7, 8.5.4): None at NAK.
///
/// It asks again after an error or a packet of the other toggle, which is a repeat and discarded.
/// The toggle changes exactly if a packet came.
///
/// If no address was ever held twice, the packet is the next one that the device at the target's
/// address has for the endpoint: each comes once. At None an endpoint that gives no NAK before
/// its packets has none left. What a hub's status endpoint gives is what its ports reported at one of the attempts, if
/// no earlier poll failed; a hub of 8 to 15 ports gives two bytes (11.12.4). At None they reported nothing.
///
/// An endpoint may give any number of NAKs. A poll that it hears ends in `Busy` or `NoAnswer` only
/// where three attempts in a row are damaged, or a packet is longer than the target's maximum.
///
/// # Errors
///
/// - `Stalled`: the endpoint answered STALL.
/// - `Busy`: it gave 256 repeats.
/// - `NoAnswer`: there were three errors in a row.
/// - `Bus`: the bus has failed.
pub fn poll_in<B: Bus>(
    bus: &mut B,
    target: Target,
    ep: u8,
    toggle: &mut Toggle,
) -> Result<Option<Done>, TransFault>
    requires target { IsTarget target }
    requires endpoint { ep < 16 }
    ensures any_bus { Spends B.spent B.ports transaction_bound bus.old bus.new
        × BusTold result (B.failed bus.new) }
    ensures steps { B.modelled ≡ true → Steps B.world B.trace transaction_bound bus.old bus.new }
    ensures polls { B.modelled ≡ true
        → PollsIn target ep toggle.old (B.world bus.old) result (B.world bus.new) }
    ensures toggle { toggle.new ≡ toggle_after toggle.old result }
    ensures fits { IfOk result (λ got. IfSome got (λ bytes. length bytes ≤ target.max)) }
{
    let attempt = attempt_of_in(target, ep);
    let mut tries = Tries::new();
    let mut room = ArrayVec::new();
    'tries: loop {
        match bus.attempt_into(&attempt, &mut room) {
            Ok(kind) => match heard_as(*toggle, kind, &room) {
                HeardKind::Moved => {
                    *toggle = toggle.other();
                    return Ok(Some(Done::data(room)));
                }
                HeardKind::NotReady => return Ok(None),
                HeardKind::Repeat => tries.wait()?,
                HeardKind::Refused => return Err(TransFault::Stalled),
                HeardKind::Lost => tries.error()?,
            },
            Err(fault) => return Err(TransFault::Bus(fault)),
        }
    }
}
