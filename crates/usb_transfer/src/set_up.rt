//! SETUP.
ghost use Rattle.std.specs.Prelude.{◌≡◌, true};
ghost use Rattle.usb_bus.specs.Traces.{Spends, Steps};
ghost use Rattle.usb_transfer.specs.Calls.{SetsUp};
ghost use Rattle.usb_transfer.specs.Transactions.{BusTold, IsTarget, error_limit};

use crate::attempt::attempt_of_setup;
use crate::heard_outcome::is_ack;
use crate::tries::ERROR_LIMIT;
use crate::{Done, Target, TransFault};
use arrayvec::ArrayVec;
use usb_bus::Bus;

/// Sends setup data (8.5.3), in at most three attempts.
///
/// If no address was ever held twice, `Ok` means that the device at the target's address accepted
/// them at the last attempt. Otherwise it did so at some or at none.
///
/// # Errors
///
/// - `NoAnswer`: none of three attempts was answered by ACK. To SETUP every other answer is an
///   error.
/// - `Bus`: the bus has failed.
///
/// It never returns `Stalled` or `Busy`.
pub fn setup<B: Bus>(bus: &mut B, target: Target, bytes: [u8; 8]) -> Result<Done, TransFault>
    requires { IsTarget target }
    ensures any_bus { Spends B.spent B.ports error_limit bus.old bus.new
        × BusTold result (B.failed bus.new) }
    ensures steps { B.modelled ≡ true → Steps B.world B.trace error_limit bus.old bus.new }
    ensures sets_up { B.modelled ≡ true
        → SetsUp target bytes (B.world bus.old) result (B.world bus.new) }
{
    let attempt = attempt_of_setup(target, bytes);
    let mut room = ArrayVec::new();
    for _error in 0..ERROR_LIMIT {
        match bus.attempt_into(&attempt, &mut room) {
            Ok(kind) => {
                if is_ack(kind, &room) {
                    return Ok(Done::nothing());
                }
            }
            Err(fault) => return Err(TransFault::Bus(fault)),
        }
    }
    Err(TransFault::NoAnswer)
}
