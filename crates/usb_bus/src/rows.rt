//! Rows: several attempts to one endpoint, one after the other.
ghost use Rattle.std.specs.Prelude.{◌≡◌, ◌≢◌, ◌+◌, ◌<◌, ◌≤◌, length, true, false};
ghost use Rattle.usb_world.specs.declared.types.Outcome.TheVariants.{Ack as ack};
ghost use Rattle.usb_world.specs.PlainAttempts.{attempt_data};
ghost use Rattle.usb_bus.specs.Rows.{AddsFull, IsDestination, out_packet};

use crate::{Attempt, BusFault, Destination, Outcome};
use arrayvec::ArrayVec;
use usb_packet::Toggle;

/// The most packets of a row.
pub const ROW_PACKETS: u8 = 64;

/// Room for the data of a row, in bytes: 64 packets of 64.
pub const ROW_ROOM: usize = 4096;

/// What a row of attempts came to.
#[derive(Debug, Drop)]
pub struct RowDone {
    /// How many packets were moved, one in each attempt, 0 to 64.
    pub moved: u8,
    /// What ended the row after them.
    pub end: RowEnd,
}

/// What ended a row of attempts.
#[derive(Debug, Drop)]
pub enum RowEnd {
    /// Nothing: all its packets were moved.
    Whole,
    /// The outcome of the next attempt, which moved no packet of the row.
    Answered(Outcome),
    /// The fault that the bus reported at the next attempt.
    Faulted(BusFault),
}

/// Adds the packet that came, if it is a full one of the toggle that is due.
pub(crate) fn add_full(
    got: &mut ArrayVec<u8, ROW_ROOM>,
    max: u8,
    due: Toggle,
    outcome: &Outcome,
) -> bool
    requires { length got.old.items + max ≤ 4096 }
    ensures { AddsFull max due outcome.now got.old.items result got.new.items }
{
    match outcome {
        Outcome::Payload(given, bytes) => {
            let is_full = due.is_same(*given) && bytes.len() == usize::from(max);
            if is_full {
                got.try_extend_from_slice(bytes.as_slice()).unwrap();
            }
            is_full
        }
        Outcome::Ack | Outcome::Nak | Outcome::Stall | Outcome::Nothing => false,
    }
}

/// OUT with a packet of a row.
pub(crate) fn out_attempt(to: Destination, toggle: Toggle, packet: &[u8]) -> Attempt
    requires endpoint { IsDestination to }
    requires short { length packet.now ≤ to.max }
    ensures { attempt_data result ≡ out_packet to toggle packet.now }
{
    let mut bytes = ArrayVec::new();
    bytes.try_extend_from_slice(packet).unwrap();
    Attempt::Out { to, toggle, bytes }
}

pub(crate) fn is_ack(outcome: &Outcome) -> bool
    ensures yes { result ≡ true → outcome.now ≡ ack }
    ensures no { result ≡ false → outcome.now ≢ ack }
{
    match outcome {
        Outcome::Ack => true,
        Outcome::Payload(_, _) | Outcome::Nak | Outcome::Stall | Outcome::Nothing => false,
    }
}
