//! What the host got in an attempt, with the bytes of data in a room beside it.
ghost use Rattle.std.specs.Prelude.{◌≡◌};
ghost use Rattle.usb_bus.specs.OutcomeKinds.{outcome_with};

use crate::Outcome;
use arrayvec::ArrayVec;
use usb_packet::Toggle;

/// What the host got in an attempt. The bytes of data are in a room beside it.
#[derive(Clone, Copy, Debug, PartialEq, Eq)]
pub enum OutcomeKind {
    /// Data, which the bus has acknowledged: they are in the room.
    Payload(Toggle),
    /// The data came through (8.4.5).
    Ack,
    /// Nothing to give, or no room now (8.4.5).
    Nak,
    /// The endpoint is halted, or the request refused (8.4.5).
    Stall,
    /// No good answer came.
    Nothing,
}

impl OutcomeKind {
    /// The kind of an outcome, whose data are put into the room.
    pub fn put(outcome: Outcome, room: &mut ArrayVec<u8, 64>) -> OutcomeKind
        ensures { outcome_with result room.new ≡ outcome }
    {
        match outcome {
            Outcome::Payload(toggle, bytes) => {
                *room = bytes;
                OutcomeKind::Payload(toggle)
            }
            Outcome::Ack => OutcomeKind::Ack,
            Outcome::Nak => OutcomeKind::Nak,
            Outcome::Stall => OutcomeKind::Stall,
            Outcome::Nothing => OutcomeKind::Nothing,
        }
    }

    /// The outcome, with these bytes where it is data.
    pub fn with_bytes(self, bytes: ArrayVec<u8, 64>) -> Outcome
        ensures { result ≡ outcome_with self bytes }
    {
        match self {
            OutcomeKind::Payload(toggle) => Outcome::Payload(toggle, bytes),
            OutcomeKind::Ack => Outcome::Ack,
            OutcomeKind::Nak => Outcome::Nak,
            OutcomeKind::Stall => Outcome::Stall,
            OutcomeKind::Nothing => Outcome::Nothing,
        }
    }
}
