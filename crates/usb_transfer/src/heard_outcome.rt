//! What an outcome means to the host that made the attempt.
ghost use Rattle.std.specs.Prelude.{◌≡◌, []};
ghost use Rattle.usb_bus.specs.OutcomeKinds.{outcome_with};
ghost use Rattle.usb_transfer.specs.HeardOutcomes.{acks, heard_as, heard_when_sent, heard_with};

use arrayvec::ArrayVec;
use usb_bus::OutcomeKind;
use usb_packet::Toggle;

/// What an outcome is to a host that awaits a packet, or sends one. Contracts speak of it; the code has `HeardKind`.
#[derive(Drop)]
pub(crate) enum HeardOutcome {
    /// The packet that was awaited, or the acknowledgement of the one sent (then no bytes).
    Moved(ArrayVec<u8, 64>),
    /// A NAK: the endpoint has nothing to give, or no room.
    NotReady,
    /// A packet that was taken before: it is discarded.
    Repeat,
    /// STALL.
    Refused,
    /// No good answer: an error.
    Lost,
}

/// The same, where the bytes are in a room beside it.
#[derive(Clone, Copy, Debug)]
pub(crate) enum HeardKind {
    /// The packet that was awaited, or the acknowledgement of the one sent (then no bytes).
    Moved,
    /// A NAK: the endpoint has nothing to give, or no room.
    NotReady,
    /// A packet that was taken before: it is discarded.
    Repeat,
    /// STALL.
    Refused,
    /// No good answer: an error.
    Lost,
}

/// To a host that awaits a packet of this toggle.
pub(crate) fn heard_as(awaited: Toggle, kind: OutcomeKind, _room: &ArrayVec<u8, 64>) -> HeardKind
    ensures { heard_with result _room.now ≡ heard_as awaited (outcome_with kind _room.now) }
{
    match kind {
        OutcomeKind::Payload(given) => {
            if awaited.is_same(given) {
                HeardKind::Moved
            } else {
                HeardKind::Repeat
            }
        }
        OutcomeKind::Nak => HeardKind::NotReady,
        OutcomeKind::Stall => HeardKind::Refused,
        OutcomeKind::Ack => HeardKind::Lost,
        OutcomeKind::Nothing => HeardKind::Lost,
    }
}

/// To a host that has sent a packet.
pub(crate) fn heard_when_sent(kind: OutcomeKind, _room: &ArrayVec<u8, 64>) -> HeardKind
    ensures { heard_with result (record { items = [] })
        ≡ heard_when_sent (outcome_with kind _room.now) }
{
    match kind {
        OutcomeKind::Ack => HeardKind::Moved,
        OutcomeKind::Nak => HeardKind::NotReady,
        OutcomeKind::Stall => HeardKind::Refused,
        OutcomeKind::Payload(_) => HeardKind::Lost,
        OutcomeKind::Nothing => HeardKind::Lost,
    }
}

/// Whether it is ACK.
pub(crate) fn is_ack(kind: OutcomeKind, _room: &ArrayVec<u8, 64>) -> bool
    ensures { result ≡ acks (outcome_with kind _room.now) }
{
    match kind {
        OutcomeKind::Ack => true,
        OutcomeKind::Payload(_) => false,
        OutcomeKind::Nak => false,
        OutcomeKind::Stall => false,
        OutcomeKind::Nothing => false,
    }
}
