//! Attempts, as the host asks for them and as it is answered.
ghost use Rattle.std.specs.Prelude.{◌≡◌, ◌≤◌, length};
ghost use Rattle.usb_wire.specs.Questions.{IsEndpoint};
ghost use Rattle.usb_world.specs.PlainAttempts.{attempt_data};
ghost use Rattle.usb_world.specs.Worlds.{IsAttempt};
ghost use Rattle.usb_far.specs.FarEnd.{attempt_of_in, destination_at, is_poll, attempt_of_out, outcome_answer, attempt_of_setup, packet_of};

use arrayvec::ArrayVec;
use usb_bus::{Attempt, Destination, Outcome};
use usb_packet::{Speed, Toggle};
use usb_request::Setup;
use usb_wire::{Answer, DataPacket, Endpoint};

/// The attempt that sends setup data (8.5.3).
pub(crate) fn setup_attempt(speed: Speed, endpoint: Endpoint, setup: Setup) -> Attempt
    requires { IsEndpoint endpoint }
    ensures value { attempt_data result ≡ attempt_of_setup speed endpoint setup }
    ensures fits { IsAttempt (attempt_data result) }
{
    Attempt::Setup {
        to: destination(speed, endpoint, 8),
        bytes: setup.to_bytes(),
    }
}

/// The attempt that sends data (8.5.1).
pub(crate) fn out_attempt(speed: Speed, endpoint: Endpoint, sent: &DataPacket) -> Attempt
    requires { IsEndpoint endpoint }
    ensures value { attempt_data result ≡ attempt_of_out speed endpoint sent.now }
    ensures fits { IsAttempt (attempt_data result) }
{
    packet_attempt(speed, endpoint, sent.toggle, sent.bytes.as_slice())
}

/// The attempt that sends these bytes.
pub(crate) fn packet_attempt(
    speed: Speed,
    endpoint: Endpoint,
    toggle: Toggle,
    packet: &[u8],
) -> Attempt
    requires endpoint { IsEndpoint endpoint }
    requires few { length packet.now ≤ 64 }
    ensures value { attempt_data result
        ≡ attempt_of_out speed endpoint (packet_of toggle packet.now) }
    ensures fits { IsAttempt (attempt_data result) }
{
    let mut bytes = ArrayVec::new();
    bytes.try_extend_from_slice(packet).unwrap();
    Attempt::Out {
        to: destination(speed, endpoint, 64),
        toggle,
        bytes,
    }
}

/// The attempt that asks for data (8.5.1).
pub(crate) fn in_attempt(speed: Speed, endpoint: Endpoint, most: u8) -> Attempt
    requires endpoint { IsEndpoint endpoint }
    requires least { 1 ≤ most }
    requires most { most ≤ 64 }
    ensures value { attempt_data result ≡ attempt_of_in speed endpoint most }
    ensures fits { IsAttempt (attempt_data result) }
{
    Attempt::In {
        to: destination(speed, endpoint, most),
    }
}

/// This endpoint, reached at this speed by packets of at most this number of bytes.
fn destination(speed: Speed, endpoint: Endpoint, max: u8) -> Destination
    ensures { result ≡ destination_at speed endpoint max }
{
    Destination {
        address: endpoint.address,
        number: endpoint.number,
        speed,
        max,
    }
}

/// Whether it is an IN of an endpoint other than 0 that brought nothing, as the poll of a hub without a change: its
/// answer was NAK, or was lost.
pub(crate) fn is_poll(attempt: &Attempt, outcome: &Outcome) -> bool
    ensures { result ≡ is_poll (attempt_data attempt.now) outcome.now }
{
    match attempt {
        Attempt::In { to } => to.number != 0 && matches!(outcome, Outcome::Nak | Outcome::Nothing),
        Attempt::Setup { .. } | Attempt::Out { .. } => false,
    }
}

/// What the host got, as it is reported.
pub(crate) fn answer_of(outcome: Outcome) -> Answer
    ensures { result ≡ outcome_answer outcome }
{
    match outcome {
        Outcome::Payload(toggle, bytes) => Answer::Data(DataPacket { toggle, bytes }),
        Outcome::Ack => Answer::Ack,
        Outcome::Nak => Answer::Nak,
        Outcome::Stall => Answer::Stall,
        Outcome::Nothing => Answer::Nothing,
    }
}
