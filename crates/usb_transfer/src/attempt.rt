//! The attempts that a transaction makes.
ghost use Rattle.std.specs.Prelude.{◌≡◌, ◌<◌, ◌≤◌, length, true};
ghost use Rattle.usb_packet.specs.Speeds.{speed_has_pre, speed_is_low};
ghost use Rattle.usb_world.specs.PlainAttempts.{attempt_data};
ghost use Rattle.usb_world.specs.Worlds.{IsAttempt};
ghost use Rattle.usb_transfer.specs.Transactions.{IsTarget, setup_attempt, in_attempt, out_attempt};

use crate::Target;
use arrayvec::ArrayVec;
use usb_bus::{Attempt, Destination};
use usb_packet::{Speed, Toggle};

/// SETUP with DATA0 (8.5.3).
pub(crate) fn attempt_of_setup(target: Target, bytes: [u8; 8]) -> Attempt
    requires { IsTarget target }
    ensures value { attempt_data result ≡ setup_attempt target bytes }
    ensures fits { IsAttempt (attempt_data result) }
{
    let to = Destination {
        max: 8,
        ..destination(target, 0)
    };
    Attempt::Setup { to, bytes }
}

/// IN: it asks for data.
pub(crate) fn attempt_of_in(target: Target, ep: u8) -> Attempt
    requires target { IsTarget target }
    requires endpoint { ep < 16 }
    ensures value { attempt_data result ≡ in_attempt target ep }
    ensures fits { IsAttempt (attempt_data result) }
{
    Attempt::In {
        to: destination(target, ep),
    }
}

/// OUT with data.
pub(crate) fn attempt_of_out(target: Target, ep: u8, toggle: Toggle, bytes: &[u8]) -> Attempt
    requires target { IsTarget target }
    requires endpoint { ep < 16 }
    requires short { length bytes.now ≤ target.max }
    ensures value { attempt_data result ≡ out_attempt target ep toggle bytes.now }
    ensures fits { IsAttempt (attempt_data result) }
{
    Attempt::Out {
        to: destination(target, ep),
        toggle,
        bytes: packet(bytes),
    }
}

/// An endpoint of the target.
pub(crate) fn destination(target: Target, ep: u8) -> Destination
    requires { target.pre ≡ true → target.low ≡ true }
    ensures address { result.address ≡ target.addr }
    ensures number { result.number ≡ ep }
    ensures low { speed_is_low result.speed ≡ target.low }
    ensures pre { speed_has_pre result.speed ≡ target.pre }
    ensures max { result.max ≡ target.max }
{
    Destination {
        address: target.addr,
        number: ep,
        speed: speed_of(target.low, target.pre),
        max: target.max,
    }
}

/// How fast a device is, and where (8.6.5).
fn speed_of(low: bool, pre: bool) -> Speed
    requires { pre ≡ true → low ≡ true }
    ensures low { speed_is_low result ≡ low }
    ensures pre { speed_has_pre result ≡ pre }
{
    match (low, pre) {
        (false, _) => Speed::Full,
        (true, false) => Speed::Low,
        (true, true) => Speed::LowBelowHub,
    }
}

fn packet(bytes: &[u8]) -> ArrayVec<u8, 64>
    requires { length bytes.now ≤ 64 }
    ensures { result.items ≡ bytes.now }
{
    let mut packet = ArrayVec::new();
    packet.try_extend_from_slice(bytes).unwrap();
    packet
}
