//! An attempt, before it is made.
ghost use Rattle.std.specs.Prelude.{◌≡◌};
ghost use Rattle.std.specs.List.{list_any};
ghost use Rattle.usb_judge.specs.Holders.{is_at_root, is_empty, judged, judged_at, sent_bytes};

use crate::PluggedDevice;
use crate::holders::{count_holders, holder, reads};
use crate::packet_size::is_too_long;
use crate::remark::Remark;
use usb_world::Attempt;

/// What is wrong with an attempt that is about to be made, if these devices are plugged; None if
/// nothing is.
///
/// - `TwoDevices`: at least two devices that packets reach hold the address (9.1.2, 9.4.6).
/// - `Nobody`: no device that packets reach holds it.
/// - `OtherSpeed`: one device holds it, and does not read packets of this speed (8.6.5). A low-speed
///   device at a root port reads them with PRE or without, one below a hub with PRE alone.
/// - `TooLong`: an OUT sends more bytes than the maximum packet of the endpoint. For endpoint 0 the
///   device descriptor says it (9.6.1). For another one it is the greatest of all settings of the
///   configuration that the device has (9.6.6). If that has no such endpoint, nothing is wrong.
///
/// At another speed, the length is not judged.
pub fn judge_attempt(plugged: &[PluggedDevice<'_>], attempt: &Attempt) -> Option<Remark>
    ensures { result ≡ judged plugged.now attempt.now }
{
    let address = attempt.destination().address;
    if count_holders(plugged, address) > 1 {
        return Some(Remark::TwoDevices);
    }
    match holder(plugged, address) {
        Some(device) => judge_at(device, attempt),
        None => Some(Remark::Nobody),
    }
}

/// What is wrong with an attempt that one device gets.
fn judge_at(device: &PluggedDevice<'_>, attempt: &Attempt) -> Option<Remark>
    ensures { result ≡ judged_at attempt.now device.now }
{
    let to = attempt.destination();
    if !reads(device, to.speed) {
        Some(Remark::OtherSpeed)
    } else if is_too_long(device, to.number, sent_bytes(attempt)) {
        Some(Remark::TooLong)
    } else {
        None
    }
}

/// How many bytes an OUT sends; 0 of another attempt.
fn sent_bytes(attempt: &Attempt) -> usize
    ensures { result ≡ sent_bytes attempt.now }
{
    match attempt {
        Attempt::Out { bytes, .. } => bytes.len(),
        Attempt::Setup { .. } | Attempt::In { .. } => 0,
    }
}

/// Whether nothing is plugged at the root port of this number, which a host is about to reset.
pub fn resets_empty(plugged: &[PluggedDevice<'_>], number: u8) -> bool
    ensures { result ≡ is_empty plugged.now number }
{
    !has_root(plugged, number)
}

/// Whether a device is plugged at the root port of this number.
fn has_root(plugged: &[PluggedDevice<'_>], number: u8) -> bool
    ensures { result ≡ list_any (is_at_root number) plugged.now }
{
    plugged.iter().any(|device| is_at_root(device, number))
}

/// Whether the device is at the root port of this number.
fn is_at_root(device: &PluggedDevice<'_>, number: u8) -> bool
    ensures { result ≡ is_at_root number device.now }
{
    match device.path.numbers() {
        [only] => *only == number,
        _ => false,
    }
}
