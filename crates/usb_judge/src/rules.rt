//! The rule of each cause.
ghost use Rattle.std.specs.Prelude.{◌≡◌, ◌<◌, length};
ghost use Rattle.std.specs.List.{count_by, list_any};
ghost use Rattle.usb_judge.specs.Scenes.{device_row, device_seen, scene_in};
ghost use Rattle.usb_judge.specs.Rules.{breaks, breaks_device, breaks_refusal, breaks_port, claims_address, draws_too_much, has_other_ports, is_accepted, is_front, is_listed_at, is_missing, is_open, is_own_configuration, is_used, need_in, shares_address};

use crate::judgement::Cause;
use crate::listed::{Claim, ListedDevice, ListedPort};
use crate::plugged::{PluggedDevice, device_at};
use usb_port::PortPath;
use usb_request::descriptor_length::CONFIGURATION_LENGTH;

/// Whether a port of a listing is wrong for a cause. `Missing` is none of a port that is listed.
pub(crate) fn breaks(
    plugged: &[PluggedDevice<'_>],
    listing: &[ListedPort],
    port: &ListedPort,
    cause: Cause,
) -> bool
    ensures { result ≡ breaks (scene_in plugged.now) listing.now port.now cause }
{
    match cause {
        Cause::Twice => times_listed(listing, &port.path) > 1,
        Cause::NotPlugged => device_at(plugged, &port.path).is_none(),
        Cause::NoHub => !is_open(listing, &port.path),
        Cause::SameAddress => shares_address(listing, &port.claim),
        _ => match device_at(plugged, &port.path) {
            Some(device) => breaks_port(device, &port.claim, cause),
            None => false,
        },
    }
}

/// Whether a device is plugged, and its port is to be listed and is not.
pub(crate) fn is_missing(listing: &[ListedPort], path: &PortPath) -> bool
    ensures { result ≡ is_missing listing.now path.now }
{
    is_open(listing, path) && !is_listed(listing, path)
}

/// Whether some entry of the listing, accepted or refused, has the path.
fn is_listed(listing: &[ListedPort], path: &PortPath) -> bool
    ensures { result ≡ list_any (is_listed_at path.now) listing.now }
{
    listing.iter().any(|port| port.path == *path)
}

/// How many entries of the listing, accepted or refused, have the path.
fn times_listed(listing: &[ListedPort], path: &PortPath) -> usize
    ensures { result ≡ count_by (is_listed_at path.now) listing.now }
{
    listing.iter().filter(|port| port.path == *path).count()
}

/// Whether the port is one of the root, or its hub is listed.
fn is_open(listing: &[ListedPort], path: &PortPath) -> bool
    ensures { result ≡ is_open listing.now path.now }
{
    match path.parent() {
        Some(hub) => is_used(listing, &hub),
        None => true,
    }
}

/// Whether a device is listed at the path, and not refused.
fn is_used(listing: &[ListedPort], path: &PortPath) -> bool
    ensures { result ≡ is_used listing.now path.now }
{
    listing
        .iter()
        .any(|port| port.path == *path && is_accepted(&port.claim))
}

/// Whether the listing has a device there, and not a refusal.
fn is_accepted(claim: &Claim) -> bool
    ensures { result ≡ is_accepted claim.now }
{
    match claim {
        Claim::Device(_) => true,
        Claim::Refused => false,
    }
}

/// Whether another device is listed at the address of this one.
fn shares_address(listing: &[ListedPort], claim: &Claim) -> bool
    ensures { result ≡ shares_address listing.now claim.now }
{
    match claim {
        Claim::Device(listed) => times_given(listing, listed.address) > 1,
        Claim::Refused => false,
    }
}

/// How many devices are listed at an address.
fn times_given(listing: &[ListedPort], address: u8) -> usize
    ensures { result ≡ count_by (claims_address address) listing.now }
{
    listing
        .iter()
        .filter(|port| claims_address(port, address))
        .count()
}

/// Whether a device is listed at the address; a refused one has none.
fn claims_address(port: &ListedPort, address: u8) -> bool
    ensures { result ≡ claims_address address port.now }
{
    match &port.claim {
        Claim::Device(listed) => listed.address == address,
        Claim::Refused => false,
    }
}

/// Whether what is said of a device that is plugged is wrong for a cause.
fn breaks_port(device: &PluggedDevice<'_>, claim: &Claim, cause: Cause) -> bool
    ensures { result ≡ breaks_port (device_seen device.now) claim.now cause }
{
    match claim {
        Claim::Device(listed) => breaks_device(device, listed, cause),
        Claim::Refused => breaks_refusal(device, cause),
    }
}

/// Whether what is said of an accepted device is wrong for a cause.
fn breaks_device(device: &PluggedDevice<'_>, listed: &ListedDevice, cause: Cause) -> bool
    ensures { result ≡ breaks_device (device_seen device.now) listed.now cause }
{
    match cause {
        Cause::Disabled => !device.reached,
        Cause::OtherDescriptor => listed.descriptor.as_slice() != device.head(),
        Cause::OtherSpeed => listed.low != device.low,
        Cause::OtherAddress => listed.address == 0 || listed.address != device.address,
        Cause::OtherConfiguration => !is_own_configuration(device, listed),
        Cause::OtherPorts => has_other_ports(device, listed),
        Cause::TooMuchPower => draws_too_much(device),
        _ => false,
    }
}

/// Whether a refused device is wrong for a cause: it draws too much power, or is still reached at
/// address 0.
fn breaks_refusal(device: &PluggedDevice<'_>, cause: Cause) -> bool
    ensures { result ≡ breaks_refusal (device_seen device.now) cause }
{
    match cause {
        Cause::TooMuchPower => draws_too_much(device),
        Cause::LeftEnabled => device.reached && device.address == 0,
        _ => false,
    }
}

/// Whether the configuration that is said is that of the device, or none is said.
fn is_own_configuration(device: &PluggedDevice<'_>, listed: &ListedDevice) -> bool
    ensures { result ≡ is_own_configuration (device_seen device.now) listed.now }
{
    match (&listed.configuration, device.configuration) {
        (None, _) => true,
        (Some(_), None) => false,
        (Some(said), Some(own)) => is_front(said.as_slice(), own),
    }
}

/// Whether the bytes are a configuration descriptor at least, and the first ones of the others.
fn is_front(said: &[u8], own: &[u8]) -> bool
    ensures { result ≡ is_front said.now own.now }
{
    said.len() >= CONFIGURATION_LENGTH && own.starts_with(said)
}

/// Whether the listing gives a number of ports that is not the device's; false if it gives none.
fn has_other_ports(device: &PluggedDevice<'_>, listed: &ListedDevice) -> bool
    ensures { result ≡ has_other_ports (device_seen device.now) listed.now }
{
    match listed.ports {
        Some(ports) => ports != device.ports,
        None => false,
    }
}

/// Whether the device is reached, and its configuration needs more than its port gives.
fn draws_too_much(device: &PluggedDevice<'_>) -> bool
    ensures { result ≡ draws_too_much (device_seen device.now) }
{
    match device.configuration {
        Some(text) => device.reached && need(text) > device.supply,
        None => false,
    }
}

/// What a configuration needs, in mA: bMaxPower counts 2 mA (9.6.3).
fn need(text: &[u8]) -> u16
    ensures { result ≡ need_in text.now }
{
    match text.get(8) {
        Some(power) => 2 * u16::from(*power),
        None => 0,
    }
}
