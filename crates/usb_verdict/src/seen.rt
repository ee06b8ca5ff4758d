//! A device as the verdict sees it.
ghost use Rattle.std.specs.Prelude.{◌≡◌, ◌==◌, IfSome, option_map, if◌then◌else◌};
ghost use Rattle.usb_port.specs.Order.{parent_of};
ghost use Rattle.usb_device.specs.Bulk.{has_value, text_of, text_with, total_of};
ghost use Rattle.usb_device.specs.DeviceSpecs.{hub_ports};
ghost use Rattle.usb_device.specs.Tree.{reach};
ghost use Rattle.usb_judge.specs.Scenes.{device_seen};
ghost use Rattle.usb_judge.specs.Worlds.{configuration_in, given_below, scene_on, state_seen};

use crate::way::is_reached;
use usb_device::Bytes;
use usb_function::{Device, Ports};
use usb_judge::PluggedDevice;
use usb_port::{PortPath, supply};
use usb_scene::DeviceSpec;

/// The device at a path; None if none is plugged there.
pub(crate) fn device_on<'a>(roots: &'a Ports, path: &PortPath) -> Option<PluggedDevice<'a>>
    ensures seen { option_map device_seen result ≡ scene_on roots.now path.now }
    ensures at { IfSome result (λ device. device.path ≡ path.now) }
{
    match roots.device_at(path.numbers()) {
        Some(device) => Some(seen_at(roots, path, device)),
        None => None,
    }
}

/// A device as it is seen at a path.
fn seen_at<'a>(roots: &Ports, path: &PortPath, device: &'a Device) -> PluggedDevice<'a>
    ensures seen { device_seen result ≡ state_seen (reach roots.now path.now)
        (given_below roots.now (parent_of path.now)) device.now.own }
    ensures at { result.path ≡ path.now }
{
    PluggedDevice {
        path: path.duplicate(),
        low: device.is_low(),
        descriptor: device.spec().descriptor(),
        configuration: configuration(device),
        ports: hub_ports(device.spec()),
        supply: supply_at(roots, path),
        address: device.address(),
        reached: is_reached(roots, path.numbers()),
    }
}

/// How many ports a device has.
fn hub_ports(spec: &DeviceSpec) -> u8
    ensures { result ≡ hub_ports spec.now.hub }
{
    match spec.hub() {
        Some(hub) => hub.ports(),
        None => 0,
    }
}

/// What the port of a path gives, in mA (7.2.1).
fn supply_at(roots: &Ports, path: &PortPath) -> u16
    ensures { result ≡ given_below roots.now (parent_of path.now) }
{
    match path.parent() {
        None => supply(true, false),
        Some(hub) => match roots.device_at(hub.numbers()) {
            Some(device) => supply(false, device.spec().is_self_powered()),
            None => supply(false, false),
        },
    }
}

/// The text of the configuration that a device has; None if it has none (9.4.7).
fn configuration(device: &Device) -> Option<&[u8]>
    ensures { option_map (λ text. text.now) result ≡ configuration_in device.now.own }
{
    let value = device.configuration();
    if value == 0 {
        return None;
    }
    let text = text_with(value, device.spec().configs());
    let length = total_of(text).min(text.len());
    Some(&text[..length])
}

/// The first text of a configuration of this value; no bytes if there is none.
fn text_with(value: u8, texts: &[Bytes<65535>]) -> &[u8]
    ensures { result.now ≡ text_with value texts.now }
{
    let Some((text, rest)) = texts.split_first() else {
        return &[];
    };
    if has_value(value, text.as_slice()) {
        text.as_slice()
    } else {
        text_with(value, rest)
    }
}

/// Whether a text has this bConfigurationValue, its byte 5 (9.6.3).
fn has_value(value: u8, text: &[u8]) -> bool
    ensures { result ≡ has_value value text.now }
{
    text.len() > 5 && text[5] == value
}

/// wTotalLength of a text, its bytes 2 and 3 (9.6.3); 0 if it has no fourth byte.
fn total_of(text: &[u8]) -> usize
    ensures { result ≡ total_of text.now }
{
    if text.len() < 4 {
        0
    } else {
        usize::from(u16::from_le_bytes([text[2], text[3]]))
    }
}
