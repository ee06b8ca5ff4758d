//! The way to a device.
ghost use Rattle.std.specs.Prelude.{◌≡◌, ◌∷◌, []};
ghost use Rattle.usb_device.specs.Tree.{numbered, reach, row_of};
ghost use Rattle.usb_verdict.specs.Ways.{is_enabled, reach_from};

use usb_function::{Device, Ports};

/// Whether a device is at a path, and each port on its way is enabled.
#[tactic(auto, using(crate::proofs::Ways::reach_step))]
pub(crate) fn is_reached(roots: &Ports, path: &[u8]) -> bool
    ensures { result ≡ reach roots.now path.now }
{
    let Some((number, rest)) = path.split_first() else {
        return false;
    };
    match (roots.port(*number), roots.device_at(&[*number])) {
        (Some(port), Some(device)) => port.is_enabled() && is_reached_from(device, rest),
        _ => false,
    }
}

/// The same of a path that begins at a device's ports; the device itself is reached.
#[tactic(auto, using(crate::proofs::Ways::reach_step))]
fn is_reached_from(device: &Device, path: &[u8]) -> bool
    ensures { result ≡ reach_from device.now.ports path.now }
{
    let Some((number, rest)) = path.split_first() else {
        return true;
    };
    match device.child(*number) {
        Some(child) => is_enabled(device, *number) && is_reached_from(child, rest),
        None => false,
    }
}

/// Whether a device has a port of this number, and it is enabled.
fn is_enabled(device: &Device, number: u8) -> bool
    ensures { result ≡ is_enabled (numbered (row_of device.now.ports) number) }
{
    match device.port_bytes(number) {
        Some(bytes) => bytes[0] >= 2,
        None => false,
    }
}
