//! All devices that are plugged.
ghost use Rattle.std.specs.Prelude.{ℕ, List, ◌≡◌, ◌∷◌, ◌++◌, [], IfOk, OnOk, Some, None, if◌then◌else◌, option_map, slice_get};
ghost use Rattle.usb_sim.specs.Sim.{world_of};
ghost use Rattle.usb_judge.specs.Scenes.{scene_in};
ghost use Rattle.usb_judge.specs.Worlds.{ArePlugged, names_port, scene_on};
ghost use Rattle.usb_verdict.specs.Growth.{Adds, AddsPorts, numbers_on};
ghost use Rattle.usb_verdict.specs.Once.{ListsOnce};

use crate::seen::device_on;
use std::alloc::{AllocError, Global};
use usb_function::Ports;
use usb_judge::PluggedDevice;
use usb_port::PortPath;
use usb_sim::{SimBus, Trace};

/// The devices that are plugged in a simulated bus, as they are now, each of them once. A hub is
/// before what is below it.
///
/// # Errors
///
/// Memory was refused.
pub fn plugged<T: Trace>(
    alloc: Global,
    bus: &SimBus<T>,
) -> Result<Vec<PluggedDevice<'_>>, AllocError>
    ensures are { IfOk result (λ all. ArePlugged all.items (world_of bus.now)) }
    ensures once { IfOk result (λ all. ListsOnce all.items) }
{
    all_on(alloc, bus.roots())
}

/// All devices below the root ports, each once, a hub before those on its ports. Err if memory is
/// refused.
fn all_on(alloc: Global, roots: &Ports) -> Result<Vec<PluggedDevice<'_>>, AllocError>
    ensures are { IfOk result (λ all.
        (path : List ℕ) → scene_in all.items path ≡ scene_on roots.now path) }
    ensures once { IfOk result (λ all. ListsOnce all.items) }
{
    let mut found = Vec::new(alloc);
    add_ports(&mut found, roots, &None)?;
    'devices: for i in 0..usize::MAX {
        match path_at(found.as_slice(), i) {
            Some(above) => add_ports(&mut found, roots, &Some(above))?,
            None => return Ok(found),
        }
    }
    Ok(found)
}

/// The path of a device, by its place; None if there are no more of them.
fn path_at(found: &[PluggedDevice<'_>], i: usize) -> Option<PortPath>
    ensures { result ≡ option_map (λ device. device.path) (slice_get found.now i) }
{
    match found.get(i) {
        Some(device) => Some(device.path.duplicate()),
        None => None,
    }
}

/// Adds the devices on the ports of a hub, or of the root.
fn add_ports<'a>(
    found: &mut Vec<PluggedDevice<'a>>,
    roots: &'a Ports,
    above: &Option<PortPath>,
) -> Result<(), AllocError>
    ensures { OnOk result
        (AddsPorts roots.now (numbers_on above.now) 16 found.old.items found.new.items) }
{
    'ports: for before in 0..15 {
        add_port(found, roots, above, before + 1)?;
    }
    Ok(())
}

/// Adds the device on the port of a number, if one is plugged there.
fn add_port<'a>(
    found: &mut Vec<PluggedDevice<'a>>,
    roots: &'a Ports,
    above: &Option<PortPath>,
    number: u8,
) -> Result<(), AllocError>
    ensures { OnOk result (Adds roots.now (numbers_on above.now ++ number ∷ []) found.old.items
        found.new.items) }
{
    match port_below(above, number) {
        Some(path) => add_at(found, roots, &path),
        None => Ok(()),
    }
}

/// The path of a port of a hub, or of the root, by its number; None if there is no such path.
fn port_below(above: &Option<PortPath>, number: u8) -> Option<PortPath>
    ensures { let path = numbers_on above.now ++ number ∷ [] in
        result ≡ (if names_port path then Some path else None) }
{
    match above {
        None => PortPath::root(number),
        Some(hub) => {
            let mut path = hub.duplicate();
            if !path.push(number) {
                return None;
            }
            // What every path keeps.
            path.numbers();
            Some(path)
        }
    }
}

/// Adds the device at a path, if one is plugged there.
fn add_at<'a>(
    found: &mut Vec<PluggedDevice<'a>>,
    roots: &'a Ports,
    path: &PortPath,
) -> Result<(), AllocError>
    ensures { OnOk result (Adds roots.now path.now found.old.items found.new.items) }
{
    if let Some(device) = device_on(roots, path) {
        found.push(device)?;
    }
    Ok(())
}
