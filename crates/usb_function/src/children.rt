//! The device on a port, to write to.
ghost use Rattle.std.specs.Prelude.{◌≡◌, ◌<◌, ℕ, [], length, Option, Some, IsSome, is_some};
ghost use Rattle.std.specs.Option.{option_copied_mut};
ghost use Rattle.std.specs.Borrow.{sem, Lends, LendsIf};
ghost use Rattle.std.specs.contracts.option.Option.{the_row as option_row};
ghost use Rattle.usb_device.specs.Tree.{Plugged, row_of, plugged_at, child_of};
ghost use Rattle.usb_device.specs.Loans.{with_device_on};
ghost use Rattle.usb_function.specs.Loans.{LendsPlace, LendsInner};
ghost use Rattle.usb_function.specs.contracts.device.Device.{the_row as device_row};

use crate::device::Device;
use crate::ports::Ports;

impl Ports {
    /// What is on a port, counted from 0, to write to. The port keeps its bits, whatever is
    /// written.
    fn place_mut(&mut self, i: usize) -> &mut Option<Device>
        requires { i < length (row_of self.old) }
        ensures* lends { sem 𝓛 (LendsPlace self.entry i result) }
        ensures value { result.now ≡ plugged_at self.old i [] }
    {
        &mut self.places[i].device
    }
}

/// The device that is there, to write to.
fn taken(place: &mut Option<Device>) -> &mut Device
    requires { IsSome place.old }
    ensures value { place.old ≡ Some result.now }
    ensures* lends { sem 𝓛 (LendsInner place.entry result) }
{
    match place {
        Some(device) => device,
        None => unreachable!(),
    }
}

/// What has devices on its ports.
pub trait Parent {
    ghost child_on: { Self → ℕ → Option Plugged };

    ghost with_on: { Self → ℕ → Option Plugged → Self };

    /// Whether a device is on a port, by its number, counted from 1.
    fn has_child(&self, port: u8) -> bool
        ensures { result ≡ is_some (child_on self.now port) };

    /// What is on a port with a device, to write to. The port keeps its bits, whatever is
    /// written.
    fn place_of(&mut self, port: u8) -> &mut Option<Device>
        requires { IsSome (child_on self.old port) }
        ensures* lends { sem 𝓛 (Lends Self.row (option_row device_row) self.entry result
            (with_on self.old port)) }
        ensures value { result.now ≡ child_on self.old port };

    /// The device on a port that has one, to write to.
    final fn taken_mut(&mut self, port: u8) -> &mut Device
        requires { IsSome (child_on self.old port) }
        ensures* lends { sem 𝓛 (Lends Self.row device_row self.entry result
            (λ w. with_on self.old port (Some w))) }
        ensures value { child_on self.old port ≡ Some result.now }
    {
        taken(self.place_of(port))
    }

    /// The device on a port, by its number, counted from 1, to write to; None if nothing is. The
    /// port keeps its bits, whatever is written.
    final fn child_mut(&mut self, port: u8) -> Option<&mut Device>
        ensures* lends { sem 𝓛 (LendsIf Self.row device_row self.entry result
            (λ w. with_on self.old port (Some w)) self.old) }
        ensures value { option_copied_mut result ≡ child_on self.old port }
    {
        if self.has_child(port) {
            Some(self.taken_mut(port))
        } else {
            None
        }
    }
}

impl Parent for Device {
    ghost child_on = { child_of };

    ghost with_on = { with_device_on };

    fn has_child(&self, port: u8) -> bool {
        self.has_child(port)
    }

    fn place_of(&mut self, port: u8) -> &mut Option<Device> {
        self.ports.place_mut(usize::from(port - 1))
    }
}
