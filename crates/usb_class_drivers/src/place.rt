//! The device that a driver was given, and the host's calls for it.
ghost use Rattle.std.specs.Prelude.{◌≡◌, ◌<◌, None, IfSome, IfNone, Ok, Err, length, true, if◌then◌else◌};
ghost use Rattle.usb_request.specs.Layout.{IsToDevice};
ghost use Rattle.usb_host.specs.Numbers.{device_in};
ghost use Rattle.usb_host.specs.Progress.{known_in};
ghost use Rattle.usb_class_drivers.specs.Calls.{Clears, Polls, Receives, Sends, Writes};
ghost use Rattle.usb_class_drivers.specs.Places.{is_there, place_at};
ghost use Rattle.usb_class_drivers.specs.declared.fault.DriverFault.TheVariants.{Gone};

use crate::fault::DriverFault;
use arrayvec::ArrayVec;
use usb_bus::Bus;
use usb_host::{Host, HostFault, PortPath};
use usb_request::{EndpointAddress, Setup};

/// The device that a driver was given: its path, and the number that its host gave to it and to no
/// other.
#[derive(Debug, Drop)]
pub struct Place {
    pub path: PortPath,
    pub number: u64,
}

impl Place {
    /// The device that a host lists at a path; `None` if it lists none there.
    pub fn of<B: Bus>(host: &Host<B>, path: &PortPath) -> Option<Place>
        ensures value { result ≡ place_at path.now (device_in path.now (known_in host.now)) }
        ensures some { IfSome result (λ place. (place.path ≡ path.now)
            × (is_there place host.now ≡ true)) }
        ensures none { IfNone result (device_in path.now (known_in host.now) ≡ None) }
        ensures listed { device_in path.now (known_in host.now) ≡ None → result ≡ None }
    {
        let device = host.device(path)?;
        Some(Place {
            path: path.duplicate(),
            number: device.number(),
        })
    }

    /// Whether the host lists that very device there, and not another one that is like it.
    pub fn is_there<B: Bus>(&self, host: &Host<B>) -> bool
        ensures { result ≡ is_there self.now host.now }
    {
        match host.device(&self.path) {
            Some(device) => device.number() == self.number,
            None => false,
        }
    }

    /// The same, with `Gone` if it does not.
    pub(crate) fn check<B: Bus>(&self, host: &Host<B>) -> Result<(), DriverFault>
        ensures { result ≡ (if is_there self.now host.now then Ok tt else Err Gone) }
    {
        if self.is_there(host) {
            Ok(())
        } else {
            Err(DriverFault::Gone)
        }
    }

    /// Sends bytes to an OUT endpoint.
    pub(crate) fn send<B: Bus>(
        &self,
        host: &mut Host<B>,
        endpoint: EndpointAddress,
        bytes: &[u8],
    ) -> Result<(), HostFault>
        ensures { Sends B.modelled self.now.path endpoint bytes.now host.old result host.new }
    {
        host.send_to(&self.path, endpoint, bytes)
    }

    /// Receives packets from a bulk IN endpoint.
    pub(crate) fn receive<B: Bus>(
        &self,
        host: &mut Host<B>,
        endpoint: EndpointAddress,
        packets: u16,
    ) -> Result<Vec<u8>, HostFault>
        ensures { Receives B.modelled self.now.path endpoint packets host.old result host.new }
    {
        host.receive_from(&self.path, endpoint, packets)
    }

    /// Asks an interrupt IN endpoint once.
    pub(crate) fn poll<B: Bus>(
        &self,
        host: &mut Host<B>,
        endpoint: EndpointAddress,
    ) -> Result<Option<ArrayVec<u8, 64>>, HostFault>
        ensures { Polls B.modelled self.now.path endpoint host.old result host.new }
    {
        host.poll(&self.path, endpoint)
    }

    /// Clears the halt of an endpoint.
    pub(crate) fn clear<B: Bus>(
        &self,
        host: &mut Host<B>,
        endpoint: EndpointAddress,
    ) -> Result<(), HostFault>
        ensures { Clears B.modelled self.now.path endpoint host.old result host.new }
    {
        host.clear_halt_of(&self.path, endpoint)
    }

    /// Makes a request, with these bytes.
    pub(crate) fn write<B: Bus>(
        &self,
        host: &mut Host<B>,
        request: Setup,
        bytes: &[u8],
    ) -> Result<(), HostFault>
        requires writes { IsToDevice request }
        requires all { request.length ≡ length bytes.now }
        ensures { Writes B.modelled self.now.path request bytes.now host.old result host.new }
    {
        host.control_out(&self.path, request, bytes)
    }
}
