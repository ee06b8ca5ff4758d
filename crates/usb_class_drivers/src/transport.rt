//! Bulk-Only Transport: a command goes out in a wrapper, its data follow, and then its status comes
//! back.
ghost use Rattle.std.specs.Prelude.{◌≡◌, ◌<◌, ◌^◌, length, true};
ghost use Rattle.usb_host.specs.Numbers.{device_in};
ghost use Rattle.usb_host.specs.Progress.{known_in};
ghost use Rattle.usb_class_drivers.specs.Transports.{Collects, Concludes, Gives, Puts, Recovers};
ghost use Rattle.usb_class_drivers.specs.Transports.{SendsCommand, Takes, came, put, taken};
ghost use Rattle.usb_class_drivers.specs.Transports.{transport_at, went, with_next_tag};

use crate::command::Command;
use crate::fault::{DriverFault, driver_told, is_stalled};
use crate::found::{End, Kind};
use crate::interface::interface_of;
use crate::place::Place;
use crate::request::class_request;
use crate::status::residue_of;
use usb_bus::Bus;
use usb_descriptor::EndpointKind;
use usb_host::{Host, HostFault, PortPath};

/// A disk's interface: transparent SCSI commands by Bulk-Only Transport.
const DISK: Kind = Kind {
    class: 8,
    subclass: 6,
    protocol: 0x50,
    transfer: EndpointKind::Bulk,
};

/// Bulk-Only Mass Storage Reset (Bulk-Only Transport, 3.1).
const RESET: u8 = 0xff;

/// A disk that takes commands by Bulk-Only Transport.
#[derive(Debug, Drop)]
pub(crate) struct Transport {
    pub place: Place,
    pub interface: u8,
    pub out: End,
    pub into: End,
    /// The tag of the next command.
    pub tag: u32,
}

impl Transport {
    /// The disk at a path.
    pub fn of<B: Bus>(host: &Host<B>, path: &PortPath) -> Result<Transport, DriverFault>
        ensures { result ≡ transport_at path.now (device_in path.now (known_in host.now)) }
    {
        let Some(place) = Place::of(host, path) else {
            return Err(DriverFault::Gone);
        };
        let Some(found) = interface_of(host, path, DISK) else {
            return Err(DriverFault::Alien);
        };
        let (Some(out), Some(into)) = (found.out, found.into) else {
            return Err(DriverFault::Alien);
        };
        Ok(Transport {
            place,
            interface: found.number,
            out,
            into,
            tag: 1,
        })
    }

    /// Sends a command, collects its data, and then asks for its status.
    pub fn take<B: Bus>(
        &mut self,
        host: &mut Host<B>,
        command: Command,
        length: u32,
    ) -> Result<Vec<u8>, DriverFault>
        ensures takes { Takes B.modelled self.old command length host.old result host.new }
        ensures tag { self.new ≡ with_next_tag self.old }
    {
        let tag = self.tag;
        self.ask(host, command, length)?;
        let came = self.collect(host, length)?;
        let status = self.conclude(host)?;
        taken(length, came, residue_of(status.as_slice(), tag, length))
    }

    /// Sends a command, gives it its data, and then asks for its status.
    pub fn put<B: Bus>(
        &mut self,
        host: &mut Host<B>,
        command: Command,
        bytes: &[u8],
    ) -> Result<(), DriverFault>
        requires { length bytes.now < 2 ^ 32 }
        ensures puts { Puts B.modelled self.old command bytes.now host.old result host.new }
        ensures tag { self.new ≡ with_next_tag self.old }
    {
        let tag = self.tag;
        let length = bytes.len() as u32;
        self.ask(host, command, length)?;
        let whole = self.give(host, bytes)?;
        let answer = self.conclude(host)?;
        put(whole, residue_of(answer.as_slice(), tag, length))
    }

    /// Lets disk and host begin again with the next command, whatever went wrong (5.3.4): a reset,
    /// and then both halts are cleared.
    pub fn recover<B: Bus>(&self, host: &mut Host<B>) -> Result<(), DriverFault>
        ensures { Recovers B.modelled self.now host.old result host.new }
    {
        let reset = class_request(self.interface, RESET, 0, 0);
        self.place.write(host, reset, &[])?;
        self.place.clear(host, self.into.address)?;
        driver_told(self.place.clear(host, self.out.address))
    }

    /// Sends a command in its wrapper, with a tag of its own.
    fn ask<B: Bus>(
        &mut self,
        host: &mut Host<B>,
        command: Command,
        length: u32,
    ) -> Result<(), HostFault>
        ensures sends { SendsCommand B.modelled self.old command length host.old result host.new }
        ensures tag { self.new ≡ with_next_tag self.old }
    {
        let wrapper = command.wrapper(self.tag, length);
        self.tag = self.tag.wrapping_add(1);
        self.place.send(host, self.out.address, &wrapper)
    }

    /// Collects data; `None` if the endpoint halted, which is cleared (6.7.2).
    fn collect<B: Bus>(&self, host: &mut Host<B>, length: u32) -> Result<Option<Vec<u8>>, HostFault>
        ensures { Collects B.modelled self.now length host.old result host.new }
    {
        let packets = self.into.most.packets_of(length);
        let received = self.place.receive(host, self.into.address, packets);
        if is_stalled(&received) {
            self.place.clear(host, self.into.address)?;
            Ok(None)
        } else {
            came(received)
        }
    }

    /// Gives data, and returns whether all of them went out; if not, the endpoint halted, which is
    /// cleared (6.7.3).
    fn give<B: Bus>(&self, host: &mut Host<B>, bytes: &[u8]) -> Result<bool, HostFault>
        ensures { Gives B.modelled self.now bytes.now host.old result host.new }
    {
        let sent = self.place.send(host, self.out.address, bytes);
        if is_stalled(&sent) {
            self.place.clear(host, self.out.address)?;
            Ok(false)
        } else {
            went(sent)
        }
    }

    /// Asks for the status of the command. If the endpoint halted, that is cleared, and the status
    /// is asked for once more (6.7, figure 2).
    fn conclude<B: Bus>(&self, host: &mut Host<B>) -> Result<Vec<u8>, HostFault>
        ensures { Concludes B.modelled self.now host.old result host.new }
    {
        let first = self.place.receive(host, self.into.address, 1);
        if is_stalled(&first) {
            self.place.clear(host, self.into.address)?;
            self.place.receive(host, self.into.address, 1)
        } else {
            first
        }
    }
}

/// The data that came.
fn came(received: Result<Vec<u8>, HostFault>) -> Result<Option<Vec<u8>>, HostFault>
    ensures { result ≡ came received }
{
    match received {
        Ok(bytes) => Ok(Some(bytes)),
        Err(fault) => Err(fault),
    }
}

/// That all the data went out, if they did.
fn went(sent: Result<(), HostFault>) -> Result<bool, HostFault>
    ensures { result ≡ went true sent }
{
    match sent {
        Ok(()) => Ok(true),
        Err(fault) => Err(fault),
    }
}

/// The data that came for a command, if they are all that was asked for.
fn taken(
    asked: u32,
    came: Option<Vec<u8>>,
    told: Result<u32, DriverFault>,
) -> Result<Vec<u8>, DriverFault>
    ensures { result ≡ taken asked came told }
{
    let residue = match told {
        Ok(residue) => residue,
        Err(fault) => return Err(fault),
    };
    match came {
        None => Err(DriverFault::Short),
        Some(bytes) if bytes.len() > asked as usize => Err(DriverFault::OutOfStep),
        Some(bytes) if bytes.len() == asked as usize && residue == 0 => Ok(bytes),
        Some(_) => Err(DriverFault::Short),
    }
}

/// Whether a disk took all the data of a command.
fn put(whole: bool, told: Result<u32, DriverFault>) -> Result<(), DriverFault>
    ensures { result ≡ put whole told }
{
    match told {
        Ok(residue) => {
            if whole && residue == 0 {
                Ok(())
            } else {
                Err(DriverFault::Short)
            }
        }
        Err(fault) => Err(fault),
    }
}
