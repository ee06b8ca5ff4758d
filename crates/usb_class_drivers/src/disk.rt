//! A driver of a disk by Bulk-Only Transport.
ghost use Rattle.std.specs.Prelude.{◌≡◌, ◌*◌, true, false, None, Ok, Err, if◌then◌else◌};
ghost use Rattle.usb_host.specs.Numbers.{device_in};
ghost use Rattle.usb_host.specs.Progress.{known_in};
ghost use Rattle.usb_class_drivers.specs.Disks.{AsksSize, DiskOpens, SizeTold, WritesBlocks};
ghost use Rattle.usb_class_drivers.specs.Disks.{is_failed, next_disk};
ghost use Rattle.usb_class_drivers.specs.Places.{is_there};
ghost use Rattle.usb_class_drivers.specs.Transports.{Recovers, Takes, transport_at};
ghost use Rattle.usb_class_drivers.specs.declared.fault.DriverFault.TheVariants.{Gone};
ghost use Rattle.usb_class_drivers.specs.declared.command.Command.TheVariants.{Read};

use crate::capacity::{Capacity, capacity_of};
use crate::command::Command;
use crate::fault::DriverFault;
use crate::transport::Transport;
use usb_bus::Bus;
use usb_host::{Host, PortPath};

/// How often a disk is asked for its size.
const TRIES: u8 = 3;

/// A disk.
#[derive(Debug, Drop)]
pub struct Disk {
    transport: Transport,
    capacity: Capacity,
}

impl Disk {
    /// Takes the disk at a path, and asks how large it is.
    ///
    /// # Errors
    ///
    /// - `Gone`: no accepted device is at the path.
    /// - `Alien`: it is no disk by Bulk-Only Transport, or its blocks have no byte or more than 2,048.
    /// - `Host`, `Failed`, `Short`, `OutOfStep`: the question for its size ended so.
    pub fn open<B: Bus>(host: &mut Host<B>, path: &PortPath) -> Result<Disk, DriverFault>
        ensures gone { device_in path.now (known_in host.old) ≡ None
            → (result ≡ Err Gone) × (host.new ≡ host.old) }
        ensures opens { DiskOpens B.modelled
            (transport_at path.now (device_in path.now (known_in host.old)))
            host.old result host.new }
    {
        let transport = Transport::of(host, path)?;
        Disk::sized(host, transport)
    }

    /// How large it is.
    pub fn capacity(&self) -> Capacity
        ensures { result ≡ self.now.capacity }
    {
        self.capacity
    }

    /// Reads up to 255 blocks.
    ///
    /// # Errors
    ///
    /// - `Gone`: another device is there, or none. Nothing is attempted.
    /// - `Host`: a call of the host failed.
    /// - `Failed`: the disk could not do it, as if it has no such block.
    /// - `Short`: it gave fewer bytes.
    /// - `OutOfStep`: what came is no status of the command, the disk says that it is out of step, or it
    ///   gave more bytes.
    ///
    /// After `Host` and `OutOfStep` the disk has to be recovered.
    pub fn read<B: Bus>(
        &mut self,
        host: &mut Host<B>,
        first: u32,
        blocks: u8,
    ) -> Result<Vec<u8>, DriverFault>
        ensures gone { is_there self.old.transport.place host.old ≡ false
            → (result ≡ Err Gone) × (host.new ≡ host.old) }
        ensures takes { is_there self.old.transport.place host.old ≡ true
            → Takes B.modelled self.old.transport (Read first blocks)
            (blocks * self.old.capacity.block) host.old result host.new }
        ensures tag { self.new ≡ (if is_there self.old.transport.place host.old
            then next_disk self.old else self.old) }
    {
        self.transport.place.check(host)?;
        let command = Command::Read {
            first,
            blocks: u16::from(blocks),
        };
        let length = u32::from(blocks) * u32::from(self.capacity.block);
        self.transport.take(host, command, length)
    }

    /// Writes up to 255 blocks, whose bytes these are.
    ///
    /// # Errors
    ///
    /// - `Short`: these are not the bytes of whole blocks, or more than 255, and nothing is attempted.
    ///   Or the disk took fewer bytes.
    /// - The others as for `read`. What a failed write left of the blocks only the disk can say.
    pub fn write<B: Bus>(
        &mut self,
        host: &mut Host<B>,
        first: u32,
        bytes: &[u8],
    ) -> Result<(), DriverFault>
        ensures gone { is_there self.old.transport.place host.old ≡ false
            → (result ≡ Err Gone) × (host.new ≡ host.old) × (self.new ≡ self.old) }
        ensures writes { is_there self.old.transport.place host.old ≡ true
            → WritesBlocks B.modelled self.old first bytes.now host.old result self.new host.new }
    {
        self.transport.place.check(host)?;
        let Some(blocks) = self.capacity.blocks_of(bytes.len()) else {
            return Err(DriverFault::Short);
        };
        let command = Command::Write {
            first,
            blocks: u16::from(blocks),
        };
        self.transport.put(host, command, bytes)
    }

    /// Lets disk and host begin again with the next command, whatever went wrong (Bulk-Only
    /// Transport, 5.3.4): a reset, and then both halts are cleared.
    ///
    /// # Errors
    ///
    /// - `Gone`: another device is there, or none. Nothing is attempted.
    /// - `Host`: a call of the host failed.
    pub fn recover<B: Bus>(&self, host: &mut Host<B>) -> Result<(), DriverFault>
        ensures gone { is_there self.now.transport.place host.old ≡ false
            → (result ≡ Err Gone) × (host.new ≡ host.old) }
        ensures recovers { is_there self.now.transport.place host.old ≡ true
            → Recovers B.modelled self.now.transport host.old result host.new }
    {
        self.transport.place.check(host)?;
        self.transport.recover(host)
    }

    /// Asks how large a disk is. One that is new fails its first command, to say so.
    fn sized<B: Bus>(host: &mut Host<B>, transport: Transport) -> Result<Disk, DriverFault>
        ensures { AsksSize B.modelled transport host.old result host.new }
    {
        let mut transport = transport;
        'tries: for tries in 0..TRIES {
            let told = transport.take(host, Command::Capacity, 8);
            if !is_failed(&told) {
                return size_told(transport, told);
            }
        }
        Err(DriverFault::Failed)
    }
}

/// Whether a disk could not do a command.
fn is_failed<T>(told: &Result<T, DriverFault>) -> bool
    ensures { result ≡ is_failed told.now }
{
    match told {
        Err(DriverFault::Failed) => true,
        _ => false,
    }
}

/// The disk, if it gave its size.
fn size_told(transport: Transport, told: Result<Vec<u8>, DriverFault>) -> Result<Disk, DriverFault>
    ensures { SizeTold transport told result }
{
    match told {
        Ok(bytes) => match capacity_of(bytes.as_slice()) {
            Some(capacity) => Ok(Disk {
                transport,
                capacity,
            }),
            None => Err(DriverFault::Alien),
        },
        Err(fault) => Err(fault),
    }
}
