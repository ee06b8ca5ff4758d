//! What a driver looks for in a configuration, and what it finds (9.6.5, 9.6.6).
ghost use Rattle.std.specs.Prelude.{◌≡◌};
ghost use Rattle.usb_class_drivers.specs.Interfaces.{packet_size_of};
ghost use Rattle.usb_class_drivers.specs.Transports.{packets_of};

use std::marker::Model;
use usb_descriptor::EndpointKind;
use usb_request::EndpointAddress;

/// bInterfaceClass, bInterfaceSubClass and bInterfaceProtocol of an interface, and how the endpoints
/// of it that are looked for move data.
#[derive(Clone, Copy)]
pub(crate) struct Kind {
    pub class: u8,
    pub subclass: u8,
    pub protocol: u8,
    pub transfer: EndpointKind,
}

/// The most bytes of an endpoint's packets, 1 to 64.
#[derive(Clone, Copy, Debug)]
pub(crate) struct PacketSize {
    bytes: u8,
}

impl Model for PacketSize {
    ghost use Rattle.std.specs.Prelude.{ℕ, ◌≤◌};

    ghost Value = { ℕ };

    ghost view = { λ size. size.bytes };

    ghost invariant = { λ size. (1 ≤ size.bytes) × (size.bytes ≤ 64) };

    ghost inverse = { λ n. record { bytes = n } };
}

impl PacketSize {
    /// The size of so many bytes; `None` if a pipe can't have it.
    pub fn new(bytes: u16) -> Option<PacketSize>
        ensures { result ≡ packet_size_of bytes }
    {
        if (1..=64).contains(&bytes) {
            Some(PacketSize { bytes: bytes as u8 })
        } else {
            None
        }
    }

    /// How many packets bring so many bytes, as far as one call of the host asks for them.
    pub fn packets_of(self, bytes: u32) -> u16
        ensures { result ≡ packets_of self bytes }
    {
        let packets = bytes.div_ceil(u32::from(self.bytes));
        if packets < 65536 {
            packets as u16
        } else {
            u16::MAX
        }
    }
}

/// An endpoint, and the most bytes of its packets.
#[derive(Clone, Copy, Debug)]
pub(crate) struct End {
    pub address: EndpointAddress,
    pub most: PacketSize,
}

/// An interface, and its first endpoints of each direction that move data as was looked for.
#[derive(Clone, Copy)]
pub(crate) struct Interface {
    /// bInterfaceNumber.
    pub number: u8,
    pub into: Option<End>,
    pub out: Option<End>,
}
