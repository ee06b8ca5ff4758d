//! Values of bEndpointAddress (9.6.6): the direction in bit 7, the number in bits 3 to 0.
ghost use Rattle.std.specs.Prelude.{◌≡◌, ◌≤◌, ◌%◌, nat_le, true, Some, None, if◌then◌else◌};
ghost use Rattle.usb_request.specs.EndpointAddresses.{is_endpoint_address};

use std::marker::Model;

/// Bit 7: data go to the host. It says the same in bmRequestType (9.3.1).
pub const DIRECTION_IN: u8 = 0x80;

/// The interrupt IN endpoint by which a hub reports changes at its ports (11.12.1).
pub const STATUS_ENDPOINT: u8 = 0x81;

/// bEndpointAddress of an endpoint besides endpoint 0: a direction, and a number of 1 to 15.
#[derive(Clone, Copy, Debug, PartialEq, Eq)]
pub struct EndpointAddress {
    byte: u8,
}

impl Model for EndpointAddress {
    ghost use Rattle.std.specs.Prelude.{ℕ, ◌≡◌, true};
    ghost use Rattle.usb_request.specs.EndpointAddresses.{is_endpoint_address};

    ghost Value = { ℕ };

    ghost view = { λ a. a.byte };

    ghost invariant = { λ a. is_endpoint_address a.byte ≡ true };

    ghost inverse = { λ n. record { byte = n } };
}

impl EndpointAddress {
    /// The address with this value; None if its number is 0, or a reserved bit is set.
    pub fn new(byte: u8) -> Option<Self>
        ensures { result ≡ (if is_endpoint_address byte then Some byte else None) }
    {
        if matches!(byte, 0x01..=0x0f | 0x81..=0x8f) {
            Some(EndpointAddress { byte })
        } else {
            None
        }
    }

    /// Its value.
    pub fn get(self) -> u8
        ensures value { result ≡ self }
        ensures ruled { is_endpoint_address result ≡ true }
    {
        self.byte
    }

    /// Whether data go to the host.
    pub fn is_in(self) -> bool
        ensures { result ≡ nat_le DIRECTION_IN self }
    {
        self.byte >= DIRECTION_IN
    }

    /// The endpoint's number, 1 to 15.
    pub fn number(self) -> u8
        ensures value { result ≡ self % DIRECTION_IN }
        ensures least { 1 ≤ result }
        ensures most { result ≤ 15 }
    {
        self.byte % DIRECTION_IN
    }
}
