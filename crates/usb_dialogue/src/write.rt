//! Bytes that go to a device.
ghost use Rattle.std.specs.Prelude.{◌≡◌};
ghost use Rattle.usb_dialogue.specs.Wants.{write_request};
ghost use Rattle.usb_dialogue.specs.WriteRequests.{IsWrite};

use std::marker::Model;
use usb_request::Setup;
use usb_request::endpoint_address::DIRECTION_IN;

/// Bytes that go to a device.
#[derive(Debug, Drop)]
pub struct Bytes {
    bytes: Vec<u8>,
}

impl Model for Bytes {
    ghost use Rattle.std.specs.Prelude.{List, ℕ};

    ghost Value = { List ℕ };

    ghost view = { λ b. b.bytes.items };
}

impl Bytes {
    /// These bytes.
    pub fn new(bytes: Vec<u8>) -> Bytes
        ensures { result ≡ bytes.items }
    {
        Bytes { bytes }
    }

    /// The bytes in their order.
    pub fn as_slice(&self) -> &[u8]
        ensures { result.now ≡ self.now }
    {
        self.bytes.as_slice()
    }
}

/// A request that writes to endpoint 0, with its bytes: bit 7 of bmRequestType is clear, and
/// wLength is the number of bytes (9.3.1).
#[derive(Debug, Drop)]
pub struct WriteRequest {
    setup: Setup,
    bytes: Bytes,
}

impl Model for WriteRequest {
    ghost use Rattle.usb_dialogue.specs.WriteRequests.{IsWrite, Write};

    ghost Value = { Write };

    ghost view = { λ w. record { setup = w.setup; bytes = w.bytes } };

    ghost invariant = { λ w. IsWrite (record { setup = w.setup; bytes = w.bytes }) };
}

impl WriteRequest {
    /// The request of this setup data with these bytes; `None` if bit 7 is set, or wLength is not
    /// their number.
    pub fn new(setup: Setup, bytes: Bytes) -> Option<WriteRequest>
        ensures { result ≡ write_request setup bytes }
    {
        if setup.request_type >= DIRECTION_IN
            || usize::from(setup.length) != bytes.as_slice().len()
        {
            return None;
        }
        Some(WriteRequest { setup, bytes })
    }

    /// Its setup data.
    pub fn setup(&self) -> Setup
        ensures value { result ≡ self.now.setup }
        ensures writes { IsWrite self.now }
    {
        self.setup
    }

    /// Its bytes.
    pub fn bytes(&self) -> &[u8]
        ensures value { result.now ≡ self.now.bytes }
        ensures writes { IsWrite self.now }
    {
        self.bytes.as_slice()
    }
}
