//! A request that writes to endpoint 0, with its bytes.
ghost use Rattle.std.specs.Prelude.{◌≡◌, ◌≤◌, [], IfNone, IfSome, length};
ghost use Rattle.usb_request.specs.Layout.{IsToDevice};
ghost use Rattle.usb_wire.specs.Writes.{IsWrite};

use arrayvec::ArrayVec;
use std::marker::Model;
use usb_request::Setup;
use usb_request::endpoint_address::DIRECTION_IN;

/// The most bytes that are written to endpoint 0, if a line is to have room for them.
pub const WRITE_LIMIT: usize = 480;

/// A request to the device with its bytes: bit 7 of bmRequestType is clear, and wLength is the number
/// of bytes (9.3.1).
#[derive(Debug, Drop)]
pub struct ControlWrite {
    setup: Setup,
    bytes: ArrayVec<u8, WRITE_LIMIT>,
}

impl Model for ControlWrite {
    ghost use Rattle.usb_wire.specs.Writes.{IsWrite, Write};

    ghost Value = { Write };

    ghost view = { λ w. record { setup = w.setup; bytes = w.bytes.items } };

    ghost invariant = { λ w. IsWrite (record { setup = w.setup; bytes = w.bytes.items }) };
}

impl ControlWrite {
    /// The request of this setup data with these bytes; `None` if bit 7 is set, or wLength is not
    /// their number.
    pub fn new(setup: Setup, bytes: ArrayVec<u8, WRITE_LIMIT>) -> Option<ControlWrite>
        ensures some { IfSome result (λ w. w ≡ record { setup = setup; bytes = bytes.items }) }
        ensures none { IfNone result (IsWrite (record { setup = setup; bytes = bytes.items }) → ⊥) }
    {
        if setup.request_type < DIRECTION_IN && usize::from(setup.length) == bytes.len() {
            Some(ControlWrite { setup, bytes })
        } else {
            None
        }
    }

    /// The request of no data.
    pub(crate) fn without_data(setup: Setup) -> ControlWrite
        requires writes { IsToDevice setup }
        requires none { setup.length ≡ 0 }
        ensures { result ≡ record { setup = setup; bytes = [] } }
    {
        ControlWrite {
            setup,
            bytes: ArrayVec::new(),
        }
    }

    /// Its setup data.
    pub fn setup(&self) -> Setup
        ensures value { result ≡ self.now.setup }
        ensures writes { IsWrite self.now }
    {
        self.setup
    }

    /// Its bytes, 0 to 480.
    pub fn bytes(&self) -> &[u8]
        ensures value { result.now ≡ self.now.bytes }
        ensures few { length result.now ≤ 480 }
        ensures writes { IsWrite self.now }
    {
        self.bytes.as_slice()
    }
}
