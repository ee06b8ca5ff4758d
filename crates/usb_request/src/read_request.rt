//! Setup data of a request that reads.
ghost use Rattle.std.specs.Prelude.{◌≡◌, IfSome, IfNone};
ghost use Rattle.usb_request.specs.Layout.{IsToDevice, IsToHost};

use crate::Setup;
use crate::endpoint_address::DIRECTION_IN;
use std::marker::Model;

/// The setup data of a request that reads: bit 7 of bmRequestType is set (9.3.1).
#[derive(Clone, Copy, Debug, PartialEq, Eq)]
pub struct ReadRequest {
    setup: Setup,
}

impl Model for ReadRequest {
    ghost use Rattle.usb_request.specs.Layout.{IsToHost};
    ghost use Rattle.usb_request.specs.declared.setup.Setup.{Setup};

    ghost Value = { Setup };

    ghost view = { λ r. r.setup };

    ghost inverse = { λ setup. record { setup = setup } };

    ghost invariant = { λ r. IsToHost r.setup };
}

impl ReadRequest {
    /// The request of this setup data; `None` if bit 7 is clear.
    pub fn new(setup: Setup) -> Option<ReadRequest>
        ensures some { IfSome result (λ request. request ≡ setup) }
        ensures none { IfNone result (IsToDevice setup) }
    {
        if setup.request_type >= DIRECTION_IN {
            Some(ReadRequest { setup })
        } else {
            None
        }
    }

    /// Its setup data.
    pub fn setup(self) -> Setup
        ensures value { result ≡ self }
        ensures reads { IsToHost result }
    {
        self.setup
    }
}
