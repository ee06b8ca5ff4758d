//! An accepted device with its number, and what a refused one said.
ghost use Rattle.std.specs.Prelude.{◌≡◌};

use crate::Host;
use std::marker::Model;
use usb_bus::Bus;
use usb_enum::{Accepted, Finding};
use usb_port::PortPath;

/// A device that a host has accepted, with its number.
#[derive(Debug, Drop)]
pub struct Device<'a> {
    accepted: &'a Accepted,
    number: u64,
}

impl<'a> Model for Device<'a> {
    ghost use Rattle.usb_host.specs.Numbers.{KnownDevice};

    ghost Value = { KnownDevice };

    ghost view = { λ d. record { accepted = d.accepted.now; number = d.number } };
}

impl<'a> Device<'a> {
    /// What was found of the device.
    pub fn accepted(&self) -> &'a Accepted
        ensures { result.now ≡ self.now.accepted }
    {
        self.accepted
    }

    /// The device's number. A host gives no number twice, also to devices that are alike.
    pub fn number(&self) -> u64
        ensures { result ≡ self.now.number }
    {
        self.number
    }
}

impl<B: Bus> Host<B> {
    ghost use Rattle.std.specs.Prelude.{◌≡◌, option_copied};
    ghost use Rattle.usb_table.specs.Tables.{said_at};
    ghost use Rattle.usb_host.specs.Numbers.{NumbersFit, device_in};
    ghost use Rattle.usb_host.specs.Progress.{known_in};
    ghost use Rattle.usb_host.specs.Transfers.{table_in};

    /// The accepted device at a path, hubs too; `None` if none is listed there.
    pub fn device(&self, path: &PortPath) -> Option<Device<'_>>
        ensures value { result ≡ device_in path.now (known_in self.now) }
        ensures numbers { NumbersFit (known_in self.now) }
    {
        // for the checker: no number was given twice
        let _more = self.numbers.has_next();
        match self.table.get(path) {
            Some(Finding::Device(accepted)) => Some(Device {
                accepted,
                number: self.numbers.at(accepted.address),
            }),
            _ => None,
        }
    }

    /// What the refused device at a path said of itself (9.6.1): the bytes of its device descriptor
    /// that were read last, 0 to 18. `None` if no refused device is listed there. A hub that was lost
    /// said nothing.
    pub fn said(&self, path: &PortPath) -> Option<&[u8]>
        ensures { option_copied result ≡ said_at path.now (table_in self.now) }
    {
        self.table.said(path)
    }
}
