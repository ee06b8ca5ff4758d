//! The numbers of accepted devices.
ghost use Rattle.std.specs.Prelude.{◌≡◌, ◌+◌, ◌<◌, ◌^◌, ◌↔◌, IsTrue, slice_index};
ghost use Rattle.usb_enum.specs.declared.finding.Finding.{Finding};
ghost use Rattle.usb_table.specs.Findings.{address_found};
ghost use Rattle.usb_host.specs.Numbers.{AreNumbers, first_numbers, with_number};

use std::marker::Model;
use usb_port::Address;

/// The number of the device at each address. No two devices that one host accepts get the same.
#[derive(Debug, Drop)]
pub(crate) struct Numbers {
    // by address; from the start each has a number, which no device gets
    of: [u64; 128],
    // what the next device gets
    next: u64,
}

impl Model for Numbers {
    ghost use Rattle.usb_host.specs.Numbers.{AreNumbers, DeviceNumbers};

    ghost Value = { DeviceNumbers };

    ghost view = { λ n. record { of = n.of; next = n.next } };

    ghost invariant = { λ n. AreNumbers (record { of = n.of; next = n.next }) };
}

impl Numbers {
    /// No number was given yet.
    pub(crate) fn new() -> Self
        ensures { result ≡ first_numbers }
    {
        let mut of = [0; 128];
        'addresses: for address in 0..128u8 {
            of[usize::from(address)] = u64::from(address);
        }
        Numbers { of, next: 128 }
    }

    /// The same numbers again.
    pub(crate) fn duplicate(&self) -> Numbers
        ensures { result ≡ self.now }
    {
        Numbers {
            of: self.of,
            next: self.next,
        }
    }

    /// Whether there is a next number.
    pub(crate) fn has_next(&self) -> bool
        ensures value { IsTrue result ↔ (self.now.next + 1 < 2 ^ 64) }
        ensures numbers { AreNumbers self.now }
    {
        self.next < u64::MAX
    }

    /// Gives the device at an address the next number.
    pub(crate) fn give(&mut self, address: Option<Address>)
        requires { self.old.next + 1 < 2 ^ 64 }
        ensures { (f : Finding) → address_found f ≡ address
            → self.new ≡ with_number f self.old }
    {
        if let Some(address) = address {
            self.of[usize::from(address.number())] = self.next;
            self.next += 1;
        }
    }

    /// The number of the device at an address.
    pub(crate) fn at(&self, address: Address) -> u64
        ensures value { result ≡ slice_index self.now.of address }
        ensures numbers { AreNumbers self.now }
    {
        self.of[usize::from(address.number())]
    }
}
