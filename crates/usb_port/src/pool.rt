//! The addresses of devices, free and taken.
ghost use Rattle.std.specs.Prelude.{◌≡◌, ◌↔◌, ℕ, true, false, not, slice_index_or, IfSome, IfNone, IsTrue};
ghost use Rattle.std.specs.FinSet as set;
ghost use Rattle.usb_port.specs.Pool.{IsAddress, IsFull, HasAddresses, Takes, Releases};
ghost use Rattle.usb_port.specs.Pool.{IsLeastUnset};

use std::marker::Model;

/// A device address, 1 to 127 (9.4.6). 0 is the default address, which nobody is given.
#[derive(Clone, Copy, Debug, PartialEq, Eq, PartialOrd, Ord)]
pub struct Address {
    number: u8,
}

impl Model for Address {
    ghost use Rattle.std.specs.Prelude.{ℕ};
    ghost use Rattle.usb_port.specs.Pool.{IsAddress};

    ghost Value = { ℕ };

    ghost view = { λ a. a.number };

    ghost invariant = { λ a. IsAddress a.number };

    ghost inverse = { λ n. record { number = n } };
}

impl Address {
    /// The address as a number, 1 to 127.
    pub fn number(self) -> u8
        ensures value { result ≡ self }
        ensures range { IsAddress result }
    {
        self.number
    }
}

/// The addresses that are taken.
#[derive(Debug, Drop)]
pub struct AddressPool {
    // whether the address of this number is taken; 0 never is
    taken: [bool; 128],
}

impl Model for AddressPool {
    ghost use Rattle.std.specs.Prelude.{◌≡◌, false, length, slice_index_or};
    ghost use Rattle.std.specs.Coded.{coded_ℕ};
    ghost use Rattle.std.specs.FinSet as set;
    ghost use Rattle.usb_port.specs.Pool.{Addresses, addresses_marked};

    ghost coded = { set.code coded_ℕ };

    ghost Value = { Addresses };

    ghost view = { λ p. addresses_marked p.taken };

    ghost invariant = { λ p. (length p.taken ≡ 128) × (slice_index_or p.taken 0 false ≡ false) };
}

impl AddressPool {
    /// A pool with every address free.
    pub fn new() -> Self
        ensures empty { result ≡ set.empty }
        ensures range { HasAddresses result }
    {
        AddressPool {
            taken: [false; 128],
        }
    }

    /// Takes the least free address. None if all are taken, and nothing changes.
    pub fn take(&mut self) -> Option<Address>
        ensures some { IfSome result (λ a. Takes self.old a self.new) }
        ensures none { IfNone result (IsFull self.old × (self.new ≡ self.old)) }
        ensures range { HasAddresses self.new }
    {
        let number = least_unset(&self.taken)?;
        self.taken[number as usize] = true;
        Some(Address { number })
    }

    /// A second pool with the same addresses taken.
    pub fn duplicate(&self) -> AddressPool
        ensures { result ≡ self.now }
    {
        AddressPool { taken: self.taken }
    }

    /// Whether every address is taken.
    pub fn is_full(&self) -> bool
        ensures { IsTrue result ↔ IsFull self.now }
    {
        least_unset(&self.taken).is_none()
    }

    /// Makes the address free, whether it was taken or not.
    pub fn release(&mut self, address: Address)
        ensures released { Releases self.old address self.new }
        ensures range { HasAddresses self.new }
    {
        self.taken[address.number as usize] = false;
    }

    /// Whether the address is free.
    pub fn is_free(&self, address: Address) -> bool
        ensures free { result ≡ not (set.contains self.now address) }
        ensures range { HasAddresses self.now }
    {
        !self.taken[address.number as usize]
    }
}

/// The least number from 1 on whose mark is not set.
fn least_unset(marks: &[bool; 128]) -> Option<u8>
    ensures some { IfSome result (IsLeastUnset marks.now) }
    ensures none { IfNone result
        ((a : ℕ) → IsAddress a → slice_index_or marks.now a false ≡ true) }
{
    for number in 1..128u8 {
        if !marks[number as usize] {
            return Some(number);
        }
    }
    None
}
