//! The root ports that are left alone, since no clearing takes their change of connection away.
ghost use Rattle.std.specs.Prelude.{◌≡◌, ◌↔◌, IsTrue, None, Some, false, is_some, slice_index_or, slice_set, true};
ghost use Rattle.usb_host.specs.LeftPorts.{none_left};

use std::marker::{Model, PhantomData};
use usb_bus::Bus;

/// The status (11.24.2.7) at which each root port is left alone, if it is. Of a bus that does what its world does
/// none ever is: a clearing there takes the change away.
#[derive(Debug, Drop)]
pub(crate) struct LeftPorts<B: Bus> {
    // by the port's number, 1 to 7
    at: [Option<[u8; 4]>; 8],
    // the status of a port, not left alone, that did not fit what was found there
    tried: [Option<[u8; 4]>; 8],
    // whether a status was ever kept in either
    is_used: bool,
    bus: PhantomData<B>,
}

impl<B: Bus> Model for LeftPorts<B> {
    ghost use Rattle.std.specs.Prelude.{◌≡◌, false, true};
    ghost use Rattle.usb_host.specs.LeftPorts.{LeftStatuses, none_left};

    ghost Value = { LeftStatuses };

    ghost view = { λ ports. ports.at };

    ghost invariant = { λ ports. (B.modelled ≡ true → ports.at ≡ none_left)
        × (ports.is_used ≡ false → ports.at ≡ none_left) };
}

impl<B: Bus> LeftPorts<B> {
    /// None is left alone.
    pub(crate) fn new() -> Self
        ensures { result ≡ none_left }
    {
        LeftPorts {
            at: [None; 8],
            tried: [None; 8],
            is_used: false,
            bus: PhantomData,
        }
    }

    /// The same ports of another bus, left alone at the same statuses. A bus that does what its world does
    /// leaves none alone.
    pub(crate) fn of_bus<C: Bus>(&self) -> LeftPorts<C>
        requires { C.modelled ≡ true → B.modelled ≡ false → self.now ≡ none_left }
        ensures value { result ≡ self.now }
        ensures none { B.modelled ≡ true → self.now ≡ none_left }
    {
        LeftPorts {
            at: self.at,
            tried: self.tried,
            is_used: self.is_used,
            bus: PhantomData,
        }
    }

    /// Whether a status of a port was ever kept; if not, none is left alone.
    pub(crate) fn is_used(&self) -> bool
        ensures { result ≡ false → self.now ≡ none_left }
    {
        self.is_used
    }

    /// Whether a port is left alone.
    pub(crate) fn has(&self, number: u8) -> bool
        ensures value { result ≡ is_some (slice_index_or self.now number None) }
        ensures none { B.modelled ≡ true → result ≡ false }
        ensures empty { self.now ≡ none_left → result ≡ false }
    {
        match self.at.get(usize::from(number)) {
            Some(left) => left.is_some(),
            None => false,
        }
    }

    /// Whether a port is left alone at exactly this status.
    pub(crate) fn has_at(&self, number: u8, status: [u8; 4]) -> bool
        ensures value { IsTrue result ↔ (slice_index_or self.now number None ≡ Some status) }
        ensures none { B.modelled ≡ true → result ≡ false }
    {
        match self.at.get(usize::from(number)) {
            Some(left) => *left == Some(status),
            None => false,
        }
    }

    /// Leaves a port alone, as long as it shows this status.
    pub(crate) fn leave(&mut self, number: u8, status: [u8; 4])
        requires { B.modelled ≡ false }
        ensures { self.new ≡ slice_set self.old number (Some status) }
    {
        if number < 8 {
            self.is_used = true;
            self.at[usize::from(number)] = Some(status);
        }
    }

    /// Whether a port showed this status before, and it did not fit what was found there.
    pub(crate) fn was_tried(&self, number: u8, status: [u8; 4]) -> bool {
        match self.tried.get(usize::from(number)) {
            Some(tried) => *tried == Some(status),
            None => false,
        }
    }

    /// Notes that a port shows this status, which does not fit what was found there.
    pub(crate) fn note(&mut self, number: u8, status: [u8; 4])
        ensures { self.new ≡ self.old }
    {
        if number < 8 {
            self.is_used = true;
            self.tried[usize::from(number)] = Some(status);
        }
    }

    /// Forgets which status of a port did not fit what was found there, before that is found anew.
    pub(crate) fn begin_afresh(&mut self, number: u8)
        ensures { self.new ≡ self.old }
    {
        if number < 8 {
            self.tried[usize::from(number)] = None;
        }
    }

    /// Leaves a port alone no longer, which shows this status.
    pub(crate) fn shows(&mut self, number: u8, status: [u8; 4])
        ensures value { self.new ≡ slice_set self.old number None }
        ensures none { B.modelled ≡ true → self.new ≡ self.old }
    {
        self.forget(number);
        if number < 8 && !self.was_tried(number, status) {
            self.tried[usize::from(number)] = None;
        }
    }

    /// Leaves a port alone no longer.
    pub(crate) fn forget(&mut self, number: u8)
        ensures value { self.new ≡ slice_set self.old number None }
        ensures none { B.modelled ≡ true → self.new ≡ self.old }
    {
        if self.has(number) {
            self.at[usize::from(number)] = None;
        }
    }
}
