//! An endpoint of a device besides endpoint 0: its number, and what is kept of it from the plug on.
ghost use Rattle.std.specs.Prelude.{◌≡◌, ◌<◌};

use crate::bulk::EndpointState;
use std::marker::Model;

/// The number of an endpoint: 0 to 15 (9.6.6).
#[derive(Clone, Copy, Debug)]
pub struct EndpointNumber {
    number: u8,
}

impl Model for EndpointNumber {
    ghost use Rattle.std.specs.Prelude.{ℕ, ◌<◌};

    ghost Value = { ℕ };

    ghost view = { λ n. n.number };

    ghost invariant = { λ n. n.number < 16 };

    ghost inverse = { λ n. record { number = n } };
}

impl EndpointNumber {
    /// The endpoint with this number.
    pub fn new(number: u8) -> Self
        requires { number < 16 }
        ensures { result ≡ number }
    {
        EndpointNumber { number }
    }

    /// The number.
    pub fn get(self) -> u8
        ensures value { result ≡ self }
        ensures bound { result < 16 }
    {
        self.number
    }

    /// Its place in a row.
    pub fn place(self) -> usize
        ensures value { result ≡ self }
        ensures bound { result < 16 }
    {
        usize::from(self.number)
    }
}

/// How an endpoint hesitates, and when it halts.
#[derive(Clone, Copy, Debug)]
pub struct Pace {
    /// How many NAKs it still gives before its next packet.
    pub naks: u16,
    /// How many it gives before each packet.
    pub each: u16,
    /// How many packets it still moves until it halts; None if it does not halt by itself.
    pub until_halt: Option<u16>,
}

/// An IN endpoint besides endpoint 0.
#[derive(Clone, Copy, Debug)]
pub struct InEnd {
    /// Its toggle and its halt.
    pub state: EndpointState,
    /// How it hesitates, and when it halts.
    pub pace: Pace,
    /// How much of its data the host has acknowledged: bytes of a source, or whole packets.
    pub place: u16,
}

/// An OUT endpoint besides endpoint 0, but for what it has taken.
#[derive(Clone, Copy, Debug)]
pub struct OutHead {
    /// Its toggle and its halt.
    pub state: EndpointState,
    /// How it hesitates, and when it halts.
    pub pace: Pace,
}
