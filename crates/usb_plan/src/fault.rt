//! Why a text is no plan.

ghost use Rattle.std.specs.Prelude.{◌≡◌};
ghost use Rattle.usb_plan.specs.declared.fault.PlanFault.TheVariants.{Memory as NoMemory};

use std::alloc::AllocError;
use std::fmt;
use thiserror::Error;

/// The entry of a plan's text that has a fault.
#[derive(Clone, Copy, Debug, PartialEq, Eq)]
pub enum Place {
    /// The keys at the top.
    Top,
    /// A `device` entry, counted from 1.
    Device(usize),
    /// An `event` entry, counted from 1.
    Event(usize),
    /// A `damage` entry, counted from 1.
    Damage(usize),
}

impl fmt::Display for Place {
    ghost use Rattle.std.specs.Prelude.{Some};
    ghost use Rattle.usb_plan.specs.Place.{place_text};

    ghost output = { λ place. Some (place_text place) };

    fn fmt<W: fmt::Write>(&self, f: &mut fmt::Formatter<W>) -> fmt::Result {
        match self {
            Place::Top => write!(f, "top"),
            Place::Device(number) => write!(f, "device {number}"),
            Place::Event(number) => write!(f, "event {number}"),
            Place::Damage(number) => write!(f, "damage {number}"),
        }
    }
}

/// Why a text is no plan. Of the faults in one entry the first in this order is reported.
#[derive(Clone, Copy, Debug, PartialEq, Eq, Error)]
pub enum PlanFault {
    /// The text is no TOML document, or has a number of more than 64 bits.
    #[error("plan: syntax")]
    Syntax,
    /// The entry has the key `when`, whose place only the run of another host can say.
    #[error("plan: {0}: when is for far alone")]
    OnlyFar(Place),
    /// The entry lacks a key that it needs.
    #[error("plan: {0}: missing key")]
    MissingKey(Place),
    /// A key has no meaning there, a value is of a wrong kind or out of range, a name is an earlier device's, or an
    /// entry is one too many.
    #[error("plan: {0}: bad value")]
    BadValue(Place),
    /// A text is not hexadecimal digits, two for each byte.
    #[error("plan: {0}: bad hex")]
    BadHex(Place),
    /// An event names a device that no `device` entry has.
    #[error("plan: {0}: unknown device")]
    UnknownDevice(Place),
    /// A text is no path of ports, its first number is no root port's, or no such port is there where
    /// something is to be plugged.
    #[error("plan: {0}: bad path")]
    BadPath(Place),
    /// Something is plugged at the path already.
    #[error("plan: {0}: port taken")]
    PortTaken(Place),
    /// Nothing is plugged at the path, where something is to be unplugged.
    #[error("plan: {0}: port empty")]
    PortEmpty(Place),
    /// Memory was refused.
    #[error("out of memory")]
    Memory,
}

impl From<AllocError> for PlanFault {
    ghost from_gives = { λ _ fault. fault ≡ NoMemory };

    fn from(_: AllocError) -> PlanFault {
        PlanFault::Memory
    }
}
