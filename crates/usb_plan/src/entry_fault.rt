//! The faults of one entry, and which of several is reported.

ghost use Rattle.std.specs.Prelude.{◌≡◌, Some};
ghost use Rattle.usb_plan.specs.EntryFault.{fault_in_part, sooner, least_fault, entry_at};
ghost use Rattle.usb_plan.specs.declared.entry_fault.EntryFault.TheVariants.{Memory};

use crate::fault::{Place, PlanFault};
use hex::FromHexError;
use std::alloc::AllocError;

/// What is wrong with an entry, in the order in which faults are reported. If memory was refused,
/// nothing else is.
#[derive(Clone, Copy, PartialEq, Eq, PartialOrd, Ord)]
pub(crate) enum EntryFault {
    Memory,
    OnlyFar,
    MissingKey,
    BadValue,
    BadHex,
    UnknownDevice,
    BadPath,
    PortTaken,
    PortEmpty,
}

impl EntryFault {
    ghost use Rattle.usb_plan.specs.EntryFault.{at};

    /// The same fault with its place.
    #[tactic(auto, unfolding(crate::specs::EntryFault::at))]
    fn at(self, place: Place) -> PlanFault
        ensures { result ≡ at place self }
    {
        match self {
            EntryFault::Memory => PlanFault::Memory,
            EntryFault::OnlyFar => PlanFault::OnlyFar(place),
            EntryFault::MissingKey => PlanFault::MissingKey(place),
            EntryFault::BadValue => PlanFault::BadValue(place),
            EntryFault::BadHex => PlanFault::BadHex(place),
            EntryFault::UnknownDevice => PlanFault::UnknownDevice(place),
            EntryFault::BadPath => PlanFault::BadPath(place),
            EntryFault::PortTaken => PlanFault::PortTaken(place),
            EntryFault::PortEmpty => PlanFault::PortEmpty(place),
        }
    }
}

impl From<AllocError> for EntryFault {
    ghost from_gives = { λ _ fault. fault ≡ Memory };

    fn from(_: AllocError) -> EntryFault {
        EntryFault::Memory
    }
}

impl From<FromHexError> for EntryFault {
    ghost use Rattle.usb_plan.specs.EntryFault.{hex_fault};

    ghost from_gives = { λ error fault. fault ≡ hex_fault error };

    fn from(error: FromHexError) -> EntryFault {
        match error {
            FromHexError::OutOfMemory => EntryFault::Memory,
            _ => EntryFault::BadHex,
        }
    }
}

/// The fault of a part, if it has one.
#[tactic(auto, unfolding(crate::specs::EntryFault::fault_in_part))]
pub(crate) fn fault_in_part<A>(part: &Result<A, EntryFault>) -> Option<EntryFault>
    ensures { result ≡ fault_in_part part.now }
{
    part.as_ref().err().copied()
}

/// A fault beside what is reported of the parts after it.
#[tactic(auto, unfolding(crate::specs::EntryFault::sooner, crate::specs::EntryFault::least))]
fn sooner(fault: EntryFault, others: Result<(), EntryFault>) -> Result<(), EntryFault>
    ensures { result ≡ sooner (Some fault) others }
{
    match others {
        Ok(()) => Err(fault),
        Err(other) => Err(fault.min(other)),
    }
}

/// Refuses an entry with faults in its parts, and reports the first in order.
#[tactic(auto, unfolding(crate::specs::EntryFault::least_fault, crate::specs::EntryFault::sooner))]
pub(crate) fn least_fault(faults: &[Option<EntryFault>]) -> Result<(), EntryFault>
    ensures { result ≡ least_fault faults.now }
{
    match faults.split_first() {
        None => Ok(()),
        Some((None, rest)) => least_fault(rest),
        Some((Some(fault), rest)) => sooner(*fault, least_fault(rest)),
    }
}

/// An entry, or its fault with the place.
#[tactic(auto, unfolding(crate::specs::EntryFault::entry_at))]
pub(crate) fn entry_at<A>(place: Place, entry: Result<A, EntryFault>) -> Result<A, PlanFault>
    ensures { result ≡ entry_at place entry }
{
    entry.map_err(|fault| fault.at(place))
}
