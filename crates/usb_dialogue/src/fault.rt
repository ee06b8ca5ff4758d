//! Why a call of a driver was refused.
ghost use Rattle.std.specs.Prelude.{◌≡◌};
ghost use Rattle.usb_dialogue.specs.Faults.{fault_number};
ghost use Rattle.usb_dialogue.specs.declared.fault.DriverFault.TheVariants.{Memory as NoMemory};

use std::alloc::AllocError;
use thiserror::Error;

/// Why a call of a driver was refused. Each has a number, by which programs in C know it.
#[derive(Clone, Copy, Debug, PartialEq, Eq, Error)]
pub enum DriverFault {
    /// Memory was refused. Nothing changed; the call may be made again.
    #[error("out of memory")]
    Memory,
    /// `begin` during a call, an answer with no question, or a row's answer to another question.
    #[error("out of turn")]
    OutOfTurn,
    /// The record is of no kind that is read here.
    #[error("no such kind of record")]
    Kind,
    /// The record's length is not the one that it must have, or a row has no full packets.
    #[error("wrong length of a record")]
    Length,
    /// An answer has more data than the question's maximum, or more packets than its row.
    #[error("more data than the maximum")]
    TooMuch,
    /// The number of root ports is not 1 to 7.
    #[error("not 1 to 7 root ports")]
    Roots,
    /// A field of the record has no meaning: no path, endpoint, request or toggle has this number,
    /// or a byte that the record does not use is not 0.
    #[error("no such number in a record")]
    Number,
}

impl DriverFault {
    /// Its number, 40 to 46.
    pub fn number(self) -> u8
        ensures { result ≡ fault_number self }
    {
        match self {
            DriverFault::Memory => 40,
            DriverFault::OutOfTurn => 41,
            DriverFault::Kind => 42,
            DriverFault::Length => 43,
            DriverFault::TooMuch => 44,
            DriverFault::Roots => 45,
            DriverFault::Number => 46,
        }
    }
}

impl From<AllocError> for DriverFault {
    ghost from_gives = { λ _ e. e ≡ NoMemory };

    fn from(_error: AllocError) -> DriverFault {
        DriverFault::Memory
    }
}
