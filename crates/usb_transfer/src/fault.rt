//! Why a transfer ended with no success.
ghost use Rattle.std.specs.Prelude.{◌≡◌};
ghost use Rattle.usb_transfer.specs.Control.{as_pipe_fault};
ghost use Rattle.usb_transfer.specs.declared.fault.PipeFault.TheVariants.{Memory as NoMemory};

use crate::TransFault;
use std::alloc::AllocError;
use thiserror::Error;
use usb_bus::BusFault;

/// Why a transfer ended with no success.
#[derive(Clone, Copy, Debug, PartialEq, Eq, Error)]
pub enum PipeFault {
    /// The endpoint answered STALL.
    #[error("stalled")]
    Stalled,
    /// NAKs and discarded repeats of one transaction together reached 256.
    #[error("busy")]
    Busy,
    /// There were three errors running in one transaction.
    #[error("no answer")]
    NoAnswer,
    /// The pipe has to be cleared first.
    #[error("broken")]
    Broken,
    /// The bus makes no more steps.
    #[error("{0}")]
    Bus(BusFault),
    /// Memory was refused for the bytes of an answer.
    #[error("out of memory")]
    Memory,
}

impl From<TransFault> for PipeFault {
    ghost from_gives = { λ fault e. e ≡ as_pipe_fault fault };

    fn from(fault: TransFault) -> PipeFault {
        match fault {
            TransFault::Stalled => PipeFault::Stalled,
            TransFault::Busy => PipeFault::Busy,
            TransFault::NoAnswer => PipeFault::NoAnswer,
            TransFault::Bus(fault) => PipeFault::Bus(fault),
        }
    }
}

impl From<AllocError> for PipeFault {
    ghost from_gives = { λ _ e. e ≡ NoMemory };

    fn from(_: AllocError) -> PipeFault {
        PipeFault::Memory
    }
}
