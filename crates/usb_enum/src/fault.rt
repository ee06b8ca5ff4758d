//! Why there is no finding.
ghost use Rattle.std.specs.Prelude.{◌≡◌};
ghost use Rattle.usb_enum.specs.Stops.{fault_at_port};
ghost use Rattle.usb_enum.specs.declared.fault.EnumFault.TheVariants.{Memory as NoMemory};

use std::alloc::AllocError;
use thiserror::Error;
use usb_bus::BusFault;
use usb_transfer::PipeFault;

/// Why an enumeration ended with no finding.
#[derive(Clone, Copy, Debug, PartialEq, Eq, Error)]
pub enum EnumFault {
    /// A request to the hub that has the port failed.
    #[error("parent lost")]
    ParentLost,
    /// The bus has failed.
    #[error("{0}")]
    Bus(BusFault),
    /// Memory was refused.
    #[error("out of memory")]
    Memory,
}

/// A request to a port that failed: the hub that has the port is lost.
impl From<PipeFault> for EnumFault {
    ghost from_gives = { λ fault e. e ≡ fault_at_port fault };

    fn from(fault: PipeFault) -> EnumFault {
        match fault {
            PipeFault::Bus(fault) => EnumFault::Bus(fault),
            PipeFault::Memory => EnumFault::Memory,
            PipeFault::Stalled | PipeFault::Busy | PipeFault::NoAnswer | PipeFault::Broken => {
                EnumFault::ParentLost
            }
        }
    }
}

impl From<AllocError> for EnumFault {
    ghost from_gives = { λ _ e. e ≡ NoMemory };

    fn from(_: AllocError) -> EnumFault {
        EnumFault::Memory
    }
}
