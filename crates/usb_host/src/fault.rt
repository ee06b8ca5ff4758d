//! Why a call of the host failed.
ghost use Rattle.std.specs.Prelude.{◌≡◌};
ghost use Rattle.usb_host.specs.ToldFaults.{host_fault};
ghost use Rattle.usb_host.specs.declared.fault.HostFault.TheVariants.{Memory as NoMemory};

use std::alloc::AllocError;
use thiserror::Error;
use usb_bus::BusFault;
use usb_table::{TableFault, TransferFault};

/// Why a call of the host failed, in the order in which the reasons are reported.
#[derive(Clone, Copy, Debug, PartialEq, Eq, Error)]
pub enum HostFault {
    /// An earlier call failed, and the host has stopped.
    #[error("stopped")]
    Stopped,
    /// A transfer was not done; the host goes on.
    #[error("{0}")]
    Transfer(TransferFault),
    /// The bus has failed.
    #[error("{0}")]
    Bus(BusFault),
    /// Memory was refused.
    #[error("out of memory")]
    Memory,
}

impl From<AllocError> for HostFault {
    ghost from_gives = { λ _ e. e ≡ NoMemory };

    fn from(_: AllocError) -> HostFault {
        HostFault::Memory
    }
}

impl From<TableFault> for HostFault {
    ghost from_gives = { λ fault e. e ≡ host_fault fault };

    fn from(fault: TableFault) -> HostFault {
        match fault {
            TableFault::Transfer(fault) => HostFault::Transfer(fault),
            TableFault::Bus(fault) => HostFault::Bus(fault),
            TableFault::Memory => HostFault::Memory,
        }
    }
}
