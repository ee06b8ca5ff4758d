//! Why a driver's call failed.
ghost use Rattle.std.specs.Prelude.{◌≡◌};
ghost use Rattle.usb_class_drivers.specs.Faults.{driver_told, is_stalled};
ghost use Rattle.usb_class_drivers.specs.declared.fault.DriverFault.TheVariants.{Host};

use thiserror::Error;
use usb_host::{HostFault, TransferFault};

/// Why a driver's call failed.
#[derive(Clone, Copy, Debug, PartialEq, Eq, Error)]
pub enum DriverFault {
    /// The device at the path is not of the driver's kind.
    #[error("not of this kind")]
    Alien,
    /// The device that the driver was given is not listed any more, also if another one is.
    #[error("gone")]
    Gone,
    /// A call of the host ended so.
    #[error("{0}")]
    Host(HostFault),
    /// The disk could not do what it was asked.
    #[error("failed")]
    Failed,
    /// It moved fewer bytes than it was asked for.
    #[error("too few bytes")]
    Short,
    /// What came is no status of the command, or disk and host disagree on what is under way:
    /// `Disk::recover` lets them begin again.
    #[error("out of step")]
    OutOfStep,
}

impl From<HostFault> for DriverFault {
    ghost from_gives = { λ fault e. e ≡ Host fault };

    fn from(fault: HostFault) -> DriverFault {
        DriverFault::Host(fault)
    }
}

/// What a call of the host gave, as a driver reports it.
pub(crate) fn driver_told<T>(told: Result<T, HostFault>) -> Result<T, DriverFault>
    ensures { result ≡ driver_told told }
{
    match told {
        Ok(done) => Ok(done),
        Err(fault) => Err(DriverFault::Host(fault)),
    }
}

/// Whether an endpoint or a device answered STALL.
pub(crate) fn is_stalled<T>(told: &Result<T, HostFault>) -> bool
    ensures { result ≡ is_stalled told.now }
{
    match told {
        Err(HostFault::Transfer(TransferFault::Stalled)) => true,
        _ => false,
    }
}
