//! What ends an enumeration early.
ghost use Rattle.std.specs.Prelude.{◌≡◌};
ghost use Rattle.usb_enum.specs.Stops.{stop_of, answered_or, at_port};
ghost use Rattle.usb_enum.specs.declared.stop.Stop.TheVariants.{Fault as StopFault};
ghost use Rattle.usb_enum.specs.declared.fault.EnumFault.TheVariants.{Memory as NoMemory};

use crate::{Cause, EnumFault};
use std::alloc::AllocError;
use usb_transfer::PipeFault;

/// What ends an enumeration early.
#[derive(Clone, Copy, Debug, PartialEq, Eq)]
pub(crate) enum Stop {
    /// The device is refused.
    Refused(Cause),
    /// There is no finding.
    Fault(EnumFault),
}

impl From<AllocError> for Stop {
    ghost from_gives = { λ _ stop. stop ≡ StopFault NoMemory };

    fn from(_: AllocError) -> Stop {
        Stop::Fault(EnumFault::Memory)
    }
}

impl From<EnumFault> for Stop {
    ghost from_gives = { λ fault stop. stop ≡ StopFault fault };

    fn from(fault: EnumFault) -> Stop {
        Stop::Fault(fault)
    }
}

/// What a failed transfer to the device means; `None` at a STALL, which means what the request
/// says.
pub(crate) fn stop_of(fault: PipeFault) -> Option<Stop>
    ensures { result ≡ stop_of fault }
{
    match fault {
        PipeFault::Stalled => None,
        PipeFault::Busy => Some(Stop::Refused(Cause::Busy)),
        PipeFault::NoAnswer | PipeFault::Broken => Some(Stop::Refused(Cause::Silent)),
        PipeFault::Bus(fault) => Some(Stop::Fault(EnumFault::Bus(fault))),
        PipeFault::Memory => Some(Stop::Fault(EnumFault::Memory)),
    }
}

/// What a transfer to the device gave, where `stalled` is the cause at a STALL.
pub(crate) fn answered_or<X>(stalled: Cause, outcome: Result<X, PipeFault>) -> Result<X, Stop>
    ensures { result ≡ answered_or stalled outcome }
{
    match outcome {
        Ok(answer) => Ok(answer),
        Err(fault) => Err(stop_of(fault).unwrap_or(Stop::Refused(stalled))),
    }
}

/// What a request to a port gave.
pub(crate) fn at_port<X>(outcome: Result<X, PipeFault>) -> Result<X, EnumFault>
    ensures { result ≡ at_port outcome }
{
    match outcome {
        Ok(answer) => Ok(answer),
        Err(fault) => Err(EnumFault::from(fault)),
    }
}
