//! What the host's answer to a transfer is to a run.
ghost use Rattle.std.specs.Prelude.{◌≡◌};
ghost use Rattle.usb_run.specs.Transfers.{transfer_ended, sent_count};

use crate::RunFault;
use usb_host::{HostFault, TransferFault};

/// What a transfer came to; the error is one that ends the run.
///
/// # Errors
///
/// The fault of the bus, or `Memory`: these end the run.
pub fn answered<T>(outcome: Result<T, HostFault>) -> Result<Result<T, TransferFault>, RunFault>
    ensures { result ≡ transfer_ended outcome }
{
    match outcome {
        Ok(done) => Ok(Ok(done)),
        Err(HostFault::Transfer(fault)) => Ok(Err(fault)),
        Err(HostFault::Bus(fault)) => Err(RunFault::from(fault)),
        Err(HostFault::Stopped | HostFault::Memory) => Err(RunFault::Memory),
    }
}

/// How many bytes were sent, if they were.
///
/// # Errors
///
/// Why the transfer was not done.
pub fn counted(count: usize, sent: Result<(), TransferFault>) -> Result<u64, TransferFault>
    ensures { result ≡ sent_count count sent }
{
    match sent {
        Ok(()) => Ok(count as u64),
        Err(fault) => Err(fault),
    }
}
