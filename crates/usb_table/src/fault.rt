//! Why a call through the pipes to a device ended with no success.
ghost use Rattle.std.specs.Prelude.{◌≡◌};
ghost use Rattle.usb_table.specs.Transfers.{of_pipe, table_answer};

use thiserror::Error;
use usb_bus::BusFault;
use usb_transfer::PipeFault;

/// Why a transfer was not done, in the order in which the reasons are reported.
#[derive(Clone, Copy, Debug, PartialEq, Eq, Error)]
pub enum TransferFault {
    /// No device that was accepted is at the path.
    #[error("no device")]
    NoDevice,
    /// The path is no root port, and no port of a listed hub.
    #[error("no port")]
    NoPort,
    /// The host alone may send this request.
    #[error("reserved")]
    Reserved,
    /// The device is a hub, or has no such setting of an interface that could be chosen.
    #[error("no interface")]
    NoInterface,
    /// The device is a hub, or has no such endpoint that a pipe can use.
    #[error("no endpoint")]
    NoEndpoint,
    /// The endpoint answered STALL.
    #[error("stalled")]
    Stalled,
    /// NAKs and discarded repeats of one transaction together reached 256.
    #[error("busy")]
    Busy,
    /// There were three errors in a row in one transaction.
    #[error("no answer")]
    NoAnswer,
    /// The pipe has to be cleared first, or its interface has to be set first.
    #[error("broken")]
    Broken,
}

/// Why a call through the pipes to a device failed: what the transfer came to, or what ends all.
#[derive(Clone, Copy, Debug, PartialEq, Eq, Error)]
pub enum TableFault {
    /// The transfer was not done.
    #[error("{0}")]
    Transfer(TransferFault),
    /// The bus has failed.
    #[error("{0}")]
    Bus(BusFault),
    /// Memory was refused.
    #[error("out of memory")]
    Memory,
}

impl From<PipeFault> for TableFault {
    ghost from_gives = { λ fault e. e ≡ of_pipe fault };

    fn from(fault: PipeFault) -> TableFault {
        match fault {
            PipeFault::Stalled => TableFault::Transfer(TransferFault::Stalled),
            PipeFault::Busy => TableFault::Transfer(TransferFault::Busy),
            PipeFault::NoAnswer => TableFault::Transfer(TransferFault::NoAnswer),
            PipeFault::Broken => TableFault::Transfer(TransferFault::Broken),
            PipeFault::Bus(fault) => TableFault::Bus(fault),
            PipeFault::Memory => TableFault::Memory,
        }
    }
}

/// A pipe's answer as the table's.
pub(crate) fn table_answer<A>(answer: Result<A, PipeFault>) -> Result<A, TableFault>
    ensures { result ≡ table_answer answer }
{
    Ok(answer?)
}
