//! Why a bus asks no more.
ghost use Rattle.std.specs.Prelude.{◌≡◌};
ghost use Rattle.usb_stream.specs.Stream.{bus_fault};

use thiserror::Error;
use usb_bus::BusFault;
use usb_wire::WireFault;

/// Why a bus asks no more.
#[derive(Clone, Copy, Debug, PartialEq, Eq, Error)]
pub enum LiveFault {
    /// The reader failed.
    #[error("read failed")]
    Read,
    /// A line says nothing.
    #[error("{0}")]
    Line(WireFault),
    /// More than 64 statuses of root ports came before an answer.
    #[error("too many port lines")]
    TooManyPushes,
    /// The input ended, but not in place of what is requested.
    #[error("far end gone")]
    Gone,
    /// The writer failed.
    #[error("write failed")]
    Write,
    /// As many questions were asked as the limit allows.
    #[error("limit reached")]
    LimitReached,
}

/// What the fault is to a host: the limit is reached, or else the bus itself failed.
pub(crate) fn bus_fault(fault: LiveFault) -> BusFault
    ensures { result ≡ bus_fault fault }
{
    match fault {
        LiveFault::LimitReached => BusFault::Limit,
        LiveFault::Read
        | LiveFault::Line(_)
        | LiveFault::TooManyPushes
        | LiveFault::Gone
        | LiveFault::Write => BusFault::Failed,
    }
}
