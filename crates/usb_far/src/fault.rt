//! Why the controller side says no more.
ghost use Rattle.std.specs.Prelude.{◌≡◌};
ghost use Rattle.usb_far.specs.FarEnd.{reading_fault};

use thiserror::Error;
use usb_bus::BusFault;
use usb_watch::LineFault;

/// Why the controller side says no more.
#[derive(Clone, Copy, Debug, PartialEq, Eq, Error)]
pub enum FarFault {
    /// The reader failed.
    #[error("read failed")]
    Read,
    /// A line that reports nothing has more than 1,024 bytes.
    #[error("line too long")]
    LineTooLong,
    /// A byte of such a line is no printable ASCII.
    #[error("bad character")]
    BadCharacter,
    /// It is no question, or the hello is not the first question.
    #[error("no question")]
    NoQuestion,
    /// There is no such root port.
    #[error("bad number")]
    BadNumber,
    /// The input ended in mid-line.
    #[error("host gone")]
    HostGone,
    /// An event writes more than 480 bytes to endpoint 0. No line has room for them.
    #[error("too much to send")]
    LongSend,
    /// The simulated bus has failed.
    #[error("{0}")]
    Bus(BusFault),
    /// The writer failed.
    #[error("write failed")]
    Write,
}

impl From<LineFault> for FarFault {
    ghost from_gives = { λ e fault. fault ≡ reading_fault e };

    fn from(fault: LineFault) -> FarFault {
        match fault {
            LineFault::Read => FarFault::Read,
            LineFault::Cut => FarFault::HostGone,
        }
    }
}
