//! Why a packet was not moved.
use thiserror::Error;
use usb_bus::BusFault;

/// Why a transaction ended with no success.
#[derive(Clone, Copy, Debug, PartialEq, Eq, Error)]
pub enum TransFault {
    /// The endpoint answered STALL.
    #[error("stalled")]
    Stalled,
    /// NAKs and discarded repeats together reached 256.
    #[error("busy")]
    Busy,
    /// There were three errors in a row.
    #[error("no answer")]
    NoAnswer,
    /// The bus has failed.
    #[error("{0}")]
    Bus(BusFault),
}
